// A depot's day, replayed: a delivered list on standard input, a value of 32 hex digits to a line, is entered into a fresh ride ledger.
#![tactic(auto)]

use basics::Refusal;
use entries::Entry;
use ledger::Entered;
use passes::Table;
use std::io::Read;
use std::{fmt, io};

// A proved loop has to end, and nothing says that the input does: no run reaches so many lines. It is 2^56 - 1, so that as many sales of at most 255 rides
// each sell fewer than 2^64, and no sum overflows.
const MOST_LINES: u64 = 72057594037927935;

// No more than these bytes of a line are kept: a value's digits, and one byte that is too many.
const LINE_LENGTH: usize = 33;

// ---- lines of the input

// What was read of the input: from `from` until `until` it is still to be taken. It stands in an array, and so does a line: the replay needs no heap.
#[derive(Drop)]
struct Input<R: Read> {
    reader: R,
    chunk: [u8; 4096],
    from: usize,
    until: usize,
}

impl<R: Read> Input<R> {
    fn new(reader: R) -> Self {
        Input {
            reader,
            chunk: [0; 4096],
            from: 0,
            until: 0,
        }
    }

    // One byte, by a read where the chunk is used up; none at the end of the input.
    fn next_byte(&mut self) -> io::Result<Option<u8>> {
        if self.until <= self.from {
            self.until = self.reader.read(&mut self.chunk)?;
            self.from = 0;
        }
        if self.until <= self.from {
            return Ok(None);
        }
        let byte = self.chunk.get(self.from).copied();
        self.from += 1;
        Ok(byte)
    }

    // A line ends at its newline, which is left out, or at the end of the input if anything stands before that.
    fn next_line<'l>(&mut self, line: &'l mut [u8; LINE_LENGTH]) -> io::Result<Option<&'l [u8]>> {
        let mut length = 0;
        for _ in 0..u64::MAX {
            let Some(byte) = self.next_byte()? else {
                if length == 0 {
                    return Ok(None);
                }
                break;
            };
            if byte == b'\n' {
                break;
            }
            if let Some(place) = line.get_mut(length) {
                *place = byte;
                length += 1;
            }
        }
        Ok(Some(&line[..length]))
    }
}

// ---- an entry

#[derive(Clone, Copy)]
struct Answer(Result<Entered, Refusal>);

impl Answer {
    // What the entry adds to the rides sold.
    fn sold(self, value: &[u8; 16]) -> u8 {
        match entries::entry_in(value) {
            Some(Entry::Sale { rides, .. }) if self.0 == Ok(Entered::Sold) => rides,
            _ => 0,
        }
    }

    fn boarded(self) -> u8 {
        (self.0 == Ok(Entered::Boarded)) as u8
    }
}

impl fmt::Display for Answer {
    fn fmt<W: fmt::Write>(&self, f: &mut fmt::Formatter<W>) -> fmt::Result {
        match self.0 {
            Ok(Entered::Sold) => write!(f, "sold"),
            Ok(Entered::Boarded) => write!(f, "boarded"),
            Ok(Entered::Skipped) => write!(f, "skipped"),
            Err(refusal) => write!(f, "r{}", basics::refusal_number(refusal)),
        }
    }
}

// ---- what is printed

// The passes in order of sale. The answer is how many rides are left on all of them.
fn print_passes(rt: &impl Print, table: &Table<'_>) -> io::Result<u64> {
    let mut left: u64 = 0;
    for place in 0..*table.count {
        let pass = table.pass_at(place as usize);
        println!(rt;
            "pass {} left {} day {} scan {}",
            pass.number, pass.rides_left, pass.last_day, pass.last_scan
        )?;
        left += u64::from(pass.rides_left);
    }
    Ok(left)
}

// ---- the day

fn main(rt: HostRuntime) -> io::Result<()> {
    let mut input = Input::new(rt.reader());
    let mut line = [0; LINE_LENGTH];
    let mut table = Table {
        passes: &mut [0; 256],
        rides_left: &mut [0; 256],
        last_days: &mut [0; 256],
        last_scans: &mut [0; 256],
        count: &mut 0,
    };
    let mut sold: u64 = 0;
    let mut boarded: u64 = 0;
    for _ in 0..MOST_LINES {
        let Some(line) = input.next_line(&mut line)? else {
            break;
        };
        let Some(value) = bench_lines::value_in(line) else {
            rt.write_all(b"? bad\n")?;
            continue;
        };
        let answer = Answer(ledger::enter(&value, &mut table));
        rt.write_all(line)?;
        println!(rt; " {answer}")?;
        sold += u64::from(answer.sold(&value));
        boarded += u64::from(answer.boarded());
    }
    let left = print_passes(&rt, &table)?;
    println!(rt; "sold {sold} boarded {boarded} left {left}")
}
