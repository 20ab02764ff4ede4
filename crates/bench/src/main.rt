// The bench: one depot with M = 3 and N = 1,024, all players fresh, driven by lines of standard input.
#![tactic(auto)]

ghost use Rattle.std.specs.Prelude.{◌≡◌};
ghost use Rattle.bench.specs.Bench.{fresh_vote_rounds, tables_of_acceptor, fresh_acceptor, tables_of_backup, fresh_backup};
ghost use Rattle.bench.specs.Bench.{tables_of_learner, fresh_learner};

use basics::{Instance, Refusal, Value, Verdict};
use bench_lines::{Command, Player};
use primary_rule::Cell;
use quorum::Settings;
use std::io::Read;
use std::{fmt, io};

const SETTINGS: Settings = Settings {
    acceptors: 3,
    instances: 1024,
};

// No more than these bytes of a line are kept, and no line of more than 75 is a command.
const LINE_LENGTH: usize = 128;

// ---- lines of the input

// What was read of the input: from `from` until `until` it is still to be taken. It stands in an array, and so does a line: the bench needs no heap.
#[derive(Drop)]
struct Input<R: Read> {
    reader: R,
    chunk: [u8; 4096],
    from: usize,
    until: usize,
}

impl<R: Read> Input<R> {
    fn new(reader: R) -> Self {
        Input {
            reader,
            chunk: [0; 4096],
            from: 0,
            until: 0,
        }
    }

    // One byte, by a read where the chunk is used up; none at the end of the input.
    fn next_byte(&mut self) -> io::Result<Option<u8>> {
        if self.until <= self.from {
            self.until = self.reader.read(&mut self.chunk)?;
            self.from = 0;
        }
        if self.until <= self.from {
            return Ok(None);
        }
        let byte = self.chunk.get(self.from).copied();
        self.from += 1;
        Ok(byte)
    }

    // A line ends at its newline, which is left out, or at the end of the input if anything stands before that.
    fn next_line<'l>(&mut self, line: &'l mut [u8; LINE_LENGTH]) -> io::Result<Option<&'l [u8]>> {
        let mut length = 0;
        for _ in 0..u64::MAX {
            let Some(byte) = self.next_byte()? else {
                if length == 0 {
                    return Ok(None);
                }
                break;
            };
            if byte == b'\n' {
                break;
            }
            if let Some(place) = line.get_mut(length) {
                *place = byte;
                length += 1;
            }
        }
        Ok(Some(&line[..length]))
    }
}

// ---- the players, each with its tables

#[derive(Clone, Copy)]
struct Acceptor {
    rounds: [u32; 1024],
    vote_rounds: [u32; 1024],
    values: [u64; 2048],
}

// "each of 1,024 cells starts with the never-voted mark"
fn fresh_vote_rounds() -> [u32; 1024]
    ensures { result ≡ fresh_vote_rounds }
{
    [basics::NONE; 1024]
}

impl Acceptor {
    #[inline(always)]
    fn fresh() -> Self
        ensures { tables_of_acceptor result.rounds result.vote_rounds result.values ≡ fresh_acceptor }
    {
        Acceptor {
            rounds: [0; 1024],
            vote_rounds: fresh_vote_rounds(),
            values: [0; 2048],
        }
    }

    fn step(&mut self, own: u32, packet: &mut [u8; 36]) -> basics::Answer {
        let mut tables = acceptor_tables::Tables {
            rounds: &mut self.rounds,
            vote_rounds: &mut self.vote_rounds,
            values: &mut self.values,
        };
        acceptor::step(SETTINGS, own, packet, &mut tables)
    }
}

#[derive(Clone, Copy)]
struct Backup {
    rounds: [u32; 1024],
    phases: [u8; 1024],
    sets: [u8; 1024],
    best_vote_rounds: [u32; 1024],
    best_values: [u64; 2048],
    own_values: [u64; 2048],
}

impl Backup {
    #[inline(always)]
    fn fresh() -> Self
        ensures { tables_of_backup result.rounds result.phases result.sets result.best_vote_rounds result.best_values result.own_values ≡ fresh_backup }
    {
        Backup {
            rounds: [0; 1024],
            phases: [backup_cell::IDLE; 1024],
            sets: [0; 1024],
            best_vote_rounds: [basics::NONE; 1024],
            best_values: [0; 2048],
            own_values: [0; 2048],
        }
    }

    fn step(&mut self, own: u32, packet: &mut [u8; 36]) -> basics::Answer {
        let mut tables = backup_tables::Tables {
            rounds: &mut self.rounds,
            phases: &mut self.phases,
            sets: &mut self.sets,
            best_vote_rounds: &mut self.best_vote_rounds,
            best_values: &mut self.best_values,
            own_values: &mut self.own_values,
        };
        backup::step(SETTINGS, own, packet, &mut tables)
    }

    fn start(
        &mut self,
        own: u32,
        instance: Instance,
        floor: u32,
        value: Value,
        packet: &mut [u8; 36],
    ) -> basics::Answer {
        let mut tables = backup_tables::Tables {
            rounds: &mut self.rounds,
            phases: &mut self.phases,
            sets: &mut self.sets,
            best_vote_rounds: &mut self.best_vote_rounds,
            best_values: &mut self.best_values,
            own_values: &mut self.own_values,
        };
        backup::start(SETTINGS, own, instance, floor, value, packet, &mut tables)
    }
}

#[derive(Drop)]
struct Learner {
    rounds: [u32; 1024],
    sets: [u8; 1024],
    values: [u64; 2048],
}

impl Learner {
    #[inline(always)]
    fn fresh() -> Self
        ensures { tables_of_learner result.rounds result.sets result.values ≡ fresh_learner }
    {
        Learner {
            rounds: [basics::NONE; 1024],
            sets: [0; 1024],
            values: [0; 2048],
        }
    }

    fn step(&mut self, packet: &[u8; 36]) -> basics::Answer {
        let mut tables = learner_tables::Tables {
            rounds: &mut self.rounds,
            sets: &mut self.sets,
            values: &mut self.values,
        };
        learner::step(SETTINGS, packet, &mut tables)
    }
}

// Each player stands where `main` made it: one that was handed on by value cost a copy of its tables on the stack.
#[derive(Drop)]
struct Depot<'a> {
    primary: Cell,
    acceptors: &'a mut [Acceptor; 3],
    backups: &'a mut [Backup; 3],
    learner: &'a mut Learner,
}

impl Depot<'_> {
    // A player that the depot has not, which no line names, is not allowed.
    fn give(&mut self, player: Player, packet: &mut [u8; 36]) -> basics::Answer {
        match player {
            Player::Primary => {
                self.primary = primary::step(SETTINGS, self.primary, packet)?;
                Ok(Verdict::ToAcceptors)
            }
            Player::Acceptor(own @ 0..=2) => self.acceptors[own as usize].step(own, packet),
            Player::Backup(own @ 1..=3) => self.backups[own as usize - 1].step(own, packet),
            Player::Learner => self.learner.step(packet),
            _ => Err(Refusal::NotAllowed),
        }
    }

    fn start(
        &mut self,
        own: u32,
        instance: Instance,
        floor: u32,
        value: Value,
        packet: &mut [u8; 36],
    ) -> basics::Answer {
        match own {
            1..=3 => self.backups[own as usize - 1].start(own, instance, floor, value, packet),
            _ => Err(Refusal::NotAllowed),
        }
    }

    // A packet is its player's, and a start tells its prepare in the packet that is lent.
    fn carry_out(&mut self, command: Command, packet: &mut [u8; 36]) -> basics::Answer {
        match command {
            Command::Packet { player, .. } => self.give(player, packet),
            Command::Start {
                own,
                instance,
                floor,
                value,
            } => self.start(own, Instance(instance), floor, value, packet),
        }
    }
}

// ---- what a line prints

// Who the command is for, as its line says it.
#[derive(Clone, Copy)]
struct Name(Command);

impl fmt::Display for Name {
    fn fmt<W: fmt::Write>(&self, f: &mut fmt::Formatter<W>) -> fmt::Result {
        match self.0 {
            Command::Packet { player, .. } => match player {
                Player::Primary => write!(f, "p"),
                Player::Acceptor(own) => write!(f, "a{own}"),
                Player::Backup(own) => write!(f, "b{own}"),
                Player::Learner => write!(f, "l"),
            },
            Command::Start { own, .. } => write!(f, "s{own}"),
        }
    }
}

#[derive(Clone, Copy)]
struct Answer(basics::Answer);

impl fmt::Display for Answer {
    fn fmt<W: fmt::Write>(&self, f: &mut fmt::Formatter<W>) -> fmt::Result {
        match self.0 {
            Ok(Verdict::ToAcceptors) => write!(f, "acceptors"),
            Ok(Verdict::ToLeader) => write!(f, "leader"),
            Ok(Verdict::ToLearners) => write!(f, "learners"),
            Ok(Verdict::Hold) => write!(f, "hold"),
            Ok(Verdict::Decided) => write!(f, "decided"),
            Ok(verdict) => write!(f, "r{}", basics::verdict_number(verdict)),
            Err(refusal) => write!(f, "r{}", basics::refusal_number(refusal)),
        }
    }
}

// 72 hex digits, eight at a time.
#[derive(Clone, Copy)]
struct Digits([u8; 36]);

impl fmt::Display for Digits {
    fn fmt<W: fmt::Write>(&self, f: &mut fmt::Formatter<W>) -> fmt::Result {
        for word in self.0.as_chunks::<4>().0 {
            write!(f, "{:08x}", u32::from_be_bytes(*word))?;
        }
        Ok(())
    }
}

// ---- the run

// One line after the other: what it asks for is done, and told in a line. A proved loop has to end, and nothing says that the input does: the loop counts its
// turns up to a number that no run reaches.
fn main(rt: HostRuntime) -> io::Result<()> {
    let mut input = Input::new(rt.reader());
    let mut line = [0; LINE_LENGTH];
    let mut depot = Depot {
        primary: primary_rule::fresh_cell(),
        acceptors: &mut [Acceptor::fresh(); 3],
        backups: &mut [Backup::fresh(); 3],
        learner: &mut Learner::fresh(),
    };
    println!(rt; "player verdict packet")?;
    for _ in 0..u64::MAX {
        let Some(line) = input.next_line(&mut line)? else {
            break;
        };
        let mut packet = [0; 36];
        match bench_lines::take_line(line, &mut packet) {
            Some(command) => {
                let answer = depot.carry_out(command, &mut packet);
                println!(rt; "{} {} {}", Name(command), Answer(answer), Digits(packet))?;
            }
            None => rt.write_all(b"? bad -\n")?,
        }
    }
    Ok(())
}
