// What a line of the bench means: a packet for a player, or the start of a backup. A line is words with a space behind each but the last.
#![tactic(auto)]

ghost use Rattle.std.specs.Prelude.{◌≡◌, ◌≤◌, ◌==◌, position};
ghost use Rattle.bench_lines.specs.Line.{space, first_word, rest_of, digit_in, hex_in, decimal_in};
ghost use Rattle.bench_lines.specs.Line.{number_within, value_from, player_of, start_of, command_of, meaning, meaning_of, listed_in};

use basics::Value;

/// Who a packet is for.
#[derive(Clone, Copy)]
pub enum Player {
    Primary,
    Acceptor(u32),
    Backup(u32),
    Learner,
}

/// What a line asks for.
#[derive(Clone, Copy)]
pub enum Command {
    Packet {
        player: Player,
        packet: [u8; 36],
    },
    Start {
        own: u32,
        instance: u32,
        floor: u32,
        value: Value,
    },
}

// ---- words

// Where the first word ends, if a space ends it.
fn first_space(line: &[u8]) -> Option<usize>
    ensures { result ≡ position (λ byte. byte == space) line.now }
{
    line.iter().position(|byte| *byte == b' ')
}

// The first word, and what stands behind its space: nothing where there is none.
fn split_word(line: &[u8]) -> (&[u8], &[u8])
    ensures word { result.0.now ≡ first_word line.now }
    ensures rest { result.1.now ≡ rest_of line.now }
{
    match first_space(line) {
        Some(end) => (&line[..end], &line[end + 1..]),
        None => (line, &line[line.len()..]),
    }
}

// ---- digits

// A hex digit's number, of either case.
fn digit(byte: u8) -> Option<u8>
    ensures { result ≡ digit_in byte }
{
    match byte {
        b'0'..=b'9' => Some(byte - b'0'),
        b'A'..=b'F' => Some(byte - b'A' + 10),
        b'a'..=b'f' => Some(byte - b'a' + 10),
        _ => None,
    }
}

// Two hex digits to a byte.
fn hex_in<const N: usize>(text: &[u8]) -> Option<[u8; N]>
    requires { N ≤ 36 }
    ensures { result ≡ hex_in N text.now }
{
    if text.len() != 2 * N {
        return None;
    }
    let mut bytes = [0; N];
    for index in 0..N {
        bytes[index] = digit(text[2 * index])? * 16 + digit(text[2 * index + 1])?;
    }
    Some(bytes)
}

// One to ten digits, and at most 4,294,967,295.
fn decimal_in(text: &[u8]) -> Option<u32>
    ensures { result ≡ decimal_in text.now }
{
    let 1..=10 = text.len() else {
        return None;
    };
    let mut number: u64 = 0;
    for byte in text {
        let digit = digit(*byte)?;
        if 10 <= digit {
            return None;
        }
        number = number * 10 + u64::from(digit);
    }
    u32::try_from(number).ok()
}

// ---- names

// The digit's number, if it is one of these.
fn number_within(first: u32, last: u32, byte: u8) -> Option<u32>
    requires { last ≤ 9 }
    ensures { result ≡ number_within first last byte }
{
    let number = u32::from(digit(byte)?);
    ((first <= number) & (number <= last)).then_some(number)
}

fn player_of(name: &[u8]) -> Option<Player>
    ensures { result ≡ player_of name.now }
{
    match name {
        [b'p'] => Some(Player::Primary),
        [b'a', number] => Some(Player::Acceptor(number_within(0, 2, *number)?)),
        [b'b', number] => Some(Player::Backup(number_within(1, 3, *number)?)),
        [b'l'] => Some(Player::Learner),
        _ => None,
    }
}

// ---- lines

fn value_from(bytes: [u8; 16]) -> Value
    ensures { result ≡ value_from bytes }
{
    Value {
        high: numbers::read(&bytes, 0),
        low: numbers::read(&bytes, 8),
    }
}

// `s1 INST FLOOR VALUE`
fn start_of(name: &[u8], rest: &[u8]) -> Option<Command>
    ensures { result ≡ start_of name.now rest.now }
{
    let [b's', number] = name else {
        return None;
    };
    let (instance, behind) = split_word(rest);
    let (floor, value) = split_word(behind);
    Some(Command::Start {
        own: number_within(1, 3, *number)?,
        instance: decimal_in(instance)?,
        floor: decimal_in(floor)?,
        value: value_from(hex_in(value)?),
    })
}

/// A player, a space, 72 hex digits; or a start. A line of another form is no command.
pub fn command_of(line: &[u8]) -> Option<Command>
    ensures { result ≡ command_of line.now }
{
    let (name, rest) = split_word(line);
    match player_of(name) {
        Some(player) => Some(Command::Packet {
            player,
            packet: hex_in(rest)?,
        }),
        None => start_of(name, rest),
    }
}

/// The same where a buffer is lent for the packet, which is put there. A start, or a line of another form, leaves the buffer as it was.
#[tactic(auto, unfolding(crate::specs::Line::meaning_of, crate::specs::Line::buffer_after))]
pub fn take_line(line: &[u8], buffer: &mut [u8; 36]) -> Option<Command>
    ensures { meaning result buffer.new ≡ meaning_of line.now buffer.old }
{
    let command = command_of(line);
    match command {
        Some(Command::Packet { player: _, packet }) => *buffer = packet,
        Some(Command::Start { .. }) | None => {}
    }
    command
}

/// A line of a delivered list that is written out: 32 hex digits are a value, of 16 bytes.
pub fn value_in(line: &[u8]) -> Option<[u8; 16]>
    ensures { result ≡ listed_in line.now }
{
    hex_in(line)
}
