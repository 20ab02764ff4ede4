// The packet layer: 36 bytes are read into a message or a refusal, and a message is written to 36 bytes.
#![tactic(auto)]

ghost use Rattle.std.specs.Prelude.{◌≡◌, [], ◌∷◌, length};
ghost use Rattle.std.proofs.lemmas.List.Edits.{sets};
ghost use Rattle.basics.specs.Outcome.{outcome};
ghost use Rattle.basics.specs.Answer.{answer_number};
ghost use Rattle.wire.specs.Packet.{packet_length, marked, fields_in, reading_of, read_packet, packet_with, with_message, write_fields, write_packet};

use basics::{Answer, Instance, Refusal, Round, Value, Verdict};
use messages::{Fields, Message};

pub const PACKET_LENGTH: usize = 36;

// "RDE" as one number.
const MARK: u32 = 5391429;

const VERSION: u16 = 1;

fn fields_in(packet: &[u8]) -> Fields
    requires { length packet.now ≡ packet_length }
    ensures { result ≡ fields_in packet.now }
{
    Fields {
        kind: packet[3],
        switch: numbers::read::<u16>(packet, 6),
        instance: Instance(numbers::read::<u32>(packet, 8)),
        round: Round(numbers::read::<u32>(packet, 12)),
        vote_round: Round(numbers::read::<u32>(packet, 16)),
        value: Value {
            high: numbers::read::<u64>(packet, 20),
            low: numbers::read::<u64>(packet, 28),
        },
    }
}

fn is_marked(packet: &[u8]) -> bool
    requires { length packet.now ≡ packet_length }
    ensures { result ≡ marked packet.now }
{
    numbers::read::<u32>(packet, 0) / 256 == MARK
}

#[inline(always)]
pub fn read_packet(packet: &[u8]) -> Result<Message, Refusal>
    ensures { reading_of result ≡ read_packet packet.now }
{
    if packet.len() != PACKET_LENGTH {
        return Err(Refusal::WrongLength);
    }
    if !is_marked(packet) {
        return Err(Refusal::WrongMark);
    }
    if numbers::read::<u16>(packet, 4) != VERSION {
        return Err(Refusal::WrongVersion);
    }
    if packet[3] > 4 {
        return Err(Refusal::UnknownType);
    }
    let f = fields_in(packet);
    if !messages::keeps_table(f) {
        return Err(Refusal::BrokenField);
    }
    Ok(messages::message_of(f))
}

// Bytes 0 to 3: mark and type.
fn put_mark(packet: &mut [u8], kind: u8)
    requires { length packet.old ≡ packet_length }
    ensures { packet.new ≡ sets packet.old 0 (82 ∷ 68 ∷ 69 ∷ kind ∷ []) }
{
    numbers::write(packet, 0, MARK * 256 + (kind as u32));
}

#[inline(always)]
fn put_fields(packet: &mut [u8], f: Fields)
    requires { length packet.old ≡ packet_length }
    ensures { packet.new ≡ packet_with f }
{
    put_mark(packet, f.kind);
    numbers::write(packet, 4, VERSION);
    numbers::write(packet, 6, f.switch);
    numbers::write(packet, 8, f.instance.0);
    numbers::write(packet, 12, f.round.0);
    numbers::write(packet, 16, f.vote_round.0);
    numbers::write(packet, 20, f.value.high);
    numbers::write(packet, 28, f.value.low);
}

// For a player, whose message keeps the table by its rule: it is not judged again.
#[inline(always)]
pub fn put_message(packet: &mut [u8], message: Message)
    ensures { packet.new ≡ with_message packet.old message }
{
    if packet.len() == PACKET_LENGTH {
        put_fields(packet, messages::fields_of(message));
    }
}

// For fields of any content, which are judged as they are given: refused by 1 and 5, and a refusal writes nothing.
pub fn write_fields(packet: &mut [u8], f: Fields) -> Answer
    ensures { outcome (answer_number result) packet.new ≡ write_fields f packet.old }
{
    if packet.len() != PACKET_LENGTH {
        Err(Refusal::WrongLength)
    } else if !messages::keeps_table(f) {
        Err(Refusal::BrokenField)
    } else {
        put_fields(packet, f);
        Ok(Verdict::Done)
    }
}

// For a message of any content.
pub fn write_packet(packet: &mut [u8], message: Message) -> Answer
    ensures { outcome (answer_number result) packet.new ≡ write_packet message packet.old }
{
    write_fields(packet, messages::fields_of(message))
}
