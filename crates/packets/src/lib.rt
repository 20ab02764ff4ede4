// Packets for hosts: the fields, each a number of its own, are written to 36 bytes, and 36 bytes are read into the fields.
#![tactic(auto)]

ghost use Rattle.std.specs.Prelude.{◌≡◌};
ghost use Rattle.basics.specs.Outcome.{outcome};
ghost use Rattle.packets.specs.Packets.{numbered, packet_write, packet_read};

use basics::{Instance, Refusal, Round, Value, Verdict};
use messages::Fields;

const LAST_KIND: u32 = 4;

const LAST_SWITCH: u32 = 65535;

// Type and switch number are judged as wide as they come, before they are narrowed: C would have cut them off.
#[unsafe(no_mangle)]
pub extern "C" fn myrthakel_packet_write(
    kind: u32,
    switch_number: u32,
    instance: u32,
    round: u32,
    vote_round: u32,
    value_high: u64,
    value_low: u64,
    packet: &mut [u8],
) -> u32
    ensures { let given = numbered kind switch_number «instance» round vote_round value_high value_low in
        outcome result packet.new ≡ packet_write given packet.old }
{
    if packet.len() != wire::PACKET_LENGTH {
        return Refusal::WrongLength as u32;
    }
    if kind > LAST_KIND {
        return Refusal::UnknownType as u32;
    }
    if switch_number > LAST_SWITCH {
        return Refusal::BrokenField as u32;
    }
    let f = Fields {
        kind: kind as u8,
        switch: switch_number as u16,
        instance: Instance(instance),
        round: Round(round),
        vote_round: Round(vote_round),
        value: Value {
            high: value_high,
            low: value_low,
        },
    };
    basics::answer_number(wire::write_fields(packet, f))
}

// The fields go out by the numbers lent, which stay as they were unless the packet was read.
#[unsafe(no_mangle)]
pub extern "C" fn myrthakel_packet_read(
    packet: &[u8],
    kind: &mut u32,
    switch_number: &mut u32,
    instance: &mut u32,
    round: &mut u32,
    vote_round: &mut u32,
    value_high: &mut u64,
    value_low: &mut u64,
) -> u32
    ensures { let before = numbered kind.old switch_number.old «instance».old round.old vote_round.old
        value_high.old value_low.old in
        let after = numbered kind.new switch_number.new «instance».new round.new vote_round.new
        value_high.new value_low.new in
        outcome result after ≡ packet_read packet.now before }
{
    match wire::read_packet(packet) {
        Ok(message) => {
            let f = messages::fields_of(message);
            *kind = f.kind as u32;
            *switch_number = f.switch as u32;
            *instance = f.instance.0;
            *round = f.round.0;
            *vote_round = f.vote_round.0;
            *value_high = f.value.high;
            *value_low = f.value.low;
            Verdict::Done as u32
        }
        Err(refusal) => basics::refusal_number(refusal),
    }
}
