// The primary leader: takes requests at its one cell, the record that its caller keeps and lends for each packet, as a slice of one number or by reference.
#![tactic(auto)]

ghost use Rattle.std.specs.Prelude.{◌≡◌};
ghost use Rattle.basics.specs.Answer.{answer_number};
ghost use Rattle.basics.specs.Outcome.{outcome, lent};
ghost use Rattle.quorum.specs.Settings.{settings};
ghost use Rattle.primary.specs.Primary.{is_allowed, primary_fresh, primary_step, primary_request, stepped};

use basics::{Answer, Instance, Refusal, Verdict};
use messages::Message;
use primary_rule::Cell;
use quorum::Settings;

// Refusal 7 by itself, of the record as a slice: M and N are allowed, and the slice has one number.
pub fn is_allowed(settings: Settings, next: usize) -> bool
    ensures { result ≡ is_allowed settings next }
{
    quorum::settings_allowed(settings) & (next == 1)
}

// The record as a run begins with it, whatever it held: the next instance is 0. It is left as `primary_fresh` says.
#[unsafe(no_mangle)]
pub extern "C" fn myrthakel_primary_fresh(acceptors: u32, instances: u32, next: &mut [u32]) -> u32
    ensures { outcome result next.new ≡ primary_fresh (settings acceptors instances) next.old }
{
    let settings = Settings {
        acceptors,
        instances,
    };
    if !is_allowed(settings, next.len()) {
        return Refusal::NotAllowed as u32;
    }
    let fresh = primary_rule::fresh_cell();
    next[0] = fresh.next.0;
    Verdict::Done as u32
}

// One packet, over the cell by value: the next cell, where a propose goes out to the acceptors.
// It judges M and N itself, so that the call by reference need not.
#[inline(always)]
pub fn step(settings: Settings, cell: Cell, packet: &mut [u8]) -> Result<Cell, Refusal>
    ensures { stepped cell packet.new result ≡ primary_request settings packet.old cell }
{
    if !quorum::settings_allowed(settings) {
        return Err(Refusal::NotAllowed);
    }
    let message = wire::read_packet(packet)?;
    let Message::Request { switch: _, value } = message else {
        return Err(Refusal::WrongKind);
    };
    let sent = primary_rule::take_request(settings.instances, cell, value)?;
    wire::put_message(packet, sent.message);
    Ok(sent.cell)
}

// The same, the record lent as a slice of one number.
pub fn step_slice(settings: Settings, packet: &mut [u8], next: &mut [u32]) -> Answer
    ensures { outcome (answer_number result) (lent packet.new next.new) ≡ primary_step settings packet.old next.old }
{
    if !is_allowed(settings, next.len()) {
        return Err(Refusal::NotAllowed);
    }
    let number = next[0];
    let cell = Cell {
        next: Instance(number),
    };
    let taken = step(settings, cell, packet)?;
    next[0] = taken.next.0;
    Ok(Verdict::ToAcceptors)
}

// The same for C, which is answered a number.
#[unsafe(no_mangle)]
pub extern "C" fn myrthakel_primary_step(
    acceptors: u32,
    instances: u32,
    packet: &mut [u8],
    next: &mut [u32],
) -> u32
    ensures { let left = lent packet.new next.new in
        outcome result left ≡ primary_step (settings acceptors instances) packet.old next.old }
{
    let settings = Settings {
        acceptors,
        instances,
    };
    basics::answer_number(step_slice(settings, packet, next))
}

// One packet, the record lent by reference: one thin call over the step by value.
#[unsafe(no_mangle)]
pub extern "C" fn myrthakel_primary_request(
    acceptors: u32,
    instances: u32,
    packet: &mut [u8],
    cell: &mut Cell,
) -> u32
    ensures { let left = lent packet.new cell.new in
        outcome result left ≡ primary_request (settings acceptors instances) packet.old cell.old }
{
    let settings = Settings {
        acceptors,
        instances,
    };
    match step(settings, *cell, packet) {
        Ok(next) => {
            *cell = next;
            basics::verdict_number(Verdict::ToAcceptors)
        }
        Err(refusal) => basics::refusal_number(refusal),
    }
}
