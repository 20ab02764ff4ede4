// What a learner hands on: the values of instances 0, 1, .. before the first undecided one. Every cell is looked at.
#![tactic(auto)]

ghost use Rattle.std.specs.Prelude.{ℕ, ◌≡◌, ◌*◌, length};
ghost use Rattle.basics.specs.Outcome.{outcome, lent};
ghost use Rattle.quorum.specs.Settings.{settings};
ghost use Rattle.learner_tables.specs.Tables.{tables, cells};
ghost use Rattle.learner_tables.specs.Lent.{tables_shared};
ghost use Rattle.learner_delivery.specs.Delivery.{delivered, written_to, deliver, delivery_of};

use basics::{Refusal, Verdict};
use learner_tables::SharedTables;
use quorum::Settings;

// The values of decided instances, each to its place, up to the first undecided one. How many there were is answered.
fn write_delivered(settings: Settings, tables: &SharedTables<'_>, buffer: &mut [u8]) -> u32
    requires { length buffer.old ≡ 16 * settings.instances }
    ensures { let before = tables_shared tables.now in
        lent buffer.new result ≡ written_to buffer.old (delivered settings.acceptors (cells settings before)) }
{
    for count in 0..settings.instances {
        let cell = tables.cell_at(count as usize);
        if !learner_cell::is_decided(settings.acceptors, cell) {
            return count;
        }
        let value = learner_cell::value_of(settings.acceptors, cell);
        let place = 16 * (count as usize);
        numbers::write(buffer, place, value.high);
        numbers::write(buffer, place + 8, value.low);
    }
    settings.instances
}

// The list is written to the buffer, and the count of its values is answered.
fn deliver(settings: Settings, tables: &SharedTables<'_>, buffer: &mut [u8]) -> Result<u32, Refusal>
    ensures { let before = tables_shared tables.now in
        (count : ℕ) → delivery_of buffer.new count result ≡ deliver settings before buffer.old count }
{
    if !tables.are_allowed(settings) {
        return Err(Refusal::NotAllowed);
    }
    if buffer.len() != 16 * (settings.instances as usize) {
        return Err(Refusal::WrongLength);
    }
    if !tables.all_possible(settings.acceptors, settings.instances) {
        return Err(Refusal::ImpossibleCell);
    }
    Ok(write_delivered(settings, tables, buffer))
}

// The same for C: the count goes out by the number lent, which stays as it was unless the list was delivered.
#[unsafe(no_mangle)]
pub extern "C" fn myrthakel_learner_deliver(
    acceptors: u32,
    instances: u32,
    rounds: &[u32],
    sets: &[u8],
    values: &[u64],
    buffer: &mut [u8],
    count: &mut u32,
) -> u32
    ensures { let before = tables rounds.now sets.now values.now in
        outcome result (lent buffer.new count.new)
        ≡ deliver (settings acceptors instances) before buffer.old count.old }
{
    let settings = Settings {
        acceptors,
        instances,
    };
    let tables = SharedTables {
        rounds,
        sets,
        values,
    };
    match deliver(settings, &tables, buffer) {
        Ok(delivered) => {
            *count = delivered;
            basics::verdict_number(Verdict::Done)
        }
        Err(refusal) => basics::refusal_number(refusal),
    }
}
