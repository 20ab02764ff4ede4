// A learner: counts votes at the cells of its lent tables, and answers what is decided for an instance.
#![tactic(auto)]

ghost use Rattle.std.specs.Prelude.{◌≡◌};
ghost use Rattle.basics.specs.Answer.{answer_number};
ghost use Rattle.basics.specs.Rounds.{the_instance};
ghost use Rattle.basics.specs.Values.{the_value};
ghost use Rattle.basics.specs.Outcome.{outcome, lent};
ghost use Rattle.quorum.specs.Settings.{settings};
ghost use Rattle.learner_tables.specs.Tables.{tables};
ghost use Rattle.learner_tables.specs.Lent.{tables_shared, tables_behind, SameReferences};
ghost use Rattle.learner.specs.Learner.{learner_step, answer_of, answer_of_cell, answer_for, answered};

use basics::{Answer, Instance, Refusal, Value, Verdict};
use learner_cell::Cell;
use learner_tables::{SharedTables, Tables};
use messages::Message;
use quorum::Settings;

// ---- a packet

// One packet: a vote is held, or decides its instance. The packet stays as it is, and so is not lent to be written.
pub fn step(settings: Settings, packet: &[u8], tables: &mut Tables<'_>) -> Answer
    ensures stepped { let left = lent packet.now (tables_behind tables.new) in
        outcome (answer_number result) left ≡ learner_step settings packet.now (tables_behind tables.old) }
    ensures same_references { SameReferences tables.old tables.new }
{
    if !tables.are_allowed(settings) {
        return Err(Refusal::NotAllowed);
    }
    let message = wire::read_packet(packet)?;
    let Message::Vote {
        sender,
        instance,
        round,
        value,
    } = message
    else {
        return Err(Refusal::WrongKind);
    };
    let index = basics::place_of(settings.instances, instance)?;
    let cell = tables.cell_at(index);
    let counted = learner_rule::count_vote(settings.acceptors, cell, sender, round, value)?;
    tables.store_cell(index, counted.cell);
    Ok(counted.verdict)
}

// The same for C, which lends each column by itself and is answered a number.
#[unsafe(no_mangle)]
pub extern "C" fn myrthakel_learner_step(
    acceptors: u32,
    instances: u32,
    packet: &[u8],
    rounds: &mut [u32],
    sets: &mut [u8],
    values: &mut [u64],
) -> u32
    ensures { let before = tables rounds.old sets.old values.old in
        let after = tables rounds.new sets.new values.new in
        outcome result (lent packet.now after) ≡ learner_step (settings acceptors instances) packet.now before }
{
    let settings = Settings {
        acceptors,
        instances,
    };
    let mut tables = Tables {
        rounds,
        sets,
        values,
    };
    basics::answer_number(step(settings, packet, &mut tables))
}

// ---- the answer for an instance

// The value decided at a cell, or none yet.
fn answer_of_cell(acceptors: u32, cell: Cell) -> Result<Option<Value>, Refusal>
    ensures { answer_of result ≡ answer_of_cell acceptors cell }
{
    if !learner_cell::is_possible(acceptors, cell) {
        return Err(Refusal::ImpossibleCell);
    }
    if learner_cell::is_decided(acceptors, cell) {
        return Ok(Some(learner_cell::value_of(acceptors, cell)));
    }
    Ok(None)
}

pub fn answer_for(
    settings: Settings,
    instance: Instance,
    tables: &SharedTables<'_>,
) -> Result<Option<Value>, Refusal>
    ensures { answer_of result ≡ answer_for settings «instance» (tables_shared tables.now) }
{
    if !tables.are_allowed(settings) {
        return Err(Refusal::NotAllowed);
    }
    let index = basics::place_of(settings.instances, instance)?;
    answer_of_cell(settings.acceptors, tables.cell_at(index))
}

// The same for C: the value goes out by the two numbers lent, which stay as they were unless it is decided: a decided null is no "not yet".
#[unsafe(no_mangle)]
pub extern "C" fn myrthakel_learner_answer(
    acceptors: u32,
    instances: u32,
    instance: u32,
    rounds: &[u32],
    sets: &[u8],
    values: &[u64],
    value_high: &mut u64,
    value_low: &mut u64,
) -> u32
    ensures { let before = tables rounds.now sets.now values.now in
        let value = the_value value_high.old value_low.old in
        outcome result (the_value value_high.new value_low.new)
        ≡ answered value (answer_for (settings acceptors instances) (the_instance «instance») before) }
{
    let settings = Settings {
        acceptors,
        instances,
    };
    let tables = SharedTables {
        rounds,
        sets,
        values,
    };
    match answer_for(settings, Instance(instance), &tables) {
        Ok(Some(value)) => {
            *value_high = value.high;
            *value_low = value.low;
            basics::verdict_number(Verdict::Done)
        }
        Ok(None) => basics::verdict_number(Verdict::NotYet),
        Err(refusal) => basics::refusal_number(refusal),
    }
}
