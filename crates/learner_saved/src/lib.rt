// The saved learner table, version 1: a learner's lent tables are written to a buffer, and are replaced by the cells of a saved table.
#![tactic(auto)]

ghost use Rattle.std.specs.Prelude.{◌≡◌};
ghost use Rattle.basics.specs.Answer.{answer_number};
ghost use Rattle.basics.specs.Outcome.{outcome, lent};
ghost use Rattle.quorum.specs.Settings.{settings};
ghost use Rattle.learner_tables.specs.Tables.{tables};
ghost use Rattle.learner_tables.specs.Lent.{tables_shared, tables_behind, SameReferences};
ghost use Rattle.learner_saved.specs.Saved.{save, read_saved};

use basics::{Answer, Refusal, Verdict};
use learner_tables::{SharedTables, Tables};
use quorum::Settings;

const VERSION: u16 = 1;

// ---- saving

fn save(settings: Settings, tables: &SharedTables<'_>, buffer: &mut [u8]) -> Answer
    ensures { let before = tables_shared tables.now in
        outcome (answer_number result) (lent buffer.new before) ≡ save settings buffer.old before }
{
    if !tables.are_allowed(settings) {
        return Err(Refusal::NotAllowed);
    }
    if buffer.len() != learner_file::saved_length(settings.instances) {
        return Err(Refusal::WrongLength);
    }
    if !tables.all_possible(settings.acceptors, settings.instances) {
        return Err(Refusal::ImpossibleCell);
    }
    learner_file::put_header(
        buffer,
        VERSION,
        settings.acceptors as u8,
        settings.instances as u16,
    );
    learner_file::put_cells(buffer, settings.instances, tables);
    Ok(Verdict::Done)
}

// The same for C, which lends each column by itself and is answered a number.
#[unsafe(no_mangle)]
pub extern "C" fn myrthakel_learner_save(
    acceptors: u32,
    instances: u32,
    rounds: &[u32],
    sets: &[u8],
    values: &[u64],
    buffer: &mut [u8],
) -> u32
    ensures { let before = tables rounds.now sets.now values.now in
        outcome result (lent buffer.new before) ≡ save (settings acceptors instances) buffer.old before }
{
    let settings = Settings {
        acceptors,
        instances,
    };
    let tables = SharedTables {
        rounds,
        sets,
        values,
    };
    basics::answer_number(save(settings, &tables, buffer))
}

// ---- reading

// Every saved cell is judged before the first is stored.
fn read_saved(settings: Settings, saved: &[u8], tables: &mut Tables<'_>) -> Answer
    ensures replaced { let left = lent saved.now (tables_behind tables.new) in
        outcome (answer_number result) left ≡ read_saved settings saved.now (tables_behind tables.old) }
    ensures same_references { SameReferences tables.old tables.new }
{
    if !tables.are_allowed(settings) {
        return Err(Refusal::NotAllowed);
    }
    if saved.len() < learner_file::HEADER_LENGTH {
        return Err(Refusal::WrongLength);
    }
    if !learner_file::is_marked(saved) {
        return Err(Refusal::WrongMark);
    }
    if learner_file::version_in(saved) != VERSION {
        return Err(Refusal::WrongVersion);
    }
    if !learner_file::same_settings(settings, saved) {
        return Err(Refusal::NotAllowed);
    }
    if saved.len() != learner_file::saved_length(settings.instances) {
        return Err(Refusal::WrongLength);
    }
    if !learner_file::saved_possible(settings.acceptors, settings.instances, saved) {
        return Err(Refusal::ImpossibleCell);
    }
    learner_file::store_saved(tables, settings.instances, saved);
    Ok(Verdict::Done)
}

// The same for C.
#[unsafe(no_mangle)]
pub extern "C" fn myrthakel_learner_read_saved(
    acceptors: u32,
    instances: u32,
    saved: &[u8],
    rounds: &mut [u32],
    sets: &mut [u8],
    values: &mut [u64],
) -> u32
    ensures { let before = tables rounds.old sets.old values.old in
        let after = tables rounds.new sets.new values.new in
        outcome result (lent saved.now after) ≡ read_saved (settings acceptors instances) saved.now before }
{
    let settings = Settings {
        acceptors,
        instances,
    };
    let mut tables = Tables {
        rounds,
        sets,
        values,
    };
    basics::answer_number(read_saved(settings, saved, &mut tables))
}
