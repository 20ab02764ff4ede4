// The first hole of a learner's tables: the smallest undecided instance below the highest decided one or with a vote in its set. Every cell is looked at.
#![tactic(auto)]

ghost use Rattle.std.specs.Prelude.{◌≡◌, Ok};
ghost use Rattle.basics.specs.Outcome.{outcome};
ghost use Rattle.quorum.specs.Settings.{settings};
ghost use Rattle.learner_tables.specs.Tables.{tables, cells};
ghost use Rattle.learner_tables.specs.Lent.{tables_shared};
ghost use Rattle.learner_holes.specs.Holes.{decided_end, is_hole, first_hole, find_hole, hole_of, answered};

use basics::{Instance, Refusal, Verdict};
use learner_cell::Cell;
use learner_tables::SharedTables;
use quorum::Settings;

// One past the highest decided instance, or 0 where none is decided.
fn decided_end(settings: Settings, tables: &SharedTables<'_>) -> u32
    ensures { result ≡ decided_end settings.acceptors (cells settings (tables_shared tables.now)) }
{
    let mut end = 0;
    for number in 0..settings.instances {
        let cell = tables.cell_at(number as usize);
        if learner_cell::is_decided(settings.acceptors, cell) {
            end = number + 1;
        }
    }
    end
}

fn is_hole(acceptors: u32, end: u32, number: u32, cell: Cell) -> bool
    ensures { result ≡ is_hole acceptors end number cell }
{
    !learner_cell::is_decided(acceptors, cell) & ((number < end) | learner_cell::has_vote(cell))
}

// The walk over the instances yields the first hole by break.
fn first_hole(settings: Settings, tables: &SharedTables<'_>) -> Option<Instance>
    ensures { hole_of (Ok result) ≡ first_hole settings.acceptors (cells settings (tables_shared tables.now)) }
{
    let instances = settings.instances;
    let end = decided_end(settings, tables);
    let mut number = 0;
    loop {
        if instances <= number {
            break None;
        }
        let cell = tables.cell_at(number as usize);
        if is_hole(settings.acceptors, end, number, cell) {
            break Some(Instance(number));
        }
        number += 1;
    }
}

pub fn find_hole(settings: Settings, tables: &SharedTables<'_>) -> Result<Option<Instance>, Refusal>
    ensures { hole_of result ≡ find_hole settings (tables_shared tables.now) }
{
    if !tables.are_allowed(settings) {
        return Err(Refusal::NotAllowed);
    }
    if !tables.all_possible(settings.acceptors, settings.instances) {
        return Err(Refusal::ImpossibleCell);
    }
    Ok(first_hole(settings, tables))
}

// The same for C: the hole goes out by the number lent, which stays as it was unless there is one.
#[unsafe(no_mangle)]
pub extern "C" fn myrthakel_learner_first_hole(
    acceptors: u32,
    instances: u32,
    rounds: &[u32],
    sets: &[u8],
    values: &[u64],
    instance: &mut u32,
) -> u32
    ensures { let before = tables rounds.now sets.now values.now in
        outcome result «instance».new ≡ answered «instance».old (find_hole (settings acceptors instances) before) }
{
    let settings = Settings {
        acceptors,
        instances,
    };
    let tables = SharedTables {
        rounds,
        sets,
        values,
    };
    match find_hole(settings, &tables) {
        Ok(Some(found)) => {
            *instance = found.0;
            basics::verdict_number(Verdict::Done)
        }
        Ok(None) => basics::verdict_number(Verdict::NoHole),
        Err(refusal) => basics::refusal_number(refusal),
    }
}
