// A learner's lent tables: one cell for each instance, as columns of rounds, of sets and of values.
#![tactic(auto)]

ghost use Rattle.std.specs.Prelude.{◌≡◌};
ghost use Rattle.basics.specs.Outcome.{outcome};
ghost use Rattle.quorum.specs.Settings.{settings};
ghost use Rattle.learner_tables.specs.Tables.{tables, cell_at, with_cell, first_cells, all_possible, is_allowed, learner_allowed, filled_fresh, learner_fresh};
ghost use Rattle.learner_tables.specs.Lent.{tables_shared, tables_behind, SameReferences};

use basics::{Refusal, Round, Verdict};
use learner_cell::Cell;
use quorum::Settings;

// Refusal 7 by itself: M and N are allowed, and each table is sized for N.
pub fn is_allowed(settings: Settings, rounds: usize, sets: usize, values: usize) -> bool
    ensures { result ≡ is_allowed settings rounds sets values }
{
    let count = settings.instances as usize;
    quorum::settings_allowed(settings) & (rounds == count) & (sets == count) & (values == 2 * count)
}

// The columns travel together, lent to be read.
#[derive(Clone, Copy)]
pub struct SharedTables<'a> {
    pub rounds: &'a [u32],
    pub sets: &'a [u8],
    pub values: &'a [u64],
}

impl SharedTables<'_> {
    pub fn are_allowed(&self, settings: Settings) -> bool
        ensures { result ≡ learner_allowed settings (tables_shared self.now) }
    {
        is_allowed(
            settings,
            self.rounds.len(),
            self.sets.len(),
            self.values.len(),
        )
    }

    pub fn cell_at(&self, index: usize) -> Cell
        ensures { result ≡ cell_at (tables_shared self.now) index }
    {
        Cell {
            round: columns::round_at(self.rounds, index),
            set: columns::item_at(self.sets, index, 0),
            value: columns::value_at(self.values, index),
        }
    }

    // Every one of so many cells is possible.
    pub fn all_possible(&self, acceptors: u32, count: u32) -> bool
        ensures { result ≡ all_possible acceptors (first_cells count (tables_shared self.now)) }
    {
        for index in 0..count {
            let cell = self.cell_at(index as usize);
            if !learner_cell::is_possible(acceptors, cell) {
                return false;
            }
        }
        true
    }
}

// The same, lent to be written. What writes them keeps each reference, and says so: thus a caller that lent its slices knows what they come to hold.
#[derive(Drop)]
pub struct Tables<'a> {
    pub rounds: &'a mut [u32],
    pub sets: &'a mut [u8],
    pub values: &'a mut [u64],
}

impl Tables<'_> {
    fn shared(&self) -> SharedTables<'_>
        ensures { tables_shared result ≡ tables_behind self.now }
    {
        SharedTables {
            rounds: self.rounds,
            sets: self.sets,
            values: self.values,
        }
    }

    pub fn are_allowed(&self, settings: Settings) -> bool
        ensures { result ≡ learner_allowed settings (tables_behind self.now) }
    {
        self.shared().are_allowed(settings)
    }

    pub fn cell_at(&self, index: usize) -> Cell
        ensures { result ≡ cell_at (tables_behind self.now) index }
    {
        self.shared().cell_at(index)
    }

    #[inline(always)]
    pub fn store_cell(&mut self, index: usize, cell: Cell)
        ensures stored { tables_behind self.new ≡ with_cell (tables_behind self.old) index cell }
        ensures same_references { SameReferences self.old self.new }
    {
        columns::put_round(self.rounds, index, cell.round);
        columns::put_item(self.sets, index, cell.set);
        columns::put_value(self.values, index, cell.value);
    }

    // No round, no voter, no value, in as many cells as each column has.
    fn set_fresh(&mut self)
        ensures filled { tables_behind self.new ≡ filled_fresh (tables_behind self.old) }
        ensures same_references { SameReferences self.old self.new }
    {
        columns::fill_rounds(self.rounds, Round::NONE);
        columns::fill(self.sets, 0);
        columns::fill(self.values, 0);
    }
}

// The tables as a run begins with them, whatever they held: no round, no voter, no value. They are left as `learner_fresh` says.
#[unsafe(no_mangle)]
pub extern "C" fn myrthakel_learner_fresh(
    acceptors: u32,
    instances: u32,
    rounds: &mut [u32],
    sets: &mut [u8],
    values: &mut [u64],
) -> u32
    ensures { let before = tables rounds.old sets.old values.old in
        let after = tables rounds.new sets.new values.new in
        outcome result after ≡ learner_fresh (settings acceptors instances) before }
{
    let settings = Settings {
        acceptors,
        instances,
    };
    if !is_allowed(settings, rounds.len(), sets.len(), values.len()) {
        return Refusal::NotAllowed as u32;
    }
    let mut tables = Tables {
        rounds,
        sets,
        values,
    };
    tables.set_fresh();
    basics::verdict_number(Verdict::Done)
}
