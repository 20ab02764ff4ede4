// A backup's lent tables: one cell for each instance, a column for each field. Which of them are allowed, their cells, read and written, and all of them set
// fresh. Past their end the tables read as 0 and are not written.
#![tactic(auto)]

ghost use Rattle.std.specs.Prelude.{◌≡◌};
ghost use Rattle.basics.specs.Outcome.{outcome};
ghost use Rattle.quorum.specs.Settings.{settings};
ghost use Rattle.backup_tables.specs.Tables.{tables, cell_at, with_cell, tables_allowed, is_allowed, backup_allowed, filled_fresh, backup_fresh};
ghost use Rattle.backup_tables.specs.Lent.{tables_shared, tables_behind, SameReferences};

use backup_cell::Cell;
use basics::{Refusal, Round, Verdict};
use quorum::Settings;

// Refusal 7 by itself, where no own number is given: M and N are allowed, and each table is sized for N.
fn tables_allowed(
    settings: Settings,
    rounds: usize,
    phases: usize,
    sets: usize,
    best_vote_rounds: usize,
    best_values: usize,
    own_values: usize,
) -> bool
    ensures { result ≡ tables_allowed settings rounds phases sets best_vote_rounds best_values own_values }
{
    let count = settings.instances as usize;
    quorum::settings_allowed(settings)
        & (rounds == count)
        & (phases == count)
        & (sets == count)
        & (best_vote_rounds == count)
        & (best_values == 2 * count)
        & (own_values == 2 * count)
}

// Refusal 7 by itself: that, and the own number is 1 to 3, whatever M is.
pub fn is_allowed(
    settings: Settings,
    own: u32,
    rounds: usize,
    phases: usize,
    sets: usize,
    best_vote_rounds: usize,
    best_values: usize,
    own_values: usize,
) -> bool
    ensures { result ≡ is_allowed settings own rounds phases sets best_vote_rounds best_values own_values }
{
    tables_allowed(
        settings,
        rounds,
        phases,
        sets,
        best_vote_rounds,
        best_values,
        own_values,
    ) & (1 <= own)
        & (own <= 3)
}

// The columns travel together, lent to be read.
#[derive(Clone, Copy)]
pub struct SharedTables<'a> {
    pub rounds: &'a [u32],
    pub phases: &'a [u8],
    pub sets: &'a [u8],
    pub best_vote_rounds: &'a [u32],
    pub best_values: &'a [u64],
    pub own_values: &'a [u64],
}

impl SharedTables<'_> {
    pub fn cell_at(&self, index: usize) -> Cell
        ensures { result ≡ cell_at (tables_shared self.now) index }
    {
        Cell {
            round: columns::round_at(self.rounds, index),
            phase: columns::item_at(self.phases, index, 0),
            set: columns::item_at(self.sets, index, 0),
            best_vote_round: columns::round_at(self.best_vote_rounds, index),
            best_value: columns::value_at(self.best_values, index),
            own_value: columns::value_at(self.own_values, index),
        }
    }
}

// The same, lent to be written. What writes them keeps each reference, and says so: thus a caller that lent its slices knows what they come to hold.
#[derive(Drop)]
pub struct Tables<'a> {
    pub rounds: &'a mut [u32],
    pub phases: &'a mut [u8],
    pub sets: &'a mut [u8],
    pub best_vote_rounds: &'a mut [u32],
    pub best_values: &'a mut [u64],
    pub own_values: &'a mut [u64],
}

impl Tables<'_> {
    fn shared(&self) -> SharedTables<'_>
        ensures { tables_shared result ≡ tables_behind self.now }
    {
        SharedTables {
            rounds: self.rounds,
            phases: self.phases,
            sets: self.sets,
            best_vote_rounds: self.best_vote_rounds,
            best_values: self.best_values,
            own_values: self.own_values,
        }
    }

    pub fn are_allowed(&self, settings: Settings, own: u32) -> bool
        ensures { result ≡ backup_allowed settings own (tables_behind self.now) }
    {
        is_allowed(
            settings,
            own,
            self.rounds.len(),
            self.phases.len(),
            self.sets.len(),
            self.best_vote_rounds.len(),
            self.best_values.len(),
            self.own_values.len(),
        )
    }

    pub fn cell_at(&self, index: usize) -> Cell
        ensures { result ≡ cell_at (tables_behind self.now) index }
    {
        self.shared().cell_at(index)
    }

    // Inlined where a step stores, as a call of it would be the only one in the archive.
    #[inline(always)]
    pub fn store_cell(&mut self, index: usize, cell: Cell)
        ensures stored { tables_behind self.new ≡ with_cell (tables_behind self.old) index cell }
        ensures same_references { SameReferences self.old self.new }
    {
        columns::put_round(self.rounds, index, cell.round);
        columns::put_item(self.phases, index, cell.phase);
        columns::put_item(self.sets, index, cell.set);
        columns::put_round(self.best_vote_rounds, index, cell.best_vote_round);
        columns::put_value(self.best_values, index, cell.best_value);
        columns::put_value(self.own_values, index, cell.own_value);
    }

    // Nothing asked, nobody promised, no value, in as many cells as each column has.
    fn set_fresh(&mut self)
        ensures filled { tables_behind self.new ≡ filled_fresh (tables_behind self.old) }
        ensures same_references { SameReferences self.old self.new }
    {
        columns::fill_rounds(self.rounds, Round(0));
        columns::fill(self.phases, backup_cell::IDLE);
        columns::fill(self.sets, 0);
        columns::fill_rounds(self.best_vote_rounds, Round::NONE);
        columns::fill(self.best_values, 0);
        columns::fill(self.own_values, 0);
    }
}

// The tables as a run begins with them, whatever they held: nothing asked, nobody promised, no value. They are left as `backup_fresh` says.
#[unsafe(no_mangle)]
pub extern "C" fn myrthakel_backup_fresh(
    acceptors: u32,
    instances: u32,
    rounds: &mut [u32],
    phases: &mut [u8],
    sets: &mut [u8],
    best_vote_rounds: &mut [u32],
    best_values: &mut [u64],
    own_values: &mut [u64],
) -> u32
    ensures { let before = tables rounds.old phases.old sets.old best_vote_rounds.old best_values.old
        own_values.old in
        let after = tables rounds.new phases.new sets.new best_vote_rounds.new best_values.new
        own_values.new in
        outcome result after ≡ backup_fresh (settings acceptors instances) before }
{
    let settings = Settings {
        acceptors,
        instances,
    };
    if !tables_allowed(
        settings,
        rounds.len(),
        phases.len(),
        sets.len(),
        best_vote_rounds.len(),
        best_values.len(),
        own_values.len(),
    ) {
        return Refusal::NotAllowed as u32;
    }
    let mut tables = Tables {
        rounds,
        phases,
        sets,
        best_vote_rounds,
        best_values,
        own_values,
    };
    tables.set_fresh();
    basics::verdict_number(Verdict::Done)
}
