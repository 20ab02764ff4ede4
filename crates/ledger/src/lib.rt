// The ride ledger: which scan of a pass is a ride. It is fed by the delivered list, entry after entry, and so it is the same at every reader.
#![tactic(auto)]

ghost use Rattle.std.specs.Prelude.{◌≡◌, true};
ghost use Rattle.basics.specs.Outcome.{outcome};
ghost use Rattle.passes.specs.Passes.{columns, table, in_use, sound};
ghost use Rattle.passes.specs.Lent.{table_behind, SameReferences};
ghost use Rattle.ledger_rule.specs.Rule.{sell, board};
ghost use Rattle.ledger.specs.Ledger.{carried_out, entered_number, entering_number, enter};

use basics::Refusal;
use entries::Entry;
use passes::{Pass, Table};

// What became of an entry that is not refused.
#[derive(Clone, Copy, PartialEq, Eq)]
pub enum Entered {
    Sold = 109,
    Boarded = 110,
    Skipped = 111,
}

// These numbers lie above every refusal.
fn entered_number(entered: Entered) -> u32
    ensures { result ≡ entered_number entered }
{
    entered as u32
}

// A sale opens a pass behind those in use.
fn sell(table: &mut Table<'_>, number: u32, rides: u8, last_day: u16) -> Result<Entered, Refusal>
    requires { sound (table_behind table.old) ≡ true }
    ensures ruled { let before = table_behind table.old in
        let ruled = carried_out before (sell (in_use before) number rides last_day) in
        outcome (entering_number result) (table_behind table.new) ≡ ruled }
    ensures same_references { SameReferences table.old table.new }
{
    if table.find(0, number).is_some() {
        return Err(Refusal::PassExists);
    }
    if table.is_full() {
        return Err(Refusal::LedgerFull);
    }
    let opened = Pass {
        number,
        rides_left: rides,
        last_day,
        last_scan: 0,
    };
    table.store_pass(*table.count as usize, opened);
    *table.count += 1;
    Ok(Entered::Sold)
}

// A boarding takes a ride from its pass.
fn board(table: &mut Table<'_>, number: u32, day: u16, scan: u32) -> Result<Entered, Refusal>
    requires { sound (table_behind table.old) ≡ true }
    ensures ruled { let before = table_behind table.old in
        let ruled = carried_out before (board (in_use before) number day scan) in
        outcome (entering_number result) (table_behind table.new) ≡ ruled }
    ensures same_references { SameReferences table.old table.new }
{
    let Some(place) = table.find(0, number) else {
        return Err(Refusal::UnknownPass);
    };
    let pass = table.pass_at(place);
    let next = ledger_rule::board_pass(pass, day, scan)?;
    table.store_pass(place, next);
    Ok(Entered::Boarded)
}

// One entry of the delivered list. A refusal and a skip leave the table as it came.
pub fn enter(value: &[u8], table: &mut Table<'_>) -> Result<Entered, Refusal>
    ensures entered { let left = table_behind table.new in
        outcome (entering_number result) left ≡ enter value.now (table_behind table.old) }
    ensures same_references { SameReferences table.old table.new }
{
    if !table.is_sound() {
        return Err(Refusal::UnsoundLedger);
    }
    let Some(entry) = entries::entry_in(value) else {
        return Err(Refusal::MalformedEntry);
    };
    match entry {
        Entry::Null => Ok(Entered::Skipped),
        Entry::Sale {
            pass,
            rides,
            last_day,
        } => sell(table, pass, rides, last_day),
        Entry::Boarding { pass, day, scan } => board(table, pass, day, scan),
    }
}

// What C is answered: the number of what became of the entry, or the refusal's.
fn entering_number(entering: Result<Entered, Refusal>) -> u32
    ensures { result ≡ entering_number entering }
{
    match entering {
        Ok(entered) => entered_number(entered),
        Err(refusal) => basics::refusal_number(refusal),
    }
}

// The same for C, which lends each column and the count by itself and is answered a number.
#[unsafe(no_mangle)]
pub extern "C" fn myrthakel_ledger_enter(
    value: &[u8],
    passes: &mut [u32],
    rides_left: &mut [u8],
    last_days: &mut [u16],
    last_scans: &mut [u32],
    count: &mut u32,
) -> u32
    ensures { let entered = columns passes.old rides_left.old last_days.old last_scans.old in
        let left = columns passes.new rides_left.new last_days.new last_scans.new in
        let before = table entered count.old in
        let after = table left count.new in
        outcome result after ≡ enter value.now before }
{
    let mut table = Table {
        passes,
        rides_left,
        last_days,
        last_scans,
        count,
    };
    entering_number(enter(value, &mut table))
}
