// What C calls of ledger: each call has the clauses of the function that it stands for, word for word.
#![tactic(auto)]

ghost use Rattle.std.specs.Prelude.{◌≡◌};
ghost use Rattle.basics.specs.Outcome.{outcome};
ghost use Rattle.passes.specs.Passes.{columns, table};
ghost use Rattle.ledger.specs.Ledger.{enter};

#[unsafe(no_mangle)]
pub extern "C" fn myrthakel_ledger_enter(
    value: &[u8],
    passes: &mut [u32],
    rides_left: &mut [u8],
    last_days: &mut [u16],
    last_scans: &mut [u32],
    count: &mut u32,
) -> u32
    ensures { let entered = columns passes.old rides_left.old last_days.old last_scans.old in
        let left = columns passes.new rides_left.new last_days.new last_scans.new in
        let before = table entered count.old in
        let after = table left count.new in
        outcome result after ≡ enter value.now before }
{
    ledger::myrthakel_ledger_enter(value, passes, rides_left, last_days, last_scans, count)
}
