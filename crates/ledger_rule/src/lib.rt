// The ledger's rule for a boarding at its pass, by value.
#![tactic(auto)]

ghost use Rattle.std.specs.Prelude.{◌≡◌};
ghost use Rattle.ledger_rule.specs.Rule.{board_pass, boarded_of};

use basics::Refusal;
use passes::Pass;

// The pass behind a boarding, or why it is refused.
pub fn board_pass(pass: Pass, day: u16, scan: u32) -> Result<Pass, Refusal>
    ensures { boarded_of result ≡ board_pass pass day scan }
{
    if pass.last_day < day {
        return Err(Refusal::DayPast);
    }
    if scan <= pass.last_scan {
        return Err(Refusal::ScanNotNewer);
    }
    if pass.rides_left < 1 {
        return Err(Refusal::NoRideLeft);
    }
    Ok(Pass {
        rides_left: pass.rides_left - 1,
        last_scan: scan,
        ..pass
    })
}
