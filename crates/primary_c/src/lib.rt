// What C calls of primary: each call has the clauses of the function that it stands for, word for word.
#![tactic(auto)]

ghost use Rattle.std.specs.Prelude.{◌≡◌};
ghost use Rattle.basics.specs.Outcome.{outcome, lent};
ghost use Rattle.quorum.specs.Settings.{settings};
ghost use Rattle.primary.specs.Primary.{primary_fresh, primary_step, primary_request};

use primary_rule::Cell;

#[unsafe(no_mangle)]
pub extern "C" fn myrthakel_primary_fresh(acceptors: u32, instances: u32, next: &mut [u32]) -> u32
    ensures { outcome result next.new ≡ primary_fresh (settings acceptors instances) next.old }
{
    primary::myrthakel_primary_fresh(acceptors, instances, next)
}

#[unsafe(no_mangle)]
pub extern "C" fn myrthakel_primary_step(
    acceptors: u32,
    instances: u32,
    packet: &mut [u8],
    next: &mut [u32],
) -> u32
    ensures { let left = lent packet.new next.new in
        outcome result left ≡ primary_step (settings acceptors instances) packet.old next.old }
{
    primary::myrthakel_primary_step(acceptors, instances, packet, next)
}

#[unsafe(no_mangle)]
pub extern "C" fn myrthakel_primary_request(
    acceptors: u32,
    instances: u32,
    packet: &mut [u8],
    cell: &mut Cell,
) -> u32
    ensures { let left = lent packet.new cell.new in
        outcome result left ≡ primary_request (settings acceptors instances) packet.old cell.old }
{
    primary::myrthakel_primary_request(acceptors, instances, packet, cell)
}
