// What C calls of primary_port: each call has the clauses of the function that it stands for, word for word.
#![tactic(auto)]

ghost use Rattle.std.specs.Prelude.{◌≡◌};
ghost use Rattle.basics.specs.Outcome.{outcome, lent};
ghost use Rattle.quorum.specs.Settings.{settings};
ghost use Rattle.primary_port.specs.Port.{primary_frame};

#[unsafe(no_mangle)]
pub extern "C" fn myrthakel_primary_frame(
    acceptors: u32,
    instances: u32,
    port: u16,
    frame: &mut [u8],
    next: &mut [u32],
) -> u32
    ensures { let left = lent frame.new next.new in
        outcome result left ≡ primary_frame (settings acceptors instances) port frame.old next.old }
{
    primary_port::myrthakel_primary_frame(acceptors, instances, port, frame, next)
}
