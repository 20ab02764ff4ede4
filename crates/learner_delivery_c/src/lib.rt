// What C calls of learner_delivery: each call has the clauses of the function that it stands for, word for word.
#![tactic(auto)]

ghost use Rattle.std.specs.Prelude.{◌≡◌};
ghost use Rattle.basics.specs.Outcome.{outcome, lent};
ghost use Rattle.quorum.specs.Settings.{settings};
ghost use Rattle.learner_tables.specs.Tables.{tables};
ghost use Rattle.learner_delivery.specs.Delivery.{deliver};

#[unsafe(no_mangle)]
pub extern "C" fn myrthakel_learner_deliver(
    acceptors: u32,
    instances: u32,
    rounds: &[u32],
    sets: &[u8],
    values: &[u64],
    buffer: &mut [u8],
    count: &mut u32,
) -> u32
    ensures { let before = tables rounds.now sets.now values.now in
        outcome result (lent buffer.new count.new)
        ≡ deliver (settings acceptors instances) before buffer.old count.old }
{
    learner_delivery::myrthakel_learner_deliver(
        acceptors, instances, rounds, sets, values, buffer, count,
    )
}
