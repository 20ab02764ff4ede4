// What C calls of learner: each call has the clauses of the function that it stands for, word for word.
#![tactic(auto)]

ghost use Rattle.std.specs.Prelude.{◌≡◌};
ghost use Rattle.basics.specs.Rounds.{the_instance};
ghost use Rattle.basics.specs.Values.{the_value};
ghost use Rattle.basics.specs.Outcome.{outcome, lent};
ghost use Rattle.quorum.specs.Settings.{settings};
ghost use Rattle.learner_tables.specs.Tables.{tables};
ghost use Rattle.learner.specs.Learner.{learner_step, answer_for, answered};

#[unsafe(no_mangle)]
pub extern "C" fn myrthakel_learner_step(
    acceptors: u32,
    instances: u32,
    packet: &[u8],
    rounds: &mut [u32],
    sets: &mut [u8],
    values: &mut [u64],
) -> u32
    ensures { let before = tables rounds.old sets.old values.old in
        let after = tables rounds.new sets.new values.new in
        outcome result (lent packet.now after) ≡ learner_step (settings acceptors instances) packet.now before }
{
    learner::myrthakel_learner_step(acceptors, instances, packet, rounds, sets, values)
}

#[unsafe(no_mangle)]
pub extern "C" fn myrthakel_learner_answer(
    acceptors: u32,
    instances: u32,
    instance: u32,
    rounds: &[u32],
    sets: &[u8],
    values: &[u64],
    value_high: &mut u64,
    value_low: &mut u64,
) -> u32
    ensures { let before = tables rounds.now sets.now values.now in
        let value = the_value value_high.old value_low.old in
        outcome result (the_value value_high.new value_low.new)
        ≡ answered value (answer_for (settings acceptors instances) (the_instance «instance») before) }
{
    learner::myrthakel_learner_answer(
        acceptors, instances, instance, rounds, sets, values, value_high, value_low,
    )
}
