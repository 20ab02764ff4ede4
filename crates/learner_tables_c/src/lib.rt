// What C calls of learner_tables: each call has the clauses of the function that it stands for, word for word.
#![tactic(auto)]

ghost use Rattle.std.specs.Prelude.{◌≡◌};
ghost use Rattle.basics.specs.Outcome.{outcome};
ghost use Rattle.quorum.specs.Settings.{settings};
ghost use Rattle.learner_tables.specs.Tables.{tables, learner_fresh};

#[unsafe(no_mangle)]
pub extern "C" fn myrthakel_learner_fresh(
    acceptors: u32,
    instances: u32,
    rounds: &mut [u32],
    sets: &mut [u8],
    values: &mut [u64],
) -> u32
    ensures { let before = tables rounds.old sets.old values.old in
        let after = tables rounds.new sets.new values.new in
        outcome result after ≡ learner_fresh (settings acceptors instances) before }
{
    learner_tables::myrthakel_learner_fresh(acceptors, instances, rounds, sets, values)
}
