// What C calls of learner_holes: each call has the clauses of the function that it stands for, word for word.
#![tactic(auto)]

ghost use Rattle.std.specs.Prelude.{◌≡◌};
ghost use Rattle.basics.specs.Outcome.{outcome};
ghost use Rattle.quorum.specs.Settings.{settings};
ghost use Rattle.learner_tables.specs.Tables.{tables};
ghost use Rattle.learner_holes.specs.Holes.{find_hole, answered};

#[unsafe(no_mangle)]
pub extern "C" fn myrthakel_learner_first_hole(
    acceptors: u32,
    instances: u32,
    rounds: &[u32],
    sets: &[u8],
    values: &[u64],
    instance: &mut u32,
) -> u32
    ensures { let before = tables rounds.now sets.now values.now in
        outcome result «instance».new ≡ answered «instance».old (find_hole (settings acceptors instances) before) }
{
    learner_holes::myrthakel_learner_first_hole(
        acceptors, instances, rounds, sets, values, instance,
    )
}
