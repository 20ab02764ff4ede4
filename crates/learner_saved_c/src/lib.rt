// What C calls of learner_saved: each call has the clauses of the function that it stands for, word for word.
#![tactic(auto)]

ghost use Rattle.std.specs.Prelude.{◌≡◌};
ghost use Rattle.basics.specs.Outcome.{outcome, lent};
ghost use Rattle.quorum.specs.Settings.{settings};
ghost use Rattle.learner_tables.specs.Tables.{tables};
ghost use Rattle.learner_saved.specs.Saved.{save, read_saved};

#[unsafe(no_mangle)]
pub extern "C" fn myrthakel_learner_save(
    acceptors: u32,
    instances: u32,
    rounds: &[u32],
    sets: &[u8],
    values: &[u64],
    buffer: &mut [u8],
) -> u32
    ensures { let before = tables rounds.now sets.now values.now in
        outcome result (lent buffer.new before) ≡ save (settings acceptors instances) buffer.old before }
{
    learner_saved::myrthakel_learner_save(acceptors, instances, rounds, sets, values, buffer)
}

#[unsafe(no_mangle)]
pub extern "C" fn myrthakel_learner_read_saved(
    acceptors: u32,
    instances: u32,
    saved: &[u8],
    rounds: &mut [u32],
    sets: &mut [u8],
    values: &mut [u64],
) -> u32
    ensures { let before = tables rounds.old sets.old values.old in
        let after = tables rounds.new sets.new values.new in
        outcome result (lent saved.now after) ≡ read_saved (settings acceptors instances) saved.now before }
{
    learner_saved::myrthakel_learner_read_saved(acceptors, instances, saved, rounds, sets, values)
}
