// What C calls of learner_port: each call has the clauses of the function that it stands for, word for word.
#![tactic(auto)]

ghost use Rattle.std.specs.Prelude.{◌≡◌};
ghost use Rattle.basics.specs.Outcome.{outcome, lent};
ghost use Rattle.quorum.specs.Settings.{settings};
ghost use Rattle.learner_tables.specs.Tables.{tables};
ghost use Rattle.learner_port.specs.Port.{learner_frame};

#[unsafe(no_mangle)]
pub extern "C" fn myrthakel_learner_frame(
    acceptors: u32,
    instances: u32,
    port: u16,
    frame: &[u8],
    rounds: &mut [u32],
    sets: &mut [u8],
    values: &mut [u64],
) -> u32
    ensures { let before = tables rounds.old sets.old values.old in
        let after = tables rounds.new sets.new values.new in
        outcome result (lent frame.now after) ≡ learner_frame (settings acceptors instances) port frame.now before }
{
    learner_port::myrthakel_learner_frame(acceptors, instances, port, frame, rounds, sets, values)
}
