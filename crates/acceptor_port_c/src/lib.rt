// What C calls of acceptor_port: each call has the clauses of the function that it stands for, word for word.
#![tactic(auto)]

ghost use Rattle.std.specs.Prelude.{◌≡◌};
ghost use Rattle.basics.specs.Outcome.{outcome, lent};
ghost use Rattle.quorum.specs.Settings.{settings};
ghost use Rattle.acceptor_tables.specs.Tables.{tables};
ghost use Rattle.acceptor_port.specs.Port.{acceptor_frame};

#[unsafe(no_mangle)]
pub extern "C" fn myrthakel_acceptor_frame(
    acceptors: u32,
    instances: u32,
    own: u32,
    port: u16,
    frame: &mut [u8],
    rounds: &mut [u32],
    vote_rounds: &mut [u32],
    values: &mut [u64],
) -> u32
    ensures { let before = tables rounds.old vote_rounds.old values.old in
        let after = tables rounds.new vote_rounds.new values.new in
        outcome result (lent frame.new after) ≡ acceptor_frame (settings acceptors instances) own port frame.old before }
{
    acceptor_port::myrthakel_acceptor_frame(
        acceptors,
        instances,
        own,
        port,
        frame,
        rounds,
        vote_rounds,
        values,
    )
}
