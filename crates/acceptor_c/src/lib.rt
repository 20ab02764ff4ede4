// What C calls of acceptor: each call has the clauses of the function that it stands for, word for word.
#![tactic(auto)]

ghost use Rattle.std.specs.Prelude.{◌≡◌};
ghost use Rattle.basics.specs.Outcome.{outcome, lent};
ghost use Rattle.quorum.specs.Settings.{settings};
ghost use Rattle.acceptor_tables.specs.Tables.{tables};
ghost use Rattle.acceptor.specs.Acceptor.{acceptor_step};

#[unsafe(no_mangle)]
pub extern "C" fn myrthakel_acceptor_step(
    acceptors: u32,
    instances: u32,
    own: u32,
    packet: &mut [u8],
    rounds: &mut [u32],
    vote_rounds: &mut [u32],
    values: &mut [u64],
) -> u32
    ensures { let before = tables rounds.old vote_rounds.old values.old in
        let after = tables rounds.new vote_rounds.new values.new in
        outcome result (lent packet.new after) ≡ acceptor_step (settings acceptors instances) own packet.old before }
{
    acceptor::myrthakel_acceptor_step(
        acceptors,
        instances,
        own,
        packet,
        rounds,
        vote_rounds,
        values,
    )
}
