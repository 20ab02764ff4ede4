// What C calls of acceptor_tables: each call has the clauses of the function that it stands for, word for word.
#![tactic(auto)]

ghost use Rattle.std.specs.Prelude.{◌≡◌};
ghost use Rattle.basics.specs.Outcome.{outcome};
ghost use Rattle.quorum.specs.Settings.{settings};
ghost use Rattle.acceptor_tables.specs.Tables.{tables, acceptor_fresh};

#[unsafe(no_mangle)]
pub extern "C" fn myrthakel_acceptor_fresh(
    acceptors: u32,
    instances: u32,
    rounds: &mut [u32],
    vote_rounds: &mut [u32],
    values: &mut [u64],
) -> u32
    ensures { let before = tables rounds.old vote_rounds.old values.old in
        let after = tables rounds.new vote_rounds.new values.new in
        outcome result after ≡ acceptor_fresh (settings acceptors instances) before }
{
    acceptor_tables::myrthakel_acceptor_fresh(acceptors, instances, rounds, vote_rounds, values)
}
