// What C calls of backup_port: each call has the clauses of the function that it stands for, word for word.
#![tactic(auto)]

ghost use Rattle.std.specs.Prelude.{◌≡◌};
ghost use Rattle.basics.specs.Outcome.{outcome, lent};
ghost use Rattle.quorum.specs.Settings.{settings};
ghost use Rattle.backup_tables.specs.Tables.{tables};
ghost use Rattle.backup_port.specs.Port.{backup_frame};

#[unsafe(no_mangle)]
pub extern "C" fn myrthakel_backup_frame(
    acceptors: u32,
    instances: u32,
    own: u32,
    port: u16,
    frame: &mut [u8],
    rounds: &mut [u32],
    phases: &mut [u8],
    sets: &mut [u8],
    best_vote_rounds: &mut [u32],
    best_values: &mut [u64],
    own_values: &mut [u64],
) -> u32
    ensures { let before = tables rounds.old phases.old sets.old best_vote_rounds.old best_values.old
        own_values.old in
        let after = tables rounds.new phases.new sets.new best_vote_rounds.new best_values.new
        own_values.new in
        outcome result (lent frame.new after) ≡ backup_frame (settings acceptors instances) own port frame.old before }
{
    backup_port::myrthakel_backup_frame(
        acceptors,
        instances,
        own,
        port,
        frame,
        rounds,
        phases,
        sets,
        best_vote_rounds,
        best_values,
        own_values,
    )
}
