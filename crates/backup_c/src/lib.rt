// What C calls of backup: each call has the clauses of the function that it stands for, word for word.
#![tactic(auto)]

ghost use Rattle.std.specs.Prelude.{◌≡◌};
ghost use Rattle.basics.specs.Outcome.{outcome, lent};
ghost use Rattle.basics.specs.Rounds.{the_instance};
ghost use Rattle.basics.specs.Values.{the_value};
ghost use Rattle.quorum.specs.Settings.{settings};
ghost use Rattle.backup_tables.specs.Tables.{tables};
ghost use Rattle.backup.specs.Backup.{backup_step, backup_start};

#[unsafe(no_mangle)]
pub extern "C" fn myrthakel_backup_start(
    acceptors: u32,
    instances: u32,
    own: u32,
    instance: u32,
    floor: u32,
    value_high: u64,
    value_low: u64,
    buffer: &mut [u8],
    rounds: &mut [u32],
    phases: &mut [u8],
    sets: &mut [u8],
    best_vote_rounds: &mut [u32],
    best_values: &mut [u64],
    own_values: &mut [u64],
) -> u32
    ensures { let before = tables rounds.old phases.old sets.old best_vote_rounds.old best_values.old
        own_values.old in
        let after = tables rounds.new phases.new sets.new best_vote_rounds.new best_values.new
        own_values.new in
        outcome result (lent buffer.new after)
        ≡ backup_start (settings acceptors instances) own (the_instance instance) floor (the_value value_high value_low) buffer.old before }
{
    backup::myrthakel_backup_start(
        acceptors,
        instances,
        own,
        instance,
        floor,
        value_high,
        value_low,
        buffer,
        rounds,
        phases,
        sets,
        best_vote_rounds,
        best_values,
        own_values,
    )
}

#[unsafe(no_mangle)]
pub extern "C" fn myrthakel_backup_step(
    acceptors: u32,
    instances: u32,
    own: u32,
    packet: &mut [u8],
    rounds: &mut [u32],
    phases: &mut [u8],
    sets: &mut [u8],
    best_vote_rounds: &mut [u32],
    best_values: &mut [u64],
    own_values: &mut [u64],
) -> u32
    ensures { let before = tables rounds.old phases.old sets.old best_vote_rounds.old best_values.old
        own_values.old in
        let after = tables rounds.new phases.new sets.new best_vote_rounds.new best_values.new
        own_values.new in
        outcome result (lent packet.new after) ≡ backup_step (settings acceptors instances) own packet.old before }
{
    backup::myrthakel_backup_step(
        acceptors,
        instances,
        own,
        packet,
        rounds,
        phases,
        sets,
        best_vote_rounds,
        best_values,
        own_values,
    )
}
