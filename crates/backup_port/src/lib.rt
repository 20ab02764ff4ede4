// A backup at a switch port: the frame is judged, the packet within is handed to its own call, and both checksums are set anew. No rule is added.
#![tactic(auto)]

ghost use Rattle.std.specs.Prelude.{◌≡◌};
ghost use Rattle.basics.specs.Answer.{answer_number};
ghost use Rattle.basics.specs.Outcome.{outcome, lent};
ghost use Rattle.quorum.specs.Settings.{settings};
ghost use Rattle.backup_tables.specs.Tables.{tables};
ghost use Rattle.backup_tables.specs.Lent.{tables_behind, SameReferences};
ghost use Rattle.backup_port.specs.Port.{backup_frame};

use backup_tables::Tables;
use basics::{Answer, Refusal};
use quorum::Settings;

fn step(
    settings: Settings,
    own: u32,
    port: u16,
    frame: &mut [u8],
    tables: &mut Tables<'_>,
) -> Answer
    ensures stepped { let left = lent frame.new (tables_behind tables.new) in
        outcome (answer_number result) left ≡ backup_frame settings own port frame.old (tables_behind tables.old) }
    ensures same_references { SameReferences tables.old tables.new }
{
    if !tables.are_allowed(settings, own) {
        return Err(Refusal::NotAllowed);
    }
    frames::check(port, frame)?;
    let packet = &mut frame[frames::PACKET_AT..frames::FRAME_LENGTH];
    let answer = backup::step(settings, own, packet, tables);
    frames::set_checksums(frame);
    answer
}

#[unsafe(no_mangle)]
pub extern "C" fn myrthakel_backup_frame(
    acceptors: u32,
    instances: u32,
    own: u32,
    port: u16,
    frame: &mut [u8],
    rounds: &mut [u32],
    phases: &mut [u8],
    sets: &mut [u8],
    best_vote_rounds: &mut [u32],
    best_values: &mut [u64],
    own_values: &mut [u64],
) -> u32
    ensures { let before = tables rounds.old phases.old sets.old best_vote_rounds.old best_values.old
        own_values.old in
        let after = tables rounds.new phases.new sets.new best_vote_rounds.new best_values.new
        own_values.new in
        outcome result (lent frame.new after) ≡ backup_frame (settings acceptors instances) own port frame.old before }
{
    let settings = Settings {
        acceptors,
        instances,
    };
    let mut tables = Tables {
        rounds,
        phases,
        sets,
        best_vote_rounds,
        best_values,
        own_values,
    };
    basics::answer_number(step(settings, own, port, frame, &mut tables))
}
