// A learner at a switch port: the frame is judged, and the packet within is handed to its own call. It never changes the packet, so that both checksums
// stay right.
#![tactic(auto)]

ghost use Rattle.std.specs.Prelude.{◌≡◌};
ghost use Rattle.basics.specs.Answer.{answer_number};
ghost use Rattle.basics.specs.Outcome.{outcome, lent};
ghost use Rattle.quorum.specs.Settings.{settings};
ghost use Rattle.learner_tables.specs.Tables.{tables};
ghost use Rattle.learner_tables.specs.Lent.{tables_behind, SameReferences};
ghost use Rattle.learner_port.specs.Port.{learner_frame};

use basics::{Answer, Refusal};
use learner_tables::Tables;
use quorum::Settings;

fn step(settings: Settings, port: u16, frame: &[u8], tables: &mut Tables<'_>) -> Answer
    ensures stepped { let left = lent frame.now (tables_behind tables.new) in
        outcome (answer_number result) left ≡ learner_frame settings port frame.now (tables_behind tables.old) }
    ensures same_references { SameReferences tables.old tables.new }
{
    if !tables.are_allowed(settings) {
        return Err(Refusal::NotAllowed);
    }
    frames::check(port, frame)?;
    let packet = &frame[frames::PACKET_AT..frames::FRAME_LENGTH];
    learner::step(settings, packet, tables)
}

#[unsafe(no_mangle)]
pub extern "C" fn myrthakel_learner_frame(
    acceptors: u32,
    instances: u32,
    port: u16,
    frame: &[u8],
    rounds: &mut [u32],
    sets: &mut [u8],
    values: &mut [u64],
) -> u32
    ensures { let before = tables rounds.old sets.old values.old in
        let after = tables rounds.new sets.new values.new in
        outcome result (lent frame.now after) ≡ learner_frame (settings acceptors instances) port frame.now before }
{
    let settings = Settings {
        acceptors,
        instances,
    };
    let mut tables = Tables {
        rounds,
        sets,
        values,
    };
    basics::answer_number(step(settings, port, frame, &mut tables))
}
