// An acceptor at a switch port: the frame is judged, the packet within is handed to its own call, and both checksums are set anew. No rule is added.
#![tactic(auto)]

ghost use Rattle.std.specs.Prelude.{◌≡◌};
ghost use Rattle.basics.specs.Answer.{answer_number};
ghost use Rattle.basics.specs.Outcome.{outcome, lent};
ghost use Rattle.quorum.specs.Settings.{settings};
ghost use Rattle.acceptor_tables.specs.Tables.{tables};
ghost use Rattle.acceptor_tables.specs.Lent.{tables_behind, SameReferences};
ghost use Rattle.acceptor_port.specs.Port.{acceptor_frame};

use acceptor_tables::Tables;
use basics::{Answer, Refusal};
use quorum::Settings;

fn step(
    settings: Settings,
    own: u32,
    port: u16,
    frame: &mut [u8],
    tables: &mut Tables<'_>,
) -> Answer
    ensures stepped { let left = lent frame.new (tables_behind tables.new) in
        outcome (answer_number result) left ≡ acceptor_frame settings own port frame.old (tables_behind tables.old) }
    ensures same_references { SameReferences tables.old tables.new }
{
    if !tables.are_allowed(settings, own) {
        return Err(Refusal::NotAllowed);
    }
    frames::check(port, frame)?;
    let packet = &mut frame[frames::PACKET_AT..frames::FRAME_LENGTH];
    let answer = acceptor::step(settings, own, packet, tables);
    frames::set_checksums(frame);
    answer
}

#[unsafe(no_mangle)]
pub extern "C" fn myrthakel_acceptor_frame(
    acceptors: u32,
    instances: u32,
    own: u32,
    port: u16,
    frame: &mut [u8],
    rounds: &mut [u32],
    vote_rounds: &mut [u32],
    values: &mut [u64],
) -> u32
    ensures { let before = tables rounds.old vote_rounds.old values.old in
        let after = tables rounds.new vote_rounds.new values.new in
        outcome result (lent frame.new after) ≡ acceptor_frame (settings acceptors instances) own port frame.old before }
{
    let settings = Settings {
        acceptors,
        instances,
    };
    let mut tables = Tables {
        rounds,
        vote_rounds,
        values,
    };
    basics::answer_number(step(settings, own, port, frame, &mut tables))
}
