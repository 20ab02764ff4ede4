// The primary at a switch port: the frame is judged, the packet within is handed to its own call, and both checksums are set anew. No rule is added.
#![tactic(auto)]

ghost use Rattle.std.specs.Prelude.{◌≡◌};
ghost use Rattle.basics.specs.Answer.{answer_number};
ghost use Rattle.basics.specs.Outcome.{outcome, lent};
ghost use Rattle.quorum.specs.Settings.{settings};
ghost use Rattle.primary_port.specs.Port.{primary_frame};

use basics::{Answer, Refusal};
use quorum::Settings;

fn step(settings: Settings, port: u16, frame: &mut [u8], next: &mut [u32]) -> Answer
    ensures { outcome (answer_number result) (lent frame.new next.new) ≡ primary_frame settings port frame.old next.old }
{
    if !primary::is_allowed(settings, next.len()) {
        return Err(Refusal::NotAllowed);
    }
    frames::check(port, frame)?;
    let packet = &mut frame[frames::PACKET_AT..frames::FRAME_LENGTH];
    let answer = primary::step_slice(settings, packet, next);
    frames::set_checksums(frame);
    answer
}

#[unsafe(no_mangle)]
pub extern "C" fn myrthakel_primary_frame(
    acceptors: u32,
    instances: u32,
    port: u16,
    frame: &mut [u8],
    next: &mut [u32],
) -> u32
    ensures { let left = lent frame.new next.new in
        outcome result left ≡ primary_frame (settings acceptors instances) port frame.old next.old }
{
    let settings = Settings {
        acceptors,
        instances,
    };
    basics::answer_number(step(settings, port, frame, next))
}
