// What C calls of frames: each call has the clauses of the function that it stands for, word for word.
#![tactic(auto)]

ghost use Rattle.std.specs.Prelude.{◌≡◌};
ghost use Rattle.basics.specs.Outcome.{outcome};
ghost use Rattle.frames.specs.Frame.{frame_check, frame_seal};

#[unsafe(no_mangle)]
pub extern "C" fn myrthakel_frame_check(port: u16, frame: &[u8]) -> u32
    ensures { result ≡ frame_check port frame.now }
{
    frames::myrthakel_frame_check(port, frame)
}

#[unsafe(no_mangle)]
pub extern "C" fn myrthakel_frame_seal(frame: &mut [u8]) -> u32
    ensures { outcome result frame.new ≡ frame_seal frame.old }
{
    frames::myrthakel_frame_seal(frame)
}
