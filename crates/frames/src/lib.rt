// Frames: Ethernet II, IPv4 and UDP around a packet. They are judged, and their checksums are set anew.
#![tactic(auto)]

ghost use Rattle.std.specs.Prelude.{◌≡◌, length};
ghost use Rattle.basics.specs.Answer.{answer_number};
ghost use Rattle.basics.specs.Outcome.{outcome};
ghost use Rattle.frames.specs.Frame.{frame_length, ipv4_checksum, udp_checksum, carries_udp, frame_check, sealed, frame_seal};

use basics::{Answer, Refusal, Verdict};

pub const FRAME_LENGTH: usize = 78;

// The packet stands last.
pub const PACKET_AT: usize = 42;

pub const ETHER_TYPE: u16 = 2048;

// Version 4, and a header of five times four bytes.
pub const FIRST_BYTE: u8 = 69;

pub const TOTAL_LENGTH: u16 = 64;

pub const UDP_LENGTH: u16 = 44;

pub const PROTOCOL: u8 = 17;

// The words of the pseudo header that are the same in every frame: protocol and UDP length.
const SAME_WORDS: u16 = 61;

// The words on either side of the field: a zero in its place adds nothing.
fn ipv4_checksum(frame: &[u8]) -> u16
    requires { length frame.now ≡ frame_length }
    ensures { result ≡ ipv4_checksum frame.now }
{
    let before = checksum::sum_onto(0, &frame[14..24]);
    checksum::complement(checksum::sum_onto(before, &frame[26..34]))
}

// The addresses stand before the UDP header, so that they are summed in one part with it: a sum has no order.
fn udp_checksum(frame: &[u8]) -> u16
    requires { length frame.now ≡ frame_length }
    ensures { result ≡ udp_checksum frame.now }
{
    let before = checksum::sum_onto(SAME_WORDS, &frame[26..40]);
    let computed = checksum::complement(checksum::sum_onto(
        before,
        &frame[PACKET_AT..FRAME_LENGTH],
    ));
    if computed == 0 {
        return 65535;
    }
    computed
}

fn carries_udp(frame: &[u8]) -> bool
    requires { length frame.now ≡ frame_length }
    ensures { result ≡ carries_udp frame.now }
{
    (numbers::read::<u16>(frame, 12) == ETHER_TYPE)
        & (frame[14] == FIRST_BYTE)
        & (numbers::read::<u16>(frame, 16) == TOTAL_LENGTH)
        & (numbers::read::<u16>(frame, 20) % 16384 == 0)
        & (frame[23] == PROTOCOL)
}

// A frame is refused by 21 to 25, or passes.
pub fn check(port: u16, frame: &[u8]) -> Answer
    ensures { answer_number result ≡ frame_check port frame.now }
{
    if frame.len() != FRAME_LENGTH {
        return Err(Refusal::WrongFrameLength);
    }
    if !carries_udp(frame) {
        return Err(Refusal::WrongFrameHeader);
    }
    if numbers::read::<u16>(frame, 24) != ipv4_checksum(frame) {
        return Err(Refusal::WrongIpv4Checksum);
    }
    if !((numbers::read::<u16>(frame, 38) == UDP_LENGTH)
        & (numbers::read::<u16>(frame, 36) == port))
    {
        return Err(Refusal::WrongUdpHeader);
    }
    if numbers::read::<u16>(frame, 40) != udp_checksum(frame) {
        return Err(Refusal::WrongUdpChecksum);
    }
    Ok(Verdict::Done)
}

// For a host that sorts frames before it hands them on.
#[unsafe(no_mangle)]
pub extern "C" fn myrthakel_frame_check(port: u16, frame: &[u8]) -> u32
    ensures { result ≡ frame_check port frame.now }
{
    basics::answer_number(check(port, frame))
}

// Both checksums set anew, whatever else the frame says.
pub fn set_checksums(frame: &mut [u8])
    ensures { frame.new ≡ sealed frame.old }
{
    if frame.len() == FRAME_LENGTH {
        let ipv4 = ipv4_checksum(frame);
        let udp = udp_checksum(frame);
        numbers::write(frame, 24, ipv4);
        numbers::write(frame, 40, udp);
    }
}

// For a host that addresses a frame anew before it forwards it.
#[unsafe(no_mangle)]
pub extern "C" fn myrthakel_frame_seal(frame: &mut [u8]) -> u32
    ensures { outcome result frame.new ≡ frame_seal frame.old }
{
    if frame.len() != FRAME_LENGTH {
        return Refusal::WrongFrameLength as u32;
    }
    if !carries_udp(frame) {
        return Refusal::WrongFrameHeader as u32;
    }
    if numbers::read::<u16>(frame, 38) != UDP_LENGTH {
        return Refusal::WrongUdpHeader as u32;
    }
    set_checksums(frame);
    Verdict::Done as u32
}
