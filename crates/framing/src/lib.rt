// Framing: a started prepare, which has come in no frame, gets one.
#![tactic(auto)]

ghost use Rattle.std.specs.Prelude.{◌≡◌, ◌+◌, ◌≤◌, length};
ghost use Rattle.std.proofs.lemmas.List.Edits.{sets};
ghost use Rattle.basics.specs.Answer.{answer_number};
ghost use Rattle.basics.specs.Outcome.{outcome};
ghost use Rattle.frames.specs.Frame.{frame_length};
ghost use Rattle.frames.specs.Header.{ethernet_bytes, ipv4_bytes, udp_bytes};
ghost use Rattle.framing.specs.Framing.{addressed, frame_prepare};
ghost use Rattle.framing.specs.Given.{header};

use basics::{Answer, Refusal, Verdict};
use messages::Message;

const TIME_TO_LIVE: u16 = 64;

// The addresses and ports that a host frames a prepare with.
#[derive(Clone, Copy)]
struct Addresses<'a> {
    ethernet_to: &'a [u8; 6],
    ethernet_from: &'a [u8; 6],
    ip_from: u32,
    ip_to: u32,
    port_from: u16,
    port_to: u16,
}

fn put_address(frame: &mut [u8], at: usize, address: &[u8; 6])
    requires { at + 6 ≤ length frame.old }
    ensures { frame.new ≡ sets frame.old at address.now }
{
    numbers::write(frame, at, numbers::read::<u32>(address, 0));
    numbers::write(frame, at + 4, numbers::read::<u16>(address, 4));
}

// The destination comes first, other than in the headers within. How long the addresses are is said since a caller's struct does not tell.
fn put_ethernet(frame: &mut [u8], to: &[u8; 6], from: &[u8; 6])
    requires { length frame.old ≡ frame_length }
    ensures stored { frame.new ≡ sets frame.old 0 (ethernet_bytes to.now from.now) }
    ensures long { (length to.now ≡ 6) × (length from.now ≡ 6) }
{
    put_address(frame, 0, to);
    put_address(frame, 6, from);
    numbers::write(frame, 12, frames::ETHER_TYPE);
}

// Type of service, identification, flags and offset are zero, and so is the checksum, which is set later.
fn put_ipv4(frame: &mut [u8], from: u32, to: u32)
    requires { length frame.old ≡ frame_length }
    ensures { frame.new ≡ sets frame.old 14 (ipv4_bytes 0 0 0 64 from to) }
{
    numbers::write(frame, 14, (frames::FIRST_BYTE as u16) * 256);
    numbers::write(frame, 16, frames::TOTAL_LENGTH);
    numbers::write::<u32>(frame, 18, 0);
    numbers::write(frame, 22, TIME_TO_LIVE * 256 + (frames::PROTOCOL as u16));
    numbers::write::<u16>(frame, 24, 0);
    numbers::write(frame, 26, from);
    numbers::write(frame, 30, to);
}

fn put_udp(frame: &mut [u8], from: u16, to: u16)
    requires { length frame.old ≡ frame_length }
    ensures { frame.new ≡ sets frame.old 34 (udp_bytes from to) }
{
    numbers::write(frame, 34, from);
    numbers::write(frame, 36, to);
    numbers::write(frame, 38, frames::UDP_LENGTH);
    numbers::write::<u16>(frame, 40, 0);
}

// The packet is judged, and then the buffer, whose every byte is written.
fn prepare(addresses: &Addresses<'_>, packet: &[u8], frame: &mut [u8]) -> Answer
    ensures { outcome (answer_number result) frame.new ≡ frame_prepare (header addresses.now) packet.now frame.old }
{
    let message = wire::read_packet(packet)?;
    let Message::Prepare {
        instance: _,
        round: _,
    } = message
    else {
        return Err(Refusal::WrongKind);
    };
    if frame.len() != frames::FRAME_LENGTH {
        return Err(Refusal::WrongFrameLength);
    }
    put_ethernet(frame, addresses.ethernet_to, addresses.ethernet_from);
    put_ipv4(frame, addresses.ip_from, addresses.ip_to);
    put_udp(frame, addresses.port_from, addresses.port_to);
    wire::put_message(&mut frame[frames::PACKET_AT..frames::FRAME_LENGTH], message);
    frames::set_checksums(frame);
    Ok(Verdict::Done)
}

#[unsafe(no_mangle)]
pub extern "C" fn myrthakel_frame_prepare(
    packet: &[u8],
    ethernet_to: &[u8; 6],
    ethernet_from: &[u8; 6],
    ip_from: u32,
    ip_to: u32,
    port_from: u16,
    port_to: u16,
    frame: &mut [u8],
) -> u32
    ensures { let header = addressed ethernet_to.now ethernet_from.now ip_from ip_to port_from port_to in
        outcome result frame.new ≡ frame_prepare header packet.now frame.old }
{
    let addresses = Addresses {
        ethernet_to,
        ethernet_from,
        ip_from,
        ip_to,
        port_from,
        port_to,
    };
    basics::answer_number(prepare(&addresses, packet, frame))
}
