// What C calls of framing: each call has the clauses of the function that it stands for, word for word.
#![tactic(auto)]

ghost use Rattle.std.specs.Prelude.{◌≡◌};
ghost use Rattle.basics.specs.Outcome.{outcome};
ghost use Rattle.framing.specs.Framing.{addressed, frame_prepare};

#[unsafe(no_mangle)]
pub extern "C" fn myrthakel_frame_prepare(
    packet: &[u8],
    ethernet_to: &[u8; 6],
    ethernet_from: &[u8; 6],
    ip_from: u32,
    ip_to: u32,
    port_from: u16,
    port_to: u16,
    frame: &mut [u8],
) -> u32
    ensures { let header = addressed ethernet_to.now ethernet_from.now ip_from ip_to port_from port_to in
        outcome result frame.new ≡ frame_prepare header packet.now frame.old }
{
    framing::myrthakel_frame_prepare(
        packet,
        ethernet_to,
        ethernet_from,
        ip_from,
        ip_to,
        port_from,
        port_to,
        frame,
    )
}
