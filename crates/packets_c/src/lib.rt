// What C calls of packets: each call has the clauses of the function that it stands for, word for word.
#![tactic(auto)]

ghost use Rattle.std.specs.Prelude.{◌≡◌};
ghost use Rattle.basics.specs.Outcome.{outcome};
ghost use Rattle.packets.specs.Packets.{numbered, packet_write, packet_read};

#[unsafe(no_mangle)]
pub extern "C" fn myrthakel_packet_write(
    kind: u32,
    switch_number: u32,
    instance: u32,
    round: u32,
    vote_round: u32,
    value_high: u64,
    value_low: u64,
    packet: &mut [u8],
) -> u32
    ensures { let given = numbered kind switch_number «instance» round vote_round value_high value_low in
        outcome result packet.new ≡ packet_write given packet.old }
{
    packets::myrthakel_packet_write(
        kind,
        switch_number,
        instance,
        round,
        vote_round,
        value_high,
        value_low,
        packet,
    )
}

#[unsafe(no_mangle)]
pub extern "C" fn myrthakel_packet_read(
    packet: &[u8],
    kind: &mut u32,
    switch_number: &mut u32,
    instance: &mut u32,
    round: &mut u32,
    vote_round: &mut u32,
    value_high: &mut u64,
    value_low: &mut u64,
) -> u32
    ensures { let before = numbered kind.old switch_number.old «instance».old round.old vote_round.old
        value_high.old value_low.old in
        let after = numbered kind.new switch_number.new «instance».new round.new vote_round.new
        value_high.new value_low.new in
        outcome result after ≡ packet_read packet.now before }
{
    packets::myrthakel_packet_read(
        packet,
        kind,
        switch_number,
        instance,
        round,
        vote_round,
        value_high,
        value_low,
    )
}
