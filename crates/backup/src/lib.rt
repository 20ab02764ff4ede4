// A backup leader: started by hand, it asks the acceptors for promises, and at a majority proposes.
#![tactic(auto)]

ghost use Rattle.std.specs.Prelude.{◌≡◌, length, Ok};
ghost use Rattle.basics.specs.Verdict.{verdict_number};
ghost use Rattle.basics.specs.Answer.{answer_number};
ghost use Rattle.basics.specs.Outcome.{outcome, lent};
ghost use Rattle.basics.specs.Rounds.{the_instance};
ghost use Rattle.basics.specs.Values.{the_value};
ghost use Rattle.wire.specs.Packet.{packet_length};
ghost use Rattle.player.specs.Step.{ruled};
ghost use Rattle.quorum.specs.Settings.{settings};
ghost use Rattle.backup_rule.specs.Rule.{ruling_of};
ghost use Rattle.backup_tables.specs.Tables.{tables, with_cell};
ghost use Rattle.backup_tables.specs.Lent.{tables_behind, SameReferences};
ghost use Rattle.backup.specs.Backup.{backup_step, backup_start};

use backup_rule::Taken;
use backup_tables::Tables;
use basics::{Answer, Instance, Refusal, Value, Verdict};
use messages::Message;
use quorum::Settings;

// What a start or a promise came to is stored and sent. Inlined into both calls: a step took half as many instructions again when it was not.
#[inline(always)]
fn carry_out(taken: Taken, packet: &mut [u8], tables: &mut Tables<'_>, index: usize) -> Verdict
    requires { length packet.old ≡ packet_length }
    ensures ruled { let before = tables_behind tables.old in
        let left = lent packet.new (tables_behind tables.new) in
        outcome (verdict_number result) left ≡ ruled packet.old before (with_cell before index) (ruling_of (Ok taken)) }
    ensures same_references { SameReferences tables.old tables.new }
{
    match taken {
        Taken::Held { cell } => {
            tables.store_cell(index, cell);
            Verdict::Hold
        }
        Taken::Sent { cell, message } => {
            tables.store_cell(index, cell);
            wire::put_message(packet, message);
            Verdict::ToAcceptors
        }
    }
}

// ---- a start

// Starts the backup on an instance, for a value: a prepare is written over the buffer. Buffer and tables are left as `backup_start` says.
pub fn start(
    settings: Settings,
    own: u32,
    instance: Instance,
    floor: u32,
    value: Value,
    buffer: &mut [u8],
    tables: &mut Tables<'_>,
) -> Answer
    ensures started { let left = lent buffer.new (tables_behind tables.new) in
        outcome (answer_number result) left ≡ backup_start settings own instance floor value buffer.old (tables_behind tables.old) }
    ensures same_references { SameReferences tables.old tables.new }
{
    if !tables.are_allowed(settings, own) {
        return Err(Refusal::NotAllowed);
    }
    if buffer.len() != wire::PACKET_LENGTH {
        return Err(Refusal::WrongLength);
    }
    let index = basics::place_of(settings.instances, instance)?;
    let cell = tables.cell_at(index);
    let taken = backup_rule::start(settings.acceptors, own as u16, cell, instance, floor, value)?;
    Ok(carry_out(taken, buffer, tables, index))
}

// The same for C, which gives the value as two halves, lends each column by itself and is answered a number.
#[unsafe(no_mangle)]
pub extern "C" fn myrthakel_backup_start(
    acceptors: u32,
    instances: u32,
    own: u32,
    instance: u32,
    floor: u32,
    value_high: u64,
    value_low: u64,
    buffer: &mut [u8],
    rounds: &mut [u32],
    phases: &mut [u8],
    sets: &mut [u8],
    best_vote_rounds: &mut [u32],
    best_values: &mut [u64],
    own_values: &mut [u64],
) -> u32
    ensures { let before = tables rounds.old phases.old sets.old best_vote_rounds.old best_values.old
        own_values.old in
        let after = tables rounds.new phases.new sets.new best_vote_rounds.new best_values.new
        own_values.new in
        outcome result (lent buffer.new after)
        ≡ backup_start (settings acceptors instances) own (the_instance instance) floor (the_value value_high value_low) buffer.old before }
{
    let settings = Settings {
        acceptors,
        instances,
    };
    let value = Value {
        high: value_high,
        low: value_low,
    };
    let mut tables = Tables {
        rounds,
        phases,
        sets,
        best_vote_rounds,
        best_values,
        own_values,
    };
    let answer = start(
        settings,
        own,
        Instance(instance),
        floor,
        value,
        buffer,
        &mut tables,
    );
    basics::answer_number(answer)
}

// ---- a packet

// One packet: a promise is held, or at majority becomes a propose. Packet and tables are left as `backup_step` says.
pub fn step(settings: Settings, own: u32, packet: &mut [u8], tables: &mut Tables<'_>) -> Answer
    ensures stepped { let left = lent packet.new (tables_behind tables.new) in
        outcome (answer_number result) left ≡ backup_step settings own packet.old (tables_behind tables.old) }
    ensures same_references { SameReferences tables.old tables.new }
{
    if !tables.are_allowed(settings, own) {
        return Err(Refusal::NotAllowed);
    }
    let message = wire::read_packet(packet)?;
    let Message::Promise {
        sender,
        instance,
        round,
        vote_round,
        value,
    } = message
    else {
        return Err(Refusal::WrongKind);
    };
    let index = basics::place_of(settings.instances, instance)?; // of a promise
    let cell = tables.cell_at(index);
    let taken = backup_rule::take_promise(
        settings.acceptors,
        own as u16,
        cell,
        sender,
        instance,
        round,
        vote_round,
        value,
    )?;
    Ok(carry_out(taken, packet, tables, index))
}

// The same for C.
#[unsafe(no_mangle)]
pub extern "C" fn myrthakel_backup_step(
    acceptors: u32,
    instances: u32,
    own: u32,
    packet: &mut [u8],
    rounds: &mut [u32],
    phases: &mut [u8],
    sets: &mut [u8],
    best_vote_rounds: &mut [u32],
    best_values: &mut [u64],
    own_values: &mut [u64],
) -> u32
    ensures { let before = tables rounds.old phases.old sets.old best_vote_rounds.old best_values.old
        own_values.old in
        let after = tables rounds.new phases.new sets.new best_vote_rounds.new best_values.new
        own_values.new in
        outcome result (lent packet.new after) ≡ backup_step (settings acceptors instances) own packet.old before }
{
    let settings = Settings {
        acceptors,
        instances,
    };
    let mut tables = Tables {
        rounds,
        phases,
        sets,
        best_vote_rounds,
        best_values,
        own_values,
    };
    basics::answer_number(step(settings, own, packet, &mut tables))
}
