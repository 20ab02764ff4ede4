// The acceptor: obeys prepares and proposes at the cells of its lent tables.
#![tactic(auto)]

ghost use Rattle.std.specs.Prelude.{◌≡◌, length, Ok};
ghost use Rattle.basics.specs.Verdict.{verdict_number};
ghost use Rattle.basics.specs.Answer.{answer_number};
ghost use Rattle.basics.specs.Outcome.{outcome, lent};
ghost use Rattle.wire.specs.Packet.{packet_length};
ghost use Rattle.player.specs.Step.{ruled};
ghost use Rattle.quorum.specs.Settings.{settings};
ghost use Rattle.acceptor_rule.specs.Rule.{ruling_of};
ghost use Rattle.acceptor_tables.specs.Tables.{tables, cell_at, with_cell, Within};
ghost use Rattle.acceptor_tables.specs.Lent.{tables_behind, SameReferences};
ghost use Rattle.acceptor.specs.Acceptor.{acceptor_step};

use acceptor_rule::{Cell, Obeyed};
use acceptor_tables::Tables;
use basics::{Answer, Refusal, Round, Value, Verdict};
use quorum::Settings;

fn cell_at(tables: &Tables<'_>, index: usize) -> Cell
    requires { Within (tables_behind tables.now) index }
    ensures { result ≡ cell_at (tables_behind tables.now) index }
{
    let high = 2 * index;
    Cell {
        round: Round(tables.rounds[index]),
        vote_round: Round(tables.vote_rounds[index]),
        value: Value {
            high: tables.values[high],
            low: tables.values[high + 1],
        },
    }
}

fn store_cell(tables: &mut Tables<'_>, index: usize, cell: Cell)
    requires { Within (tables_behind tables.old) index }
    ensures stored { tables_behind tables.new ≡ with_cell (tables_behind tables.old) index cell }
    ensures same_references { SameReferences tables.old tables.new }
{
    let high = 2 * index;
    tables.rounds[index] = cell.round.0;
    tables.vote_rounds[index] = cell.vote_round.0;
    tables.values[high] = cell.value.high;
    tables.values[high + 1] = cell.value.low;
}

// What an obeyed order came to is stored and sent. One arm stores first and the other sends first: arms that are alike the compiler merges, which cost five
// instructions a packet when it was tried.
#[inline(always)]
fn carry_out(obeyed: Obeyed, packet: &mut [u8], tables: &mut Tables<'_>, index: usize) -> Verdict
    requires inside { Within (tables_behind tables.old) index }
    requires long { length packet.old ≡ packet_length }
    ensures ruled { let before = tables_behind tables.old in
        let left = lent packet.new (tables_behind tables.new) in
        outcome (verdict_number result) left ≡ ruled packet.old before (with_cell before index) (ruling_of (Ok obeyed)) }
    ensures same_references { SameReferences tables.old tables.new }
{
    match obeyed {
        Obeyed::Promised { cell, message } => {
            store_cell(tables, index, cell);
            wire::put_message(packet, message);
            Verdict::ToLeader
        }
        Obeyed::Voted { cell, message } => {
            wire::put_message(packet, message);
            store_cell(tables, index, cell);
            Verdict::ToLearners
        }
    }
}

// One packet: the verdict or the refusal, and packet and tables are left as `acceptor_step` says.
pub fn step(settings: Settings, own: u32, packet: &mut [u8], tables: &mut Tables<'_>) -> Answer
    ensures stepped { let left = lent packet.new (tables_behind tables.new) in
        outcome (answer_number result) left ≡ acceptor_step settings own packet.old (tables_behind tables.old) }
    ensures same_references { SameReferences tables.old tables.new }
{
    if !tables.are_allowed(settings, own) {
        return Err(Refusal::NotAllowed);
    }
    let message = wire::read_packet(packet)?;
    let Some(order) = acceptor_rule::order_of(message) else {
        return Err(Refusal::WrongKind);
    };
    let index = basics::place_of(settings.instances, order.instance)?;
    let cell = cell_at(tables, index);
    let obeyed = acceptor_rule::obey(own as u16, cell, order)?;
    Ok(carry_out(obeyed, packet, tables, index))
}

// The same for C, which lends each column by itself and is answered a number.
#[unsafe(no_mangle)]
pub extern "C" fn myrthakel_acceptor_step(
    acceptors: u32,
    instances: u32,
    own: u32,
    packet: &mut [u8],
    rounds: &mut [u32],
    vote_rounds: &mut [u32],
    values: &mut [u64],
) -> u32
    ensures { let before = tables rounds.old vote_rounds.old values.old in
        let after = tables rounds.new vote_rounds.new values.new in
        outcome result (lent packet.new after) ≡ acceptor_step (settings acceptors instances) own packet.old before }
{
    let settings = Settings {
        acceptors,
        instances,
    };
    let mut tables = Tables {
        rounds,
        vote_rounds,
        values,
    };
    basics::answer_number(step(settings, own, packet, &mut tables))
}
