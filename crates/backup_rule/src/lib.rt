// A backup's rules at one cell: how it starts, and how promises are counted.
#![tactic(auto)]

ghost use Rattle.std.specs.Prelude.{◌≡◌, max, Ok};
ghost use Rattle.backup_rule.specs.Rule.{next_round, start, counting, chosen, when_majority, take_promise, ruling_of};

use backup_cell::Cell;
use basics::{Instance, Refusal, Round, Value};
use messages::Message;

// What a start or a promise that is taken comes to at a cell: the next cell, and the message that goes out where one does.
#[derive(Clone, Copy)]
pub enum Taken {
    Sent { cell: Cell, message: Message },
    Held { cell: Cell },
}

// ---- start

// The first of the four numbers above both whose low two bits are this backup's. The floor is any 32-bit number and no round, so the two are compared as
// numbers. Wide enough for four more: past the last round the answer is no round either.
fn next_round(own: u16, held: Round, floor: u32) -> u64
    ensures { result ≡ next_round own (max held.0 floor) }
{
    let number = held.0;
    let above = (if number < floor { floor } else { number }) as u64;
    let own_bits = (own as u64) & 3;
    if ((above + 1) & 3) == own_bits {
        return above + 1;
    }
    if ((above + 2) & 3) == own_bits {
        return above + 2;
    }
    if ((above + 3) & 3) == own_bits {
        return above + 3;
    }
    above + 4
}

pub fn start(
    acceptors: u32,
    own: u16,
    cell: Cell,
    instance: Instance,
    floor: u32,
    value: Value,
) -> Result<Taken, Refusal>
    ensures { ruling_of result ≡ start acceptors own cell instance floor value }
{
    if !backup_cell::is_possible(acceptors, own, cell) {
        return Err(Refusal::ImpossibleCell);
    }
    let next = next_round(own, cell.round, floor);
    if (basics::NONE as u64) <= next {
        return Err(Refusal::NoRoundLeft);
    }
    let round = Round(next as u32);
    Ok(Taken::Sent {
        cell: Cell {
            round,
            phase: backup_cell::ASKING,
            set: 0,
            best_vote_round: Round::NONE,
            best_value: Value::NULL,
            own_value: value,
        },
        message: Message::Prepare { instance, round },
    })
}

// ---- promises

// The sender is added, and a vote round above the best becomes the best, with its value.
fn count_promise(cell: Cell, sender: u16, vote_round: Round, value: Value) -> Cell
    ensures { result ≡ counting cell sender vote_round value }
{
    let set = quorum::with_member(cell.set, sender);
    if basics::at_most(vote_round, cell.best_vote_round) {
        return Cell { set, ..cell };
    }
    Cell {
        set,
        best_vote_round: vote_round,
        best_value: value,
        ..cell
    }
}

fn choose(cell: Cell) -> Value
    ensures { result ≡ chosen cell }
{
    if basics::is_none(cell.best_vote_round) {
        return cell.own_value;
    }
    cell.best_value
}

fn propose_at_majority(acceptors: u32, instance: Instance, cell: Cell) -> Taken
    ensures { ruling_of (Ok result) ≡ when_majority acceptors instance cell }
{
    if !quorum::reaches_majority(acceptors, cell.set) {
        return Taken::Held { cell };
    }
    Taken::Sent {
        cell: Cell {
            phase: backup_cell::PROPOSED,
            ..cell
        },
        message: Message::Propose {
            instance,
            round: cell.round,
            value: choose(cell),
        },
    }
}

pub fn take_promise(
    acceptors: u32,
    own: u16,
    cell: Cell,
    sender: u16,
    instance: Instance,
    round: Round,
    vote_round: Round,
    value: Value,
) -> Result<Taken, Refusal>
    ensures { ruling_of result ≡ take_promise acceptors own cell sender instance round vote_round value }
{
    if acceptors <= (sender as u32) {
        return Err(Refusal::SenderBeyond);
    }
    if !backup_cell::is_possible(acceptors, own, cell) {
        return Err(Refusal::ImpossibleCell);
    }
    if !((cell.phase == backup_cell::ASKING) & basics::same_round(round, cell.round)) {
        return Err(Refusal::NotAsked);
    }
    if quorum::has_member(cell.set, sender) {
        return Err(Refusal::AlreadyCounted);
    }
    let counted = count_promise(cell, sender, vote_round, value);
    Ok(propose_at_majority(acceptors, instance, counted))
}
