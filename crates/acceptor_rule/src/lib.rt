// What an acceptor keeps of one instance, and the rule by which it obeys a prepare or a propose.
#![tactic(auto)]

ghost use Rattle.std.specs.Prelude.{◌≡◌, Ok};
ghost use Rattle.acceptor_rule.specs.Rule.{fresh_cell, possible, order_of, promising, voting, obey, ruling_of};

use basics::{Instance, Refusal, Round, Value};
use messages::Message;

// What an acceptor keeps of one instance.
#[derive(Clone, Copy)]
pub struct Cell {
    pub round: Round,
    pub vote_round: Round,
    pub value: Value,
}

// A prepare or a propose: what it asks of an acceptor. Instance and round stand apart, since the compiler moves two neighbours as one number and then has
// to part them.
#[derive(Clone, Copy)]
pub struct Order {
    pub instance: Instance,
    pub asked: Asked,
    pub round: Round,
}

#[derive(Clone, Copy)]
pub enum Asked {
    Promise,
    Vote { value: Value },
}

// What an order that is obeyed comes to at a cell: the next cell and the message that goes out.
#[derive(Clone, Copy)]
pub enum Obeyed {
    Promised { cell: Cell, message: Message },
    Voted { cell: Cell, message: Message },
}

pub fn fresh_cell() -> Cell
    ensures { result ≡ fresh_cell }
{
    Cell {
        round: Round(0),
        vote_round: Round::NONE,
        value: Value::NULL,
    }
}

pub fn is_possible(cell: Cell) -> bool
    ensures { result ≡ possible cell }
{
    basics::owned_or_0(cell.round) && basics::is_vote_up_to(cell.round, cell.vote_round, cell.value)
}

// What a message orders. One of another kind is no acceptor's.
pub fn order_of(message: Message) -> Option<Order>
    ensures { result ≡ order_of message }
{
    match message {
        Message::Prepare { instance, round } => Some(Order {
            instance,
            round,
            asked: Asked::Promise,
        }),
        Message::Propose {
            instance,
            round,
            value,
        } => Some(Order {
            instance,
            round,
            asked: Asked::Vote { value },
        }),
        _ => None,
    }
}

// The cell's round becomes the packet's; out goes a promise with the cell's vote round and value.
fn promise(own: u16, cell: Cell, instance: Instance, round: Round) -> Obeyed
    ensures { ruling_of (Ok result) ≡ promising own cell «instance» round }
{
    let vote_round = cell.vote_round;
    let value = cell.value;
    Obeyed::Promised {
        cell: Cell {
            round,
            vote_round,
            value,
        },
        message: Message::Promise {
            sender: own,
            instance,
            round,
            vote_round,
            value,
        },
    }
}

// Round and vote round become the packet's round, and the value its value; out goes a vote.
fn vote(own: u16, instance: Instance, round: Round, value: Value) -> Obeyed
    ensures { ruling_of (Ok result) ≡ voting own «instance» round value }
{
    Obeyed::Voted {
        cell: Cell {
            round,
            vote_round: round,
            value,
        },
        message: Message::Vote {
            sender: own,
            instance,
            round,
            value,
        },
    }
}

// Obeyed when its round is at least the cell's.
pub fn obey(own: u16, cell: Cell, order: Order) -> Result<Obeyed, Refusal>
    ensures { ruling_of result ≡ obey own cell order }
{
    if !is_possible(cell) {
        return Err(Refusal::ImpossibleCell);
    }
    if !basics::at_most(cell.round, order.round) {
        return Err(Refusal::RoundBelow);
    }
    let instance = order.instance;
    let round = order.round;
    let asked = order.asked;
    match asked {
        Asked::Promise => Ok(promise(own, cell, instance, round)),
        Asked::Vote { value } => Ok(vote(own, instance, round, value)),
    }
}
