// What the primary keeps, and the rule by which it takes a request: each request gets the next instance.
#![tactic(auto)]

ghost use Rattle.std.specs.Prelude.{◌≡◌};
ghost use Rattle.primary_rule.specs.Rule.{fresh_cell, possible, take_request, ruling_of};

use basics::{Instance, Refusal, Round, Value};
use messages::Message;

// What the primary keeps: one cell for all instances. Its caller may lend it by reference, so it is laid out as in C.
#[repr(C)]
#[derive(Clone, Copy)]
pub struct Cell {
    pub next: Instance,
}

// What a request that is taken comes to at the cell: the next cell and the message that goes out.
#[derive(Clone, Copy)]
pub struct Sent {
    pub cell: Cell,
    pub message: Message,
}

pub fn fresh_cell() -> Cell
    ensures { result ≡ fresh_cell }
{
    Cell { next: Instance(0) }
}

// Of the rules the primary's alone is given N, since its cell counts the instances.
pub fn is_possible(instances: u32, cell: Cell) -> bool
    ensures { result ≡ possible instances cell }
{
    cell.next.0 <= instances
}

// A request becomes a propose with the next instance, which rises by 1.
pub fn take_request(instances: u32, cell: Cell, value: Value) -> Result<Sent, Refusal>
    ensures { ruling_of result ≡ take_request instances cell value }
{
    if !is_possible(instances, cell) {
        return Err(Refusal::ImpossibleCell);
    }
    let instance = cell.next;
    if instance.0 == instances {
        return Err(Refusal::NoInstanceLeft);
    }
    let risen = instance.0 + 1;
    Ok(Sent {
        cell: Cell {
            next: Instance(risen),
        },
        message: Message::Propose {
            instance,
            round: Round(0),
            value,
        },
    })
}
