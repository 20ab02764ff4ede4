// What a learner keeps of one instance, the votes of one round, and which of that is possible and decided.
#![tactic(auto)]

ghost use Rattle.std.specs.Prelude.{◌≡◌};
ghost use Rattle.learner_cell.specs.Cell.{fresh_cell, is_decided, has_vote, value_of, is_fresh, is_heard, possible, with_voter};

use basics::{Round, Value};

#[derive(Clone, Copy, PartialEq, Eq)]
pub struct Cell {
    pub round: Round,
    pub set: u8,
    pub value: Value,
}

pub fn fresh_cell() -> Cell
    ensures { result ≡ fresh_cell }
{
    Cell {
        round: Round::NONE,
        set: 0,
        value: Value::NULL,
    }
}

// An instance is decided when its set has at least majority bits set.
pub fn is_decided(acceptors: u32, cell: Cell) -> bool
    ensures { result ≡ is_decided acceptors cell }
{
    quorum::reaches_majority(acceptors, cell.set)
}

// With a vote in its set, whatever that is for: a vote for null is one too.
pub fn has_vote(cell: Cell) -> bool
    ensures { result ≡ has_vote cell }
{
    cell.set != 0
}

// The value of a decided cell. A cell holds one, whatever M is.
pub fn value_of(acceptors: u32, cell: Cell) -> Value
    ensures { result ≡ value_of acceptors cell }
{
    cell.value
}

fn is_fresh(cell: Cell) -> bool
    ensures { result ≡ is_fresh cell }
{
    cell == fresh_cell()
}

fn is_heard(acceptors: u32, cell: Cell) -> bool
    ensures { result ≡ is_heard acceptors cell }
{
    basics::owned_or_0(cell.round)
        & quorum::is_within(acceptors, cell.set)
        & !(cell.set == 0)
        & (quorum::size(cell.set) <= quorum::majority(acceptors))
}

pub fn is_possible(acceptors: u32, cell: Cell) -> bool
    ensures { result ≡ possible acceptors cell }
{
    is_fresh(cell) || is_heard(acceptors, cell)
}

// The cell of a round and value with one more voter, whose set was this before.
pub fn with_voter(before: u8, sender: u16, round: Round, value: Value) -> Cell
    ensures { result ≡ with_voter before sender round value }
{
    let set = quorum::with_member(before, sender);
    Cell { round, set, value }
}
