// What a backup keeps of one instance, and which of that is possible.
#![tactic(auto)]

ghost use Rattle.std.specs.Prelude.{◌≡◌};
ghost use Rattle.backup_cell.specs.Cell.{fresh_cell, phase_fits, is_started, possible};

use basics::{Round, Value};

// What a backup keeps of one instance. The phase is its number in the lent table; any other number is an impossible cell.
#[derive(Clone, Copy, PartialEq, Eq)]
pub struct Cell {
    pub round: Round,
    pub phase: u8,
    pub set: u8,
    pub best_vote_round: Round,
    pub best_value: Value,
    pub own_value: Value,
}

pub const IDLE: u8 = 0;

pub const ASKING: u8 = 1;

pub const PROPOSED: u8 = 2;

pub fn fresh_cell() -> Cell
    ensures { result ≡ fresh_cell }
{
    Cell {
        round: Round(0),
        phase: IDLE,
        set: 0,
        best_vote_round: Round::NONE,
        best_value: Value::NULL,
        own_value: Value::NULL,
    }
}

fn phase_fits(acceptors: u32, phase: u8, set: u8) -> bool
    ensures { result ≡ phase_fits acceptors phase set }
{
    let members = quorum::size(set);
    let majority = quorum::majority(acceptors);
    ((phase == ASKING) & (members < majority)) | ((phase == PROPOSED) & (members == majority))
}

fn is_started(acceptors: u32, own: u16, cell: Cell) -> bool
    ensures { result ≡ is_started acceptors own cell }
{
    basics::owner(cell.round) == own
        && (quorum::is_within(acceptors, cell.set)
            & basics::is_vote_up_to(cell.round, cell.best_vote_round, cell.best_value)
            & phase_fits(acceptors, cell.phase, cell.set)
            & (!(cell.set == 0) | basics::is_none(cell.best_vote_round)))
}

// Inlined into both rules: a start took a tenth as many instructions again when it was called.
#[inline(always)]
pub fn is_possible(acceptors: u32, own: u16, cell: Cell) -> bool
    ensures { result ≡ possible acceptors own cell }
{
    cell == fresh_cell() || is_started(acceptors, own, cell)
}
