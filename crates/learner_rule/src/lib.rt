// The rule by which a learner counts a vote at a cell.
#![tactic(auto)]

ghost use Rattle.std.specs.Prelude.{◌≡◌, Ok};
ghost use Rattle.learner_rule.specs.Rule.{hold_or_decide, count_vote, ruling_of};

use basics::{Refusal, Round, Value, Verdict};
use learner_cell::Cell;

// What a vote that counts comes to at a cell: hold, or decided, and the next cell.
#[derive(Clone, Copy)]
pub struct Counted {
    pub verdict: Verdict,
    pub cell: Cell,
}

fn hold_or_decide(acceptors: u32, next: Cell) -> Counted
    ensures { ruling_of (Ok result) ≡ hold_or_decide acceptors next }
{
    if learner_cell::is_decided(acceptors, next) {
        return Counted {
            verdict: Verdict::Decided,
            cell: next,
        };
    }
    Counted {
        verdict: Verdict::Hold,
        cell: next,
    }
}

pub fn count_vote(
    acceptors: u32,
    cell: Cell,
    sender: u16,
    round: Round,
    value: Value,
) -> Result<Counted, Refusal>
    ensures { ruling_of result ≡ count_vote acceptors cell sender round value }
{
    if acceptors <= (sender as u32) {
        return Err(Refusal::SenderBeyond);
    }
    if !learner_cell::is_possible(acceptors, cell) {
        return Err(Refusal::ImpossibleCell);
    }
    if learner_cell::is_decided(acceptors, cell) {
        return Err(Refusal::AlreadyDecided);
    }
    if !basics::at_most(cell.round, round) {
        return Err(Refusal::RoundBelow);
    }
    if !basics::same_round(round, cell.round) {
        let next = learner_cell::with_voter(0, sender, round, value);
        return Ok(hold_or_decide(acceptors, next));
    }
    if !basics::same_value(value, cell.value) {
        return Err(Refusal::OtherValue);
    }
    if quorum::has_member(cell.set, sender) {
        return Err(Refusal::AlreadyCounted);
    }
    let next = learner_cell::with_voter(cell.set, sender, round, value);
    Ok(hold_or_decide(acceptors, next))
}
