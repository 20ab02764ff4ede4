// What all players share: instances and rounds, values, places and verdicts.
#![tactic(auto)]

ghost use Rattle.std.specs.Prelude.{◌≡◌};
ghost use Rattle.basics.specs.Rounds.{is_none, owner_of, owned_or_0, owned_not_0, rank, at_most, same_round};
ghost use Rattle.basics.specs.Values.{is_null, same_value};
ghost use Rattle.basics.specs.Votes.{is_vote_up_to};
ghost use Rattle.basics.specs.Places.{placed, place_of};
ghost use Rattle.basics.specs.Verdict.{verdict_number};
ghost use Rattle.basics.specs.Refusal.{refusal_number};
ghost use Rattle.basics.specs.Answer.{answer_number};

#[repr(C)]
#[derive(Clone, Copy, PartialEq, Eq)]
pub struct Instance(pub u32);

#[derive(Clone, Copy, PartialEq, Eq)]
pub struct Round(pub u32);

// Sixteen bytes, as two big-endian halves.
#[derive(Clone, Copy, PartialEq, Eq)]
pub struct Value {
    pub high: u64,
    pub low: u64,
}

// What a call says to do. `Done` is for the calls that send and count nothing, and the last two for those that have nothing to tell.
#[derive(Clone, Copy, PartialEq, Eq)]
pub enum Verdict {
    ToAcceptors = 101,
    ToLeader = 102,
    ToLearners = 103,
    Hold = 104,
    Decided = 105,
    Done = 106,
    NotYet = 107,
    NoHole = 108,
}

// Why a call refuses, in the paper's numbers: those from 21 on are of frames, those from 30 on of the ledger.
#[derive(Clone, Copy, PartialEq, Eq)]
pub enum Refusal {
    WrongLength = 1,
    WrongMark = 2,
    WrongVersion = 3,
    UnknownType = 4,
    BrokenField = 5,
    WrongKind = 6,
    NotAllowed = 7,
    InstanceBeyond = 8,
    SenderBeyond = 9,
    RoundBelow = 10,
    NotAsked = 11,
    NoInstanceLeft = 12,
    OtherValue = 13,
    AlreadyDecided = 14,
    AlreadyCounted = 15,
    NoRoundLeft = 16,
    ImpossibleCell = 17,
    WrongFrameLength = 21,
    WrongFrameHeader = 22,
    WrongIpv4Checksum = 23,
    WrongUdpHeader = 24,
    WrongUdpChecksum = 25,
    UnsoundLedger = 30,
    MalformedEntry = 31,
    PassExists = 32,
    LedgerFull = 33,
    UnknownPass = 34,
    DayPast = 35,
    ScanNotNewer = 36,
    NoRideLeft = 37,
}

// The round number that marks "none".
pub const NONE: u32 = 4294967295;

impl Round {
    pub const NONE: Round = Round(NONE);
}

impl Value {
    pub const NULL: Value = Value { high: 0, low: 0 };
}

// The owners' numbers are 0 to 3, and this is the number of nobody.
pub const NOBODY: u16 = 4;

pub fn is_none(round: Round) -> bool
    ensures { result ≡ is_none round }
{
    round.0 == NONE
}

// Who owns a round: 0 the primary, 1 to 3 that backup, or nobody. 0 and none, whose low two bits are 0 and 3, go by name before the bits are looked at.
pub fn owner(round: Round) -> u16
    ensures { result ≡ owner_of round }
{
    let number = round.0;
    if number == 0 {
        return 0;
    }
    if number == NONE {
        return NOBODY;
    }
    let low_bits = number & 3;
    if low_bits == 0 {
        return NOBODY;
    }
    low_bits as u16
}

pub fn owned_or_0(round: Round) -> bool
    ensures { result ≡ owned_or_0 round }
{
    owner(round) <= 3
}

pub fn owned_not_0(round: Round) -> bool
    ensures { result ≡ owned_not_0 round }
{
    let number = owner(round);
    (1 <= number) & (number <= 3)
}

// One more than the round. None, the largest number of 32 bits, wraps to 0: any beats none.
fn rank_of(round: Round) -> u32
    ensures { result ≡ rank round }
{
    std::num::wrapping_add_u32(round.0, 1)
}

pub fn at_most(a: Round, b: Round) -> bool
    ensures { result ≡ at_most a b }
{
    rank_of(a) <= rank_of(b)
}

pub fn same_round(a: Round, b: Round) -> bool
    ensures { result ≡ same_round a b }
{
    a == b
}

pub fn is_null(value: Value) -> bool
    ensures { result ≡ is_null value }
{
    value == Value::NULL
}

pub fn same_value(v: Value, w: Value) -> bool
    ensures { result ≡ same_value v w }
{
    v == w
}

// A vote round none is looked at first, so that a cell that never voted takes one branch.
pub fn is_vote_up_to(round: Round, vote_round: Round, value: Value) -> bool
    ensures { result ≡ is_vote_up_to round vote_round value }
{
    if is_none(vote_round) {
        return is_null(value);
    }
    owned_or_0(vote_round) && at_most(vote_round, round)
}

// A cell is chosen by an instance alone.
pub fn place_of(instances: u32, instance: Instance) -> Result<usize, Refusal>
    ensures { place_of result ≡ placed instances instance }
{
    let number = instance.0;
    if number < instances {
        return Ok(number as usize);
    }
    Err(Refusal::InstanceBeyond)
}

// Verdicts as numbers lie above every refusal.
pub fn verdict_number(verdict: Verdict) -> u32
    ensures { result ≡ verdict_number verdict }
{
    verdict as u32
}

pub fn refusal_number(refusal: Refusal) -> u32
    ensures { result ≡ refusal_number refusal }
{
    refusal as u32
}

// What a call comes to.
pub type Answer = Result<Verdict, Refusal>;

// What C is answered: the verdict's number, or the refusal's.
pub fn answer_number(answer: Answer) -> u32
    ensures { result ≡ answer_number answer }
{
    match answer {
        Ok(verdict) => verdict_number(verdict),
        Err(refusal) => refusal_number(refusal),
    }
}
