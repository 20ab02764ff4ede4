// Messages: the fields of a packet, the packet table, and what a packet that keeps it says.
#![tactic(auto)]

ghost use Rattle.std.specs.Prelude.{◌≡◌};
ghost use Rattle.messages.specs.Table.{by_owner, request_row, prepare_row, promise_row, propose_row, vote_row, all_kept, keeps_table};
ghost use Rattle.messages.specs.Message.{message_of, fields_of};

use basics::{Instance, Round, Value};

// The fields of a packet, as they stand there. `kind` is its type.
#[derive(Clone, Copy)]
pub struct Fields {
    pub kind: u8,
    pub switch: u16,
    pub instance: Instance,
    pub round: Round,
    pub vote_round: Round,
    pub value: Value,
}

// Which columns of the packet table the fields keep.
#[derive(Clone, Copy)]
pub struct Row {
    pub switch: bool,
    pub instance: bool,
    pub round: bool,
    pub vote_round: bool,
    pub value: bool,
}

// What a packet says. The fields that its row of the packet table fixes are left out.
#[derive(Clone, Copy)]
pub enum Message {
    Request {
        switch: u16,
        value: Value,
    },
    Prepare {
        instance: Instance,
        round: Round,
    },
    Promise {
        sender: u16,
        instance: Instance,
        round: Round,
        vote_round: Round,
        value: Value,
    },
    Propose {
        instance: Instance,
        round: Round,
        value: Value,
    },
    Vote {
        sender: u16,
        instance: Instance,
        round: Round,
        value: Value,
    },
}

fn request_row(f: Fields) -> Row
    ensures { result ≡ request_row f }
{
    Row {
        switch: true,
        instance: f.instance.0 == 0,
        round: basics::same_round(f.round, Round(0)),
        vote_round: basics::is_none(f.vote_round),
        value: !basics::is_null(f.value),
    }
}

fn prepare_row(f: Fields) -> Row
    ensures { result ≡ prepare_row f }
{
    Row {
        switch: by_owner(f),
        instance: true,
        round: basics::owned_not_0(f.round),
        vote_round: basics::is_none(f.vote_round),
        value: basics::is_null(f.value),
    }
}

fn promise_row(f: Fields) -> Row
    ensures { result ≡ promise_row f }
{
    let never = basics::is_none(f.vote_round);
    let before = basics::owned_or_0(f.vote_round) & basics::at_most(f.vote_round, f.round);
    Row {
        switch: f.switch <= 6,
        instance: true,
        round: basics::owned_not_0(f.round),
        vote_round: never | before,
        value: !never | basics::is_null(f.value),
    }
}

fn propose_row(f: Fields) -> Row
    ensures { result ≡ propose_row f }
{
    Row {
        switch: by_owner(f),
        instance: true,
        round: basics::owned_or_0(f.round),
        vote_round: basics::is_none(f.vote_round),
        value: true,
    }
}

fn vote_row(f: Fields) -> Row
    ensures { result ≡ vote_row f }
{
    Row {
        switch: f.switch <= 6,
        instance: true,
        round: basics::owned_or_0(f.round),
        vote_round: basics::same_round(f.vote_round, f.round),
        value: true,
    }
}

fn by_owner(f: Fields) -> bool
    ensures { result ≡ by_owner f }
{
    let number = basics::owner(f.round);
    (number == basics::NOBODY) | (f.switch == number)
}

fn all_kept(row: Row) -> bool
    ensures { result ≡ all_kept row }
{
    row.switch & row.instance & row.round & row.vote_round & row.value
}

// Each arm looks at the columns of its own row alone. A round that breaks it is told before the others are looked at, where that is faster.
pub fn keeps_table(f: Fields) -> bool
    ensures { result ≡ keeps_table f }
{
    let kind = f.kind;
    match kind {
        0 => all_kept(request_row(f)),
        1 => basics::owned_not_0(f.round) && all_kept(prepare_row(f)),
        2 => all_kept(promise_row(f)),
        3 => basics::owned_or_0(f.round) && all_kept(propose_row(f)),
        4 => basics::owned_or_0(f.round) && all_kept(vote_row(f)),
        _ => false,
    }
}

pub fn message_of(f: Fields) -> Message
    ensures { result ≡ message_of f }
{
    let Fields {
        kind,
        switch,
        instance,
        round,
        vote_round,
        value,
    } = f;
    match kind {
        0 => Message::Request { switch, value },
        1 => Message::Prepare { instance, round },
        2 => Message::Promise {
            sender: switch,
            instance,
            round,
            vote_round,
            value,
        },
        3 => Message::Propose {
            instance,
            round,
            value,
        },
        _ => Message::Vote {
            sender: switch,
            instance,
            round,
            value,
        },
    }
}

#[inline(always)]
pub fn fields_of(message: Message) -> Fields
    ensures { result ≡ fields_of message }
{
    match message {
        Message::Request { switch, value } => Fields {
            kind: 0,
            switch,
            instance: Instance(0),
            round: Round(0),
            vote_round: Round::NONE,
            value,
        },
        Message::Prepare { instance, round } => Fields {
            kind: 1,
            switch: basics::owner(round),
            instance,
            round,
            vote_round: Round::NONE,
            value: Value::NULL,
        },
        Message::Promise {
            sender,
            instance,
            round,
            vote_round,
            value,
        } => Fields {
            kind: 2,
            switch: sender,
            instance,
            round,
            vote_round,
            value,
        },
        Message::Propose {
            instance,
            round,
            value,
        } => Fields {
            kind: 3,
            switch: basics::owner(round),
            instance,
            round,
            vote_round: Round::NONE,
            value,
        },
        Message::Vote {
            sender,
            instance,
            round,
            value,
        } => Fields {
            kind: 4,
            switch: sender,
            instance,
            round,
            vote_round: round,
            value,
        },
    }
}
