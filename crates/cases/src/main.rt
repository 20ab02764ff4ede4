// Runs the cases of the paper that are not starred, and the change requests' cases of holes and of rounds, M = 3, N = 8 unless said, and prints each with its
// answer. The starred ones are proved, in proved_cases, and so are those of holes and of rounds.
#![tactic(auto)]

use basics::{Instance, Refusal, Round, Value};
use learner_cell::Cell;
use learner_tables::SharedTables;
use messages::Message;
use quorum::Settings;
use std::io;

const SETTINGS: Settings = Settings {
    acceptors: 3,
    instances: 8,
};

// A value ending in 2a, other bytes zero.
const VALUE: Value = Value { high: 0, low: 42 };

fn main(rt: HostRuntime) -> io::Result<()> {
    println!(rt; "instance 7: {}", propose_to_acceptor(7))?;
    println!(rt; "instance 8: {}", propose_to_acceptor(8))?;
    println!(rt; "35 bytes: {}", give_to_fresh_acceptor(&mut [0; 35]))?;
    println!(rt; "37 bytes: {}", give_to_fresh_acceptor(&mut [0; 37]))?;
    requests_for_one_instance(&rt)?;
    first_holes(&rt)?;
    owners_and_next_rounds(&rt)
}

fn packet_of(message: Message) -> [u8; 36] {
    let mut packet = [0; 36];
    wire::put_message(&mut packet, message);
    packet
}

fn give_to_fresh_acceptor(packet: &mut [u8]) -> u32 {
    let mut tables = acceptor_tables::Tables {
        rounds: &mut [0; 8],
        vote_rounds: &mut [basics::NONE; 8],
        values: &mut [0; 16],
    };
    basics::answer_number(acceptor::step(SETTINGS, 0, packet, &mut tables))
}

fn propose_to_acceptor(instance: u32) -> u32 {
    give_to_fresh_acceptor(&mut packet_of(Message::Propose {
        instance: Instance(instance),
        round: Round(0),
        value: VALUE,
    }))
}

fn requests_for_one_instance(rt: &impl Print) -> io::Result<()> {
    let settings = Settings {
        acceptors: 3,
        instances: 1,
    };
    let mut next = [0; 1];
    for name in ["first", "second"] {
        let mut packet = packet_of(Message::Request {
            switch: 9,
            value: VALUE,
        });
        let answer = primary::step_slice(settings, &mut packet, &mut next);
        println!(rt; "N = 1, {name} request: {}", basics::answer_number(answer))?;
    }
    Ok(())
}

// ---- holes

// By M, the sets of cells 0 to 7, a digit each, and the value voted for: a vote is 1, two are 3, three are 7.
fn first_holes(rt: &impl Print) -> io::Result<()> {
    let of_eight = [
        // all fresh
        (3, 0x0000_0000, 42),
        // 1 vote in 0
        (3, 0x1000_0000, 42),
        // 0 and 1 decided, one vote in 2
        (3, 0x3310_0000, 42),
        // 5 untouched, one vote in 6, nothing decided; 6 decided, and those before 5
        (3, 0x0000_0010, 42),
        (3, 0x3333_3030, 42),
        // 0 and 2 decided, 1 untouched, one vote in 3
        (3, 0x3031_0000, 42),
        // 0 untouched, one vote in 1, 3 decided
        (3, 0x0103_0000, 42),
        // all but 7 decided, one vote in 7
        (3, 0x3333_3331, 42),
        // all decided
        (3, 0x3333_3333, 42),
    ];
    for (acceptors, sets, low) in of_eight {
        print_hole_of(rt, acceptors, sets, low)?;
    }
    // N = 1, one vote; decided
    print_hole_of_one(rt, 1, 42)?;
    print_hole_of_one(rt, 3, 42)?;
    let others = [
        // M = 5, two votes in 0; three votes in 0
        (5, 0x3000_0000, 42),
        (5, 0x7000_0000, 42),
        // a vote for null, one of three, in 0
        (3, 0x1000_0000, 0),
    ];
    for (acceptors, sets, low) in others {
        print_hole_of(rt, acceptors, sets, low)?;
    }
    Ok(())
}

fn print_hole_of(rt: &impl Print, acceptors: u32, digits: u32, low: u64) -> io::Result<()> {
    let mut rounds = [0; 8];
    let mut sets = [0; 8];
    let mut values = [0; 16];
    let mut tables = learner_tables::Tables {
        rounds: &mut rounds,
        sets: &mut sets,
        values: &mut values,
    };
    store_cells(&mut tables, digits, low);
    let settings = Settings {
        acceptors,
        instances: 8,
    };
    let tables = SharedTables {
        rounds: &rounds,
        sets: &sets,
        values: &values,
    };
    print!(rt; "sets {digits:08x} for value {low}, M = {acceptors}")?;
    print_hole(rt, learner_holes::find_hole(settings, &tables))
}

fn print_hole_of_one(rt: &impl Print, set: u8, low: u64) -> io::Result<()> {
    let settings = Settings {
        acceptors: 3,
        instances: 1,
    };
    let tables = SharedTables {
        rounds: &[0],
        sets: &[set],
        values: &[0, low],
    };
    print!(rt; "one set {set:x} for value {low}, M = 3")?;
    print_hole(rt, learner_holes::find_hole(settings, &tables))
}

fn print_hole(rt: &impl Print, hole: Result<Option<Instance>, Refusal>) -> io::Result<()> {
    match hole {
        Ok(Some(instance)) => println!(rt; ", first hole: {}", instance.0),
        Ok(None) => println!(rt; ", no hole"),
        Err(refusal) => println!(rt; ", refused: {}", basics::refusal_number(refusal)),
    }
}

// The last digit is cell 7's.
fn store_cells(tables: &mut learner_tables::Tables<'_>, digits: u32, low: u64) {
    let mut left = digits;
    for place in (0..8).rev() {
        tables.store_cell(place, cell_of((left % 16) as u8, low));
        left /= 16;
    }
}

// Votes of round 0, or none.
fn cell_of(set: u8, low: u64) -> Cell {
    if set == 0 {
        return learner_cell::fresh_cell();
    }
    Cell {
        round: Round(0),
        set,
        value: Value { high: 0, low },
    }
}

// ---- rounds

// The least numbers, with a round of nobody's among them, and the last ones, with none at the end.
const ROUNDS: [u32; 11] = [
    0,
    1,
    2,
    3,
    4,
    4294967288,
    4294967290,
    4294967291,
    4294967293,
    4294967294,
    basics::NONE,
];

fn owners_and_next_rounds(rt: &impl Print) -> io::Result<()> {
    for number in ROUNDS {
        print!(rt; "round {number}: owner ")?;
        match basics::owner(Round(number)) {
            basics::NOBODY => print!(rt; "nobody")?,
            owner => print!(rt; "{owner}")?,
        }
        let first = next_round(1, number);
        let second = next_round(2, number);
        let third = next_round(3, number);
        println!(rt; ", next of 1, 2, 3: {first} {second} {third}")?;
    }
    Ok(())
}

// A start on a fresh cell: the round that it takes, or the refusal.
fn next_round(own: u32, floor: u32) -> u32 {
    let mut rounds = [0; 8];
    let mut tables = backup_tables::Tables {
        rounds: &mut rounds,
        phases: &mut [0; 8],
        sets: &mut [0; 8],
        best_vote_rounds: &mut [basics::NONE; 8],
        best_values: &mut [0; 16],
        own_values: &mut [0; 16],
    };
    let buffer = &mut [0; 36];
    match backup::start(
        SETTINGS,
        own,
        Instance(0),
        floor,
        VALUE,
        buffer,
        &mut tables,
    ) {
        Ok(_) => rounds[0],
        Err(refusal) => basics::refusal_number(refusal),
    }
}
