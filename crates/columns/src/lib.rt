// Columns of lent tables: an item for each cell, and for a value two, its high half first. Past its end a column is not written, and reads as the caller says;
// as 0, where it is one of rounds or of values.
#![tactic(auto)]

ghost use Rattle.std.specs.Prelude.{◌≡◌, true, length, get_or, set, replicate};
ghost use Rattle.std.proofs.Common.{rules};
ghost use Rattle.columns.specs.Columns.{round_at, with_round, value_at, with_value};

use basics::{Round, Value};

// ---- items

pub fn item_at<T: Copy>(column: &[T], index: usize, past: T) -> T
    ensures { result ≡ get_or column.now index past }
{
    column.get(index).copied().unwrap_or(past)
}

pub fn put_item<T: Copy>(column: &mut [T], index: usize, item: T)
    ensures { column.new ≡ set column.old index item }
{
    if index < column.len() {
        column[index] = item;
    }
}

// What `==` takes for the same item is the same.
pub trait Item: Copy + PartialEq {
    ghost same: { (a b : Self) → Self.eq a b ≡ true → a ≡ b };
}

impl Item for u8 {
    ghost same = { Prim.search rules };
}

impl Item for u32 {
    ghost same = { Prim.search rules };
}

impl Item for u64 {
    ghost same = { Prim.search rules };
}

// One item in every cell, whatever the column holds. A cell that holds it is not written: of a loop that writes every cell the compiler makes a call of
// memset, and the archives call nothing.
pub fn fill<T: Item>(column: &mut [T], item: T)
    ensures { column.new ≡ replicate (length column.old) item }
{
    for place in column.iter_mut() {
        if *place != item {
            *place = item;
        }
    }
}

// ---- rounds

pub fn round_at(rounds: &[u32], index: usize) -> Round
    ensures { result ≡ round_at rounds.now index }
{
    Round(item_at(rounds, index, 0))
}

pub fn put_round(rounds: &mut [u32], index: usize, round: Round)
    ensures { rounds.new ≡ with_round rounds.old index round }
{
    put_item(rounds, index, round.0)
}

pub fn fill_rounds(rounds: &mut [u32], round: Round)
    ensures { rounds.new ≡ replicate (length rounds.old) round.0 }
{
    fill(rounds, round.0)
}

// ---- values

// A value that stands within takes one test. An index past half of the length is not doubled, since that would wrap near the largest number.
pub fn value_at(values: &[u64], index: usize) -> Value
    ensures { result ≡ value_at values.now index }
{
    if index < values.len() / 2 {
        let high = 2 * index;
        return Value {
            high: values[high],
            low: values[high + 1],
        };
    }
    if values.len() / 2 < index {
        return Value::NULL;
    }
    Value {
        high: item_at(values, 2 * index, 0),
        low: 0,
    }
}

// A column of an odd length ends within a value, of which only the high half is written.
pub fn put_value(values: &mut [u64], index: usize, value: Value)
    ensures { values.new ≡ with_value values.old index value }
{
    if index < values.len() / 2 {
        let high = 2 * index;
        values[high] = value.high;
        values[high + 1] = value.low;
    } else if index <= values.len() / 2 {
        put_item(values, 2 * index, value.high);
    }
}
