// The bytes of a file that holds a learner's table, of any version: a header, then 21 bytes for each cell.
// Past its end a file reads as 0, and what does not lie within a buffer is not written.
#![tactic(auto)]

ghost use Rattle.std.specs.Prelude.{◌≡◌};
ghost use Rattle.quorum.specs.Settings.{settings};
ghost use Rattle.learner_tables.specs.Tables.{with_cell, first_cells, all_possible};
ghost use Rattle.learner_tables.specs.Lent.{tables_shared, tables_behind, SameReferences};
ghost use Rattle.learner_file.specs.File.{saved_length, header, marked, version_in, same_settings};
ghost use Rattle.learner_file.specs.File.{saved_cell, saved_from, with_bytes, with_cell_bytes, stored_from};

use basics::{Round, Value};
use learner_cell::Cell;
use learner_tables::{SharedTables, Tables};
use quorum::Settings;

pub const HEADER_LENGTH: usize = 8;

const CELL_LENGTH: usize = 21;

// The length of a file of so many cells, and so the place of the cell behind them.
pub fn saved_length(cells: u32) -> usize
    ensures { result ≡ saved_length cells }
{
    HEADER_LENGTH + CELL_LENGTH * (cells as usize)
}

// ---- the header

pub fn put_header(buffer: &mut [u8], version: u16, acceptors: u8, instances: u16)
    ensures { buffer.new ≡ with_bytes buffer.old 0 (header version (settings acceptors instances)) }
{
    if buffer.len() < HEADER_LENGTH {
        return;
    }
    buffer[0] = b'R';
    buffer[1] = b'D';
    buffer[2] = b'T';
    numbers::write(buffer, 3, version);
    buffer[5] = acceptors;
    numbers::write(buffer, 6, instances);
}

pub fn is_marked(saved: &[u8]) -> bool
    ensures { result ≡ marked saved.now }
{
    (columns::item_at(saved, 0, 0) == b'R')
        & (columns::item_at(saved, 1, 0) == b'D')
        & (columns::item_at(saved, 2, 0) == b'T')
}

pub fn version_in(saved: &[u8]) -> u16
    ensures { result ≡ version_in saved.now }
{
    numbers::read::<u16>(saved, 3)
}

// The saved table's M and N are the lent one's.
pub fn same_settings(settings: Settings, saved: &[u8]) -> bool
    ensures { result ≡ same_settings settings saved.now }
{
    ((columns::item_at(saved, 5, 0) as u32) == settings.acceptors)
        & ((numbers::read::<u16>(saved, 6) as u32) == settings.instances)
}

// ---- one cell

fn put_cell(buffer: &mut [u8], index: u32, cell: Cell)
    ensures { buffer.new ≡ with_cell_bytes buffer.old index cell }
{
    let at = saved_length(index);
    if buffer.len() < at + CELL_LENGTH {
        return;
    }
    numbers::write(buffer, at, cell.round.0);
    buffer[at + 4] = cell.set;
    numbers::write(buffer, at + 5, cell.value.high);
    numbers::write(buffer, at + 13, cell.value.low);
}

fn cell_in(saved: &[u8], index: u32) -> Cell
    ensures { result ≡ saved_cell saved.now index }
{
    let at = saved_length(index);
    Cell {
        round: Round(numbers::read::<u32>(saved, at)),
        set: columns::item_at(saved, at + 4, 0),
        value: Value {
            high: numbers::read::<u64>(saved, at + 5),
            low: numbers::read::<u64>(saved, at + 13),
        },
    }
}

// ---- so many cells

// The first cells of the tables, behind the header.
pub fn put_cells(buffer: &mut [u8], count: u32, tables: &SharedTables<'_>)
    ensures { let before = tables_shared tables.now in
        buffer.new ≡ stored_from with_cell_bytes buffer.old 0 (first_cells count before) }
{
    for index in 0..count {
        let cell = tables.cell_at(index as usize);
        put_cell(buffer, index, cell);
    }
}

// Every one of so many saved cells is possible.
pub fn saved_possible(acceptors: u32, count: u32, saved: &[u8]) -> bool
    ensures { result ≡ all_possible acceptors (saved_from saved.now 0 count) }
{
    for index in 0..count {
        let cell = cell_in(saved, index);
        if !learner_cell::is_possible(acceptors, cell) {
            return false;
        }
    }
    true
}

// The first cells of the tables become the saved ones, unjudged.
pub fn store_saved(tables: &mut Tables<'_>, count: u32, saved: &[u8])
    ensures stored { let before = tables_behind tables.old in
        tables_behind tables.new ≡ stored_from with_cell before 0 (saved_from saved.now 0 count) }
    ensures same_references { SameReferences tables.old tables.new }
{
    for index in 0..count {
        let cell = cell_in(saved, index);
        tables.store_cell(index as usize, cell);
    }
}
