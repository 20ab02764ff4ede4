// The ledger's lent table: a count of the passes in use, and four columns of 256. Places past the count are not looked at.
#![tactic(auto)]

ghost use Rattle.std.specs.Prelude.{◌≡◌};
ghost use Rattle.columns.specs.Walks.{cells_from, every};
ghost use Rattle.passes.specs.Passes.{number_in, pass_at, with_pass, table, find, twice, rides_fit, sized, sound, is_full};
ghost use Rattle.passes.specs.Lent.{table_shared, table_behind, SameReferences};

use entries::MOST_RIDES;

const MOST_PASSES: u32 = 256;

// What the ledger keeps of a pass.
#[derive(Clone, Copy)]
pub struct Pass {
    pub number: u32,
    pub rides_left: u8,
    pub last_day: u16,
    pub last_scan: u32,
}

// Count and columns travel together, lent to be read.
#[derive(Clone, Copy)]
pub struct SharedTable<'a> {
    pub passes: &'a [u32],
    pub rides_left: &'a [u8],
    pub last_days: &'a [u16],
    pub last_scans: &'a [u32],
    pub count: u32,
}

impl SharedTable<'_> {
    // ---- one pass

    pub fn pass_at(&self, place: usize) -> Pass
        ensures { result ≡ pass_at (table_shared self.now).columns place }
    {
        Pass {
            number: columns::item_at(self.passes, place, 0),
            rides_left: columns::item_at(self.rides_left, place, 0),
            last_day: columns::item_at(self.last_days, place, 0),
            last_scan: columns::item_at(self.last_scans, place, 0),
        }
    }

    // ---- passes by their numbers

    // The first place from a place on where the pass in use has the number.
    pub fn find(&self, from: usize, number: u32) -> Option<usize>
        ensures { result ≡ find (table_shared self.now) from number }
    {
        for place in from..self.count as usize {
            if columns::item_at(self.passes, place, 0) == number {
                return Some(place);
            }
        }
        None
    }

    // A number stands twice where it is found again behind its place.
    fn has_twice(&self) -> bool
        ensures { let it = table_shared self.now in
            result ≡ twice (cells_from (number_in it.columns.passes) 0 it.count) }
    {
        for place in 0..self.count as usize {
            let number = columns::item_at(self.passes, place, 0);
            let behind = place + 1;
            if self.find(behind, number).is_some() {
                return true;
            }
        }
        false
    }

    // No more rides are left than a sale can bring.
    fn rides_fit(&self) -> bool
        ensures { let it = table_shared self.now in
            result ≡ every rides_fit (cells_from (number_in it.columns.rides_left) 0 it.count) }
    {
        for place in 0..self.count as usize {
            let rides = columns::item_at(self.rides_left, place, 0);
            if MOST_RIDES < rides {
                return false;
            }
        }
        true
    }

    // ---- 30, and 33

    fn is_sized(&self) -> bool
        ensures { result ≡ sized (table_shared self.now).columns }
    {
        let most = MOST_PASSES as usize;
        (self.passes.len() == most)
            & (self.rides_left.len() == most)
            & (self.last_days.len() == most)
            & (self.last_scans.len() == most)
    }

    // Refusal 30 by itself.
    pub fn is_sound(&self) -> bool
        ensures { result ≡ sound (table_shared self.now) }
    {
        if !self.is_sized() {
            return false;
        }
        if MOST_PASSES < self.count {
            return false;
        }
        if self.has_twice() {
            return false;
        }
        self.rides_fit()
    }

    pub fn is_full(&self) -> bool
        ensures { result ≡ is_full (table_shared self.now).count }
    {
        MOST_PASSES <= self.count
    }
}

// The same, lent to be written. What writes them keeps each reference, and says so: thus a caller that lent them knows what they come to hold.
#[derive(Drop)]
pub struct Table<'a> {
    pub passes: &'a mut [u32],
    pub rides_left: &'a mut [u8],
    pub last_days: &'a mut [u16],
    pub last_scans: &'a mut [u32],
    pub count: &'a mut u32,
}

impl Table<'_> {
    fn shared(&self) -> SharedTable<'_>
        ensures { table_shared result ≡ table_behind self.now }
    {
        SharedTable {
            passes: self.passes,
            rides_left: self.rides_left,
            last_days: self.last_days,
            last_scans: self.last_scans,
            count: *self.count,
        }
    }

    pub fn pass_at(&self, place: usize) -> Pass
        ensures { result ≡ pass_at (table_behind self.now).columns place }
    {
        self.shared().pass_at(place)
    }

    pub fn store_pass(&mut self, place: usize, pass: Pass)
        ensures stored { let before = table_behind self.old in
            table_behind self.new ≡ table (with_pass before.columns place pass) before.count }
        ensures same_references { SameReferences self.old self.new }
    {
        columns::put_item(self.passes, place, pass.number);
        columns::put_item(self.rides_left, place, pass.rides_left);
        columns::put_item(self.last_days, place, pass.last_day);
        columns::put_item(self.last_scans, place, pass.last_scan);
    }

    pub fn find(&self, from: usize, number: u32) -> Option<usize>
        ensures { result ≡ find (table_behind self.now) from number }
    {
        self.shared().find(from, number)
    }

    pub fn is_sound(&self) -> bool
        ensures { result ≡ sound (table_behind self.now) }
    {
        self.shared().is_sound()
    }

    pub fn is_full(&self) -> bool
        ensures { result ≡ is_full (table_behind self.now).count }
    {
        self.shared().is_full()
    }
}
