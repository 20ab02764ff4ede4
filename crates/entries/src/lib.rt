// Entries of the ride ledger: what the 16 bytes of a value say.
#![tactic(auto)]

ghost use Rattle.std.specs.Prelude.{◌≡◌, length};
ghost use Rattle.entries.specs.Entry.{fields_in, is_null, is_sale, is_boarding, entry_of, entry_in, entry_read};

const ENTRY_LENGTH: usize = 16;

pub const MOST_RIDES: u8 = 40;

// The fields of an entry, as they stand in its bytes. `rest` is the last four.
#[derive(Clone, Copy, PartialEq, Eq)]
struct Fields {
    kind: u8,
    rides: u8,
    pass: u32,
    day: u16,
    scan: u32,
    rest: u32,
}

impl Fields {
    const NULL: Fields = Fields {
        kind: 0,
        rides: 0,
        pass: 0,
        day: 0,
        scan: 0,
        rest: 0,
    };

    fn is_null(self) -> bool
        ensures { result ≡ is_null self }
    {
        self == Fields::NULL
    }

    fn is_sale(self) -> bool
        ensures { result ≡ is_sale self }
    {
        (self.kind == 1)
            & (1 <= self.rides)
            & (self.rides <= MOST_RIDES)
            & (self.scan == 0)
            & (self.rest == 0)
    }

    fn is_boarding(self) -> bool
        ensures { result ≡ is_boarding self }
    {
        (self.kind == 2) & (self.rides == 0) & (self.rest == 0)
    }
}

// What a well-formed entry says.
#[derive(Clone, Copy)]
pub enum Entry {
    Null,
    Sale { pass: u32, rides: u8, last_day: u16 },
    Boarding { pass: u32, day: u16, scan: u32 },
}

fn fields_in(value: &[u8]) -> Fields
    requires { length value.now ≡ 16 }
    ensures { result ≡ fields_in value.now }
{
    Fields {
        kind: value[0],
        rides: value[1],
        pass: numbers::read::<u32>(value, 2),
        day: numbers::read::<u16>(value, 6),
        scan: numbers::read::<u32>(value, 8),
        rest: numbers::read::<u32>(value, 12),
    }
}

fn entry_of(fields: Fields) -> Option<Entry>
    ensures { entry_read result ≡ entry_of fields }
{
    let Fields {
        rides,
        pass,
        day,
        scan,
        ..
    } = fields;
    if fields.is_null() {
        return Some(Entry::Null);
    }
    if fields.is_sale() {
        return Some(Entry::Sale {
            pass,
            rides,
            last_day: day,
        });
    }
    if fields.is_boarding() {
        return Some(Entry::Boarding { pass, day, scan });
    }
    None
}

// What the bytes say, where they are a well-formed entry.
pub fn entry_in(value: &[u8]) -> Option<Entry>
    ensures { entry_read result ≡ entry_in value.now }
{
    if value.len() != ENTRY_LENGTH {
        return None;
    }
    entry_of(fields_in(value))
}
