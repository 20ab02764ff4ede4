// Big-endian numbers of 2, 4 and 8 bytes at a place of a byte slice. A number that does not lie within the slice is read as 0 and is not written.
// Inside the slice each is one load or store of the machine and one swap of its bytes.
#![tactic(auto)]

ghost use Rattle.std.specs.Prelude.{◌≡◌, ◌+◌, leb};
ghost use Rattle.numbers.specs.BigEndian.{number_at, with_number_at};

mod number;

use number::Number;

pub fn read<N: Number>(bytes: &[u8], at: usize) -> N
    ensures { N.number result ≡ number_at bytes.now at N.WIDTH }
{
    if !lies_within(bytes.len(), at, N::WIDTH) {
        return N::zero();
    }
    N::from_bytes(&bytes[at..at + N::WIDTH])
}

pub fn write<N: Number>(bytes: &mut [u8], at: usize, number: N)
    ensures { bytes.new ≡ with_number_at bytes.old at N.WIDTH (N.number number) }
{
    if lies_within(bytes.len(), at, N::WIDTH) {
        number.put_bytes(&mut bytes[at..at + N::WIDTH]);
    }
}

// The width is taken from the length, since a sum with a place near the largest number would wrap.
fn lies_within(length: usize, at: usize, width: usize) -> bool
    ensures { result ≡ leb (at + width) length }
{
    if length < width {
        return false;
    }
    at <= length - width
}
