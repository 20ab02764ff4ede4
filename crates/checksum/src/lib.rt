// The one's complement sum of 16-bit words, and its complement.
#![tactic(auto)]

ghost use Rattle.std.specs.Prelude.{◌≡◌, ◌+◌, ◌*◌, ◌/◌, ◌%◌, ◌≤◌};
ghost use Rattle.checksum.specs.Sum.{carry_round, sum_onto, complement as complement_of};
ghost use Rattle.checksum.specs.Promises.{residue};

fn word(high: u8, low: u8) -> u16
    ensures { result ≡ high * 256 + low }
{
    (high as u16) * 256 + (low as u16)
}

// Two words sum to less than twice 65,536, so that the carry is brought round once for all.
fn with_word(sum: u16, word: u16) -> u16
    ensures { result ≡ carry_round (sum + word) }
{
    let plain = (sum as u32) + (word as u32);
    (plain % 65536 + plain / 65536) as u16
}

// Word by word, an odd last byte too.
fn words_onto(carried: u16, part: &[u8]) -> u16
    ensures { result ≡ sum_onto carried part.now }
{
    let mut sum = carried;
    let mut left = part;
    while let [high, low, rest @ ..] = left {
        sum = with_word(sum, word(*high, *low));
        left = rest;
    }
    match left {
        [] => sum,
        [last, ..] => with_word(sum, word(*last, 0)),
    }
}

// What is carried out of 32 bits is brought round, too: 65,536 times 65,536 is 1 more than a multiple of 65,535.
fn with_pair(sum: u64, pair: u32) -> u64
    requires { sum ≤ 4294967296 }
    ensures { result ≡ (sum + pair) % 4294967296 + (sum + pair) / 4294967296 }
{
    let plain = sum + (pair as u64);
    plain % 4294967296 + plain / 4294967296
}

fn in_16_bits(sum: u64) -> u16
    ensures { result ≡ residue sum }
{
    if sum == 0 {
        return 0;
    }
    ((sum - 1) % 65535 + 1) as u16
}

// The words of a part of a slice, summed onto what is carried in from the parts before it. Two words are taken at a time, as one number, which is their sum but
// for a multiple of 65,535; what is left after that, word by word.
pub fn sum_onto(carried: u16, part: &[u8]) -> u16
    ensures { result ≡ sum_onto carried part.now }
{
    let mut sum = carried as u64;
    let mut left = part;
    while let [first, second, third, fourth, rest @ ..] = left {
        sum = with_pair(sum, u32::from_be_bytes([*first, *second, *third, *fourth]));
        left = rest;
    }
    words_onto(in_16_bits(sum), left)
}

pub fn complement(sum: u16) -> u16
    ensures { result ≡ complement_of sum }
{
    65535 - sum
}
