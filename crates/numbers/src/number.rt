// The kinds of numbers that `read` and `write` take: each has a width in bytes, and is made of that many and laid down in that many.
// No caller can name the trait: that a slice has a number's width is tested once for all kinds, in those two.
ghost use Rattle.std.specs.Prelude.{◌≡◌, ℕ, length};
ghost use Rattle.numbers.specs.BigEndian.{big_endian, to_bytes};

pub trait Number: Copy {
    const WIDTH: usize;

    ghost WIDTH: { ℕ };

    ghost number: { Self → ℕ };

    fn zero() -> Self
        ensures { number result ≡ 0 };

    fn from_bytes(bytes: &[u8]) -> Self
        requires { length bytes.now ≡ WIDTH }
        ensures { number result ≡ big_endian bytes.now };

    fn put_bytes(self, bytes: &mut [u8])
        requires { length bytes.old ≡ WIDTH }
        ensures { bytes.new ≡ to_bytes WIDTH (number self) };
}

impl Number for u16 {
    const WIDTH: usize = 2;

    ghost WIDTH = { 2 };

    ghost number = { λ number. number };

    fn zero() -> u16 {
        0
    }

    fn from_bytes(bytes: &[u8]) -> u16 {
        u16::from_be_bytes(*bytes.as_array().unwrap())
    }

    // Two bytes are stored one by one, which is shorter than a swap.
    fn put_bytes(self, bytes: &mut [u8]) {
        let [high, low] = u16::to_be_bytes(self);
        bytes[0] = high;
        bytes[1] = low;
    }
}

impl Number for u32 {
    const WIDTH: usize = 4;

    ghost WIDTH = { 4 };

    ghost number = { λ number. number };

    fn zero() -> u32 {
        0
    }

    fn from_bytes(bytes: &[u8]) -> u32 {
        u32::from_be_bytes(*bytes.as_array().unwrap())
    }

    fn put_bytes(self, bytes: &mut [u8]) {
        bytes.copy_from_slice(&u32::to_be_bytes(self));
    }
}

impl Number for u64 {
    const WIDTH: usize = 8;

    ghost WIDTH = { 8 };

    ghost number = { λ number. number };

    fn zero() -> u64 {
        0
    }

    fn from_bytes(bytes: &[u8]) -> u64 {
        u64::from_be_bytes(*bytes.as_array().unwrap())
    }

    fn put_bytes(self, bytes: &mut [u8]) {
        bytes.copy_from_slice(&u64::to_be_bytes(self));
    }
}
