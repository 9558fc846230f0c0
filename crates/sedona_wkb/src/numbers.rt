// Numbers of four and of eight bytes, in either byte order.
ghost use Rattle.std.specs.Prelude.{◌≡◌, reverse, ◌+◌, ◌≤◌, ◌<◌, ltb, length};
ghost use lib.Ieee.{binary64, of_bits};
ghost use Rattle.sedona_wkb.specs.Numbers as numbers;
ghost use Rattle.sedona_wkb.specs.Places as places;

// Whether fewer bytes than so many are there, from a place on.
pub(crate) fn is_short(bytes: &[u8], at: usize, count: usize) -> bool
    ensures { result ≡ ltb (length bytes.now) (at + count) }
{
    bytes.len() < count || bytes.len() - count < at
}

// A byte as a number of 64 bits.
fn wide(byte: u8) -> u64
    ensures { (result ≡ byte) × (result < 256) }
{
    byte as u64
}

// The number of the four bytes from a place on.
fn four_at(bytes: &[u8], at: usize, low: bool) -> u64
    requires { at + 4 ≤ length bytes.now }
    ensures { (result ≡ places.number_at low 4 bytes.now at) × (result < 4294967296) }
{
    let a = wide(bytes[at]);
    let b = wide(bytes[at + 1]);
    let c = wide(bytes[at + 2]);
    let d = wide(bytes[at + 3]);
    if low {
        a + 256 * (b + 256 * (c + 256 * d))
    } else {
        d + 256 * (c + 256 * (b + 256 * a))
    }
}

// The same, as a number of 32 bits.
pub(crate) fn word_at(bytes: &[u8], at: usize, low: bool) -> u32
    requires { at + 4 ≤ length bytes.now }
    ensures { result ≡ places.number_at low 4 bytes.now at }
{
    four_at(bytes, at, low) as u32
}

// A number with its eight bytes in the other order.
fn swapped(n: u64) -> u64
    ensures { result ≡ numbers.value_of (reverse (numbers.bytes_of 8 n)) }
{
    let n1 = n / 256;
    let n2 = n1 / 256;
    let n3 = n2 / 256;
    let n4 = n3 / 256;
    let n5 = n4 / 256;
    let n6 = n5 / 256;
    let n7 = n6 / 256;
    let high = n3 % 256 + 256 * (n2 % 256 + 256 * (n1 % 256 + 256 * (n % 256)));
    let low = n7 % 256 + 256 * (n6 % 256 + 256 * (n5 % 256 + 256 * (n4 % 256)));
    low + 4294967296 * high
}

// The number of the eight bytes from a place on. They are read low byte first, and exchanged where that
// is not their order: both are one instruction.
fn eight_at(bytes: &[u8], at: usize, low: bool) -> u64
    requires { at + 8 ≤ length bytes.now }
    ensures { result ≡ places.number_at low 8 bytes.now at }
{
    let n = four_at(bytes, at, true) + 4294967296 * four_at(bytes, at + 4, true);
    if low { n } else { swapped(n) }
}

// A NaN: no constant can hold it.
fn nan() -> f64
    ensures { result ≡ lib.Ieee.nan }
{
    0.0 / 0.0
}

// The double with these bits. Those of a NaN are not kept.
fn from_bits(bits: u64) -> f64
    ensures { result ≡ of_bits binary64 bits }
{
    if bits % 0x8000_0000_0000_0000 > 0x7ff0_0000_0000_0000 {
        nan()
    } else {
        f64::from_bits(bits)
    }
}

// The double of the eight bytes from a place on.
pub(crate) fn double_at(bytes: &[u8], at: usize, low: bool) -> f64
    requires { at + 8 ≤ length bytes.now }
    ensures { result ≡ places.double_at low bytes.now at }
{
    from_bits(eight_at(bytes, at, low))
}
