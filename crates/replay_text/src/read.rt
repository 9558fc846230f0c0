// Words, read as numbers. A double is `nan`, `inf`, an integer `N` or a quotient `N/D`, the last three
// with or without `-`; or `x` and the 16 hex digits of the bits. The mark `-` is of what is missing.
use std::str::FromStr;

// The largest integer of a case. Up to here every integer is a double.
pub const LARGEST: u64 = 9007199254740992;

// The most bytes that a case lends: one more than are read of a geometry.
pub const MOST_BYTES: usize = 65537;

pub type Bytes = [u8; MOST_BYTES];

// What a word can spell.
pub trait FromWord: Sized + Drop {
    // What the word spells; none where it spells no such thing.
    fn from_word(word: &str) -> Option<Self>;
}

// A flag.
impl FromWord for u8 {
    fn from_word(word: &str) -> Option<u8> {
        read_integer(word)
    }
}

// A type set, a name or a rate.
impl FromWord for u32 {
    fn from_word(word: &str) -> Option<u32> {
        read_integer(word)
    }
}

// A total, with or without `-`.
impl FromWord for i64 {
    fn from_word(word: &str) -> Option<i64> {
        read_integer(word)
    }
}

impl FromWord for f64 {
    fn from_word(word: &str) -> Option<f64> {
        if word == "nan" {
            return Some(f64::NAN);
        }
        if let Some(digits) = word.strip_prefix('x') {
            return read_bits(digits);
        }
        if let Some(magnitude) = word.strip_prefix('-') {
            return Some(-read_magnitude(magnitude)?);
        }
        read_magnitude(word)
    }
}

// What may be missing.
impl<T: FromWord> FromWord for Option<T> {
    fn from_word(word: &str) -> Option<Option<T>> {
        if word == "-" {
            return Some(None);
        }
        T::from_word(word).map(Some)
    }
}

// An integer in decimal digits. (`parse` takes a `+` before them too.)
fn read_integer<T: FromStr + Drop>(word: &str) -> Option<T>
where
    T::Err: Drop,
{
    if word.starts_with('+') {
        return None;
    }
    word.parse().ok()
}

// `inf`, `N` or `N/D`: one division, rounded once. Nothing is divided by 0.
fn read_magnitude(word: &str) -> Option<f64> {
    if word == "inf" {
        return Some(f64::INFINITY);
    }
    let Some((dividend, divisor)) = word.split_once('/') else {
        return read_whole(word);
    };
    let n = read_whole(dividend)?;
    let d = read_whole(divisor)?;
    if d == 0.0 { None } else { Some(n / d) }
}

// An integer `N`.
fn read_whole(digits: &str) -> Option<f64> {
    let n: u64 = read_integer(digits)?;
    if n > LARGEST {
        return None;
    }
    Some(std::num::nearest_u64_to_f64(n))
}

// The digits behind an `x`.
fn read_bits(digits: &str) -> Option<f64> {
    if digits.len() != 16 {
        return None;
    }
    let mut bits: u64 = 0;
    for byte in digits.bytes() {
        bits = bits << 4 | hex_digit(byte)? as u64;
    }
    Some(from_bits(bits))
}

// The double with these bits. Those of a NaN are not kept.
fn from_bits(bits: u64) -> f64 {
    if bits % 0x8000_0000_0000_0000 > 0x7ff0_0000_0000_0000 {
        f64::NAN
    } else {
        f64::from_bits(bits)
    }
}

// What a hex digit stands for.
pub(crate) fn hex_digit(byte: u8) -> Option<u8> {
    match byte {
        b'0'..=b'9' => Some(byte - b'0'),
        b'a'..=b'f' => Some(byte - b'a' + 10),
        _ => None,
    }
}
