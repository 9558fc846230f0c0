// Doubles, written: as `nan`, `inf` or `-inf`; as a fraction `N` or `N/D` of few digits; else as
// `x` and the 16 hex digits of the bits.
use crate::read::LARGEST;
use std::fmt;

// A double as text.
#[derive(Clone, Copy)]
pub struct Double(pub f64);

impl fmt::Display for Double {
    fn fmt<W: fmt::Write>(&self, f: &mut fmt::Formatter<W>) -> fmt::Result {
        let bits = bits(self.0);
        let sign = if bits >= 0x8000_0000_0000_0000 {
            "-"
        } else {
            ""
        };
        match Form::of(self.0) {
            Form::Nan => f.write_str("nan"),
            Form::Infinite => write!(f, "{sign}inf"),
            Form::Whole(n) => write!(f, "{sign}{n}"),
            Form::Fraction(n, d) => write!(f, "{sign}{n}/{d}"),
            Form::Bits => write!(f, "x{bits:016x}"),
        }
    }
}

// How a double is written. Before a number and `inf` comes the sign; -0 has one too.
#[derive(Clone, Copy)]
enum Form {
    Nan,
    Infinite,
    Whole(u64),
    Fraction(u64, u64),
    Bits,
}

impl Form {
    // A fraction where the double times 1024 is a whole number, and not above the largest.
    fn of(x: f64) -> Form {
        if x.is_nan() {
            return Form::Nan;
        }
        let magnitude = if x < 0.0 { -x } else { x };
        if magnitude == f64::INFINITY {
            return Form::Infinite;
        }
        let scaled = magnitude * 1024.0;
        let n = std::num::saturating_f64_to_u64(scaled);
        if n <= LARGEST && std::num::nearest_u64_to_f64(n) == scaled {
            return Form::reduced(n);
        }
        Form::Bits
    }

    // n/1024, reduced.
    fn reduced(n: u64) -> Form {
        let halvings = n.trailing_zeros();
        if halvings >= 10 {
            return Form::Whole(n / 1024);
        }
        Form::Fraction(n >> halvings, 1024 >> halvings)
    }
}

// The bits of a double, where every NaN counts as one.
pub fn bits(x: f64) -> u64 {
    if x.is_nan() {
        0x7ff8_0000_0000_0000
    } else {
        x.to_bits()
    }
}
