// Why a call refuses, and the number that each reason is told by, in place of the messages of error.rs. 0 is
// no refusal.
ghost use Rattle.std.specs.Prelude.{◌≡◌, ℕ};
ghost use Rattle.sedona_geometry.specs.Error as error;
ghost use Rattle.sedona_geometry.specs.Error.{number_is_not_zero};

use std::error::Error;
use std::fmt;

// What has a number, other than 0: a reason to refuse.
pub trait Numbered {
    ghost number: { Self → ℕ };

    fn number(self) -> u32
        ensures { result ≡ number self };

    ghost not_zero: { (e : Self) → number e ≡ 0 → ⊥ };
}

#[derive(Clone, Copy, Debug, PartialEq, Eq)]
pub enum Refusal {
    // The intersection of two x intervals has two parts.
    TwoParts,
    // A wrapped x is turned into a plain interval.
    Wrapped,
}

impl Numbered for Refusal {
    ghost number = { error.number };

    fn number(self) -> u32 {
        match self {
            Refusal::TwoParts => 1,
            Refusal::Wrapped => 2,
        }
    }

    ghost not_zero = { number_is_not_zero };
}

impl fmt::Display for Refusal {
    fn fmt<W: fmt::Write>(&self, f: &mut fmt::Formatter<W>) -> fmt::Result {
        match self {
            Refusal::TwoParts => write!(f, "an intersection of two parts"),
            Refusal::Wrapped => write!(f, "an x that wraps"),
        }
    }
}

impl Error for Refusal {}
