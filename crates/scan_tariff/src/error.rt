// Why a call refuses, and the number that each reason is told by, beside those of sedona_geometry and sedona_expr. 0 is no
// refusal.
ghost use Rattle.scan_tariff.specs.Error as error;
ghost use Rattle.scan_tariff.specs.Error.{number_is_not_zero};

use sedona_geometry::error::Numbered;
use std::error::Error;
use std::fmt;

#[derive(Clone, Copy, Debug, PartialEq, Eq)]
pub enum Refusal {
    // A size, or the sum of the sizes, that is missing, negative or over 2^40 bytes; or over 1,000 sizes.
    BadSize,
    // A rate over 10,000 cents.
    BadRate,
}

impl Numbered for Refusal {
    ghost number = { error.number };

    fn number(self) -> u32 {
        match self {
            Refusal::BadSize => 18,
            Refusal::BadRate => 19,
        }
    }

    ghost not_zero = { number_is_not_zero };
}

impl fmt::Display for Refusal {
    fn fmt<W: fmt::Write>(&self, f: &mut fmt::Formatter<W>) -> fmt::Result {
        match self {
            Refusal::BadSize => write!(f, "a size that is not billed"),
            Refusal::BadRate => write!(f, "a rate that is too high"),
        }
    }
}

impl Error for Refusal {}
