// Why a call refuses, and the number that each reason is told by, beside those of sedona_geometry. 0 is no
// refusal.
ghost use Rattle.sedona_wkb.specs.Error as error;
ghost use Rattle.sedona_wkb.specs.Error.{number_is_not_zero};

use sedona_geometry::error::Numbered;
use std::error::Error;
use std::fmt;

#[derive(Clone, Copy, Debug, PartialEq, Eq)]
pub enum Refusal {
    // Bytes that are too few, left over, or more than 65,536.
    Length,
    // A byte order that is none, or a type code that is none or not the one asked for.
    Code,
    // A collection more than 32 deep.
    Depth,
}

impl Numbered for Refusal {
    ghost number = { error.number };

    fn number(self) -> u32 {
        match self {
            Refusal::Length => 15,
            Refusal::Code => 16,
            Refusal::Depth => 17,
        }
    }

    ghost not_zero = { number_is_not_zero };
}

impl fmt::Display for Refusal {
    fn fmt<W: fmt::Write>(&self, f: &mut fmt::Formatter<W>) -> fmt::Result {
        match self {
            Refusal::Length => write!(f, "bytes that are too few, left over or too many"),
            Refusal::Code => write!(f, "a byte order or a type code that cannot be there"),
            Refusal::Depth => write!(f, "a collection that lies too deep"),
        }
    }
}

impl Error for Refusal {}
