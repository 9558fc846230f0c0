// Why a call refuses, and the number that each reason is told by, beside those of sedona_geometry. 0 is no
// refusal.
ghost use Rattle.geoparquet_bbox.specs.Error as error;
ghost use Rattle.geoparquet_bbox.specs.Error.{number_is_not_zero};

use sedona_geometry::error::Numbered;
use std::error::Error;
use std::fmt;

#[derive(Clone, Copy, Debug, PartialEq, Eq)]
pub enum Refusal {
    // An array of neither four nor six numbers.
    BboxLength,
    // A known m, for which an array has no place.
    KnownM,
    // A NaN or an infinity in a known number, or a low above its high in y or z.
    BadNumbers,
}

impl Numbered for Refusal {
    ghost number = { error.number };

    fn number(self) -> u32 {
        match self {
            Refusal::BboxLength => 12,
            Refusal::KnownM => 13,
            Refusal::BadNumbers => 14,
        }
    }

    ghost not_zero = { number_is_not_zero };
}

impl fmt::Display for Refusal {
    fn fmt<W: fmt::Write>(&self, f: &mut fmt::Formatter<W>) -> fmt::Result {
        match self {
            Refusal::BboxLength => write!(f, "an array of neither four nor six numbers"),
            Refusal::KnownM => write!(f, "a known m"),
            Refusal::BadNumbers => write!(
                f,
                "a number that is not finite, or a low above its high"
            ),
        }
    }
}

impl Error for Refusal {}
