// Why a call refuses, and the number that each reason is told by, beside those of sedona_geometry. 0 is no
// refusal.
ghost use Rattle.sedona_expr.specs.Error as error;
ghost use Rattle.sedona_expr.specs.Error.{number_is_not_zero};

use sedona_geometry::error::Numbered;
use std::error::Error;
use std::fmt;

#[derive(Clone, Copy, Debug, PartialEq, Eq)]
pub enum Refusal {
    // An i64 total leaves its range.
    Overflow,
    // Node words none, not in fours, or over 4,096.
    Words,
    // A kind over 6.
    UnknownKind,
    // A child not below its parent, or a node but the root not used exactly once.
    BadTree,
    // Lists of other lengths than they should have (doubles a flag, types or names a record), or a bad flag
    // or byte in one.
    BadLists,
    // A literal number that is not lent.
    NoLiteral,
    // A column index that is not lent.
    NoColumn,
    // A name number twice among the records.
    NameTwice,
}

impl Numbered for Refusal {
    ghost number = { error.number };

    fn number(self) -> u32 {
        match self {
            Refusal::Overflow => 3,
            Refusal::Words => 4,
            Refusal::UnknownKind => 5,
            Refusal::BadTree => 7,
            Refusal::BadLists => 8,
            Refusal::NoLiteral => 9,
            Refusal::NoColumn => 10,
            Refusal::NameTwice => 11,
        }
    }

    ghost not_zero = { number_is_not_zero };
}

impl fmt::Display for Refusal {
    fn fmt<W: fmt::Write>(&self, f: &mut fmt::Formatter<W>) -> fmt::Result {
        match self {
            Refusal::Overflow => write!(f, "a total leaves its range"),
            Refusal::Words => write!(f, "node words none, not in fours, or too many"),
            Refusal::UnknownKind => write!(f, "a node of an unknown kind"),
            Refusal::BadTree => write!(f, "nodes that are no tree"),
            Refusal::BadLists => write!(f, "lists of wrong lengths, or a bad flag or byte in one"),
            Refusal::NoLiteral => write!(f, "a literal that is not lent"),
            Refusal::NoColumn => write!(f, "a column that is not lent"),
            Refusal::NameTwice => write!(f, "a name twice among the records"),
        }
    }
}

impl Error for Refusal {}
