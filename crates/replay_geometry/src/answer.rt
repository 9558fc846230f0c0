// The answers of calls: their text, and their words in a digest.
use replay_text::digest::Digest;
use replay_text::write::Double;
use sedona_geometry::bounding_box::BoundingBox;
use sedona_geometry::error::{Numbered, Refusal};
use sedona_geometry::interval::{Interval, Pieces, WraparoundInterval};
use sedona_geometry::types::GeometryTypeAndDimensionsSet;
use std::fmt;

// The answer of a call.
#[derive(Clone, Copy)]
pub enum Answer {
    Bool(bool),
    Double(f64),
    // A count, or a type set by its bits.
    Number(u64),
    Ends(Interval),
    Split(Pieces),
    Box(BoundingBox),
    // Of a call that can be refused.
    TriedEnds(Result<Interval, Refusal>),
    TriedBox(Result<BoundingBox, Refusal>),
}

impl From<bool> for Answer {
    fn from(b: bool) -> Answer {
        Answer::Bool(b)
    }
}

impl From<f64> for Answer {
    fn from(x: f64) -> Answer {
        Answer::Double(x)
    }
}

impl From<Interval> for Answer {
    fn from(i: Interval) -> Answer {
        Answer::Ends(i)
    }
}

// An x by its ends.
impl From<WraparoundInterval> for Answer {
    fn from(x: WraparoundInterval) -> Answer {
        Answer::Ends(x.inner)
    }
}

impl From<Pieces> for Answer {
    fn from(pieces: Pieces) -> Answer {
        Answer::Split(pieces)
    }
}

impl From<BoundingBox> for Answer {
    fn from(b: BoundingBox) -> Answer {
        Answer::Box(b)
    }
}

// A type set by its bits.
impl From<GeometryTypeAndDimensionsSet> for Answer {
    fn from(set: GeometryTypeAndDimensionsSet) -> Answer {
        Answer::Number(set.bits() as u64)
    }
}

// A plain interval, where the x is one.
impl From<Result<Interval, Refusal>> for Answer {
    fn from(converted: Result<Interval, Refusal>) -> Answer {
        Answer::TriedEnds(converted)
    }
}

// An x by its ends, where the intersection is one.
impl From<Result<WraparoundInterval, Refusal>> for Answer {
    fn from(intersection: Result<WraparoundInterval, Refusal>) -> Answer {
        Answer::TriedEnds(intersection.map(|x| x.inner))
    }
}

// A box, where the intersection is one.
impl From<Result<BoundingBox, Refusal>> for Answer {
    fn from(intersection: Result<BoundingBox, Refusal>) -> Answer {
        Answer::TriedBox(intersection)
    }
}

impl fmt::Display for Answer {
    fn fmt<W: fmt::Write>(&self, f: &mut fmt::Formatter<W>) -> fmt::Result {
        match *self {
            Answer::Bool(b) => write!(f, "{b}"),
            Answer::Double(x) => write!(f, "{}", Double(x)),
            Answer::Number(n) => write!(f, "{n}"),
            Answer::Ends(i) => write!(f, "{}", EndsText(i)),
            Answer::Split(pieces) => {
                write!(f, "{} {}", EndsText(pieces.left), EndsText(pieces.right))
            }
            Answer::Box(b) => write!(f, "{}", BoxText(b)),
            Answer::TriedEnds(Ok(i)) => write!(f, "{}", EndsText(i)),
            Answer::TriedBox(Ok(b)) => write!(f, "{}", BoxText(b)),
            Answer::TriedEnds(Err(e)) => write!(f, "refused {}", e.number()),
            Answer::TriedBox(Err(e)) => write!(f, "refused {}", e.number()),
        }
    }
}

// `LO HI`.
#[derive(Clone, Copy)]
struct EndsText(Interval);

impl fmt::Display for EndsText {
    fn fmt<W: fmt::Write>(&self, f: &mut fmt::Formatter<W>) -> fmt::Result {
        let i = self.0;
        write!(f, "{} {}", Double(i.lo), Double(i.hi))
    }
}

// The ends of x, y, z and m.
#[derive(Clone, Copy)]
pub struct BoxText(pub BoundingBox);

impl fmt::Display for BoxText {
    fn fmt<W: fmt::Write>(&self, f: &mut fmt::Formatter<W>) -> fmt::Result {
        let b = self.0;
        let x = EndsText(b.x.inner);
        let y = EndsText(b.y);
        let z = DimensionText(b.z);
        let m = DimensionText(b.m);
        write!(f, "{x} {y} {z} {m}")
    }
}

// `LO HI`, or `- -` where it is missing.
#[derive(Clone, Copy)]
struct DimensionText(Option<Interval>);

impl fmt::Display for DimensionText {
    fn fmt<W: fmt::Write>(&self, f: &mut fmt::Formatter<W>) -> fmt::Result {
        match self.0 {
            None => f.write_str("- -"),
            Some(i) => write!(f, "{}", EndsText(i)),
        }
    }
}

// A digest with an answer more.
pub fn with_answer(digest: Digest, answer: Answer) -> Digest {
    match answer {
        Answer::Bool(b) => digest.with_word(b as u64),
        Answer::Double(x) => digest.with_double(x),
        Answer::Number(n) => digest.with_word(n),
        Answer::Ends(i) => with_ends(digest, i),
        Answer::Split(pieces) => with_ends(with_ends(digest, pieces.left), pieces.right),
        Answer::Box(b) => with_box(digest, b),
        Answer::TriedEnds(Ok(i)) => with_ends(digest.with_word(0), i),
        Answer::TriedBox(Ok(b)) => with_box(digest.with_word(0), b),
        Answer::TriedEnds(Err(e)) => digest.with_word(e.number() as u64),
        Answer::TriedBox(Err(e)) => digest.with_word(e.number() as u64),
    }
}

// A digest with a box more: its x, y, z and m.
fn with_box(digest: Digest, b: BoundingBox) -> Digest {
    let plane = with_ends(with_ends(digest, b.x.inner), b.y);
    with_dimension(with_dimension(plane, b.z), b.m)
}

// A digest with a z or an m more: whether it is known, and then its ends.
fn with_dimension(digest: Digest, dimension: Option<Interval>) -> Digest {
    match dimension {
        None => digest.with_word(0),
        Some(i) => with_ends(digest.with_word(1), i),
    }
}

// A digest with the two ends of an interval more.
fn with_ends(digest: Digest, i: Interval) -> Digest {
    digest.with_double(i.lo).with_double(i.hi)
}
