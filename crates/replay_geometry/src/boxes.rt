// Boxes as operands: spelled by the words of a line, or each that is made of a list of intervals. Their
// fields are filled here, so that -0 comes to the calls as it is spelled.
use replay_text::words::Words;
use sedona_geometry::bounding_box::BoundingBox;
use sedona_geometry::interval::{Interval, WraparoundInterval};
use std::iter::once;

// How many words a box is.
pub const BOX: usize = 8;

// How many words two boxes are.
pub const TWO_BOXES: usize = 2 * BOX;

// The two ends of an interval.
pub type Ends = [f64; 2];

// The box that the next eight words spell.
pub fn read_box(words: &mut Words) -> Option<BoundingBox> {
    box_of(words.read_array()?)
}

// The box of eight ends, of which those of z, and those of m, can both be missing.
pub fn box_of(ends: [Option<f64>; BOX]) -> Option<BoundingBox> {
    let [x_lo, x_hi, y_lo, y_hi, z_lo, z_hi, m_lo, m_hi] = ends;
    let x = [x_lo?, x_hi?];
    let y = [y_lo?, y_hi?];
    let z = both_or_none(z_lo, z_hi)?;
    let m = both_or_none(m_lo, m_hi)?;
    Some(filled_box(x, y, z, m))
}

// The ends of a z or an m, where it has both; missing ends, where it has none.
fn both_or_none(lo: Option<f64>, hi: Option<f64>) -> Option<Option<Ends>> {
    match (lo, hi) {
        (Some(lo), Some(hi)) => Some(Some([lo, hi])),
        (None, None) => Some(None),
        _ => None,
    }
}

// The box with these ends.
pub fn filled_box(x: Ends, y: Ends, z: Option<Ends>, m: Option<Ends>) -> BoundingBox {
    BoundingBox {
        x: filled_x(x),
        y: filled(y),
        z: z.map(filled),
        m: m.map(filled),
    }
}

// The interval with these ends.
pub fn filled(ends: Ends) -> Interval {
    let [lo, hi] = ends;
    Interval { lo, hi }
}

// The x with these ends.
pub fn filled_x(ends: Ends) -> WraparoundInterval {
    WraparoundInterval {
        inner: filled(ends),
    }
}

// Takes each box whose x and y are among the intervals, and whose z and m are missing or among them: x
// goes slowest, and what is missing comes first.
pub fn each_box<F: FnMut(BoundingBox)>(intervals: &[Ends], mut take: F)
    requires { F.IsAlwaysCallable take }
{
    for x in intervals {
        for y in intervals {
            for z in once(None).chain(intervals.iter().copied().map(Some)) {
                for m in once(None).chain(intervals.iter().copied().map(Some)) {
                    take(filled_box(*x, *y, z, m));
                }
            }
        }
    }
}
