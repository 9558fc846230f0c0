// The calls of the two layouts of a box: of eight ends and a flag, and of an array.
use crate::answer::Answer;
use crate::names::CallOfLayouts;
use geoparquet_bbox::layout::{from_geoparquet, to_geoparquet};
use replay_geometry::boxes::filled_box;
use replay_text::words::{List, Words};
use sedona_expr::tables::{ENDS, FLAG_LIMIT};
use sedona_geometry::bounding_box::BoundingBox;

// What a call answers to words; nothing where they are not its own.
pub fn answer_of_layouts(call: CallOfLayouts, words: Words) -> Option<Answer> {
    match call {
        CallOfLayouts::ToGeoparquet => {
            Some(Answer::Array(to_geoparquet(read_flagged_box(words)?)))
        }
        CallOfLayouts::FromGeoparquet => {
            let numbers: List<f64> = words.read_all()?;
            Some(Answer::ArrayBox(from_geoparquet(numbers.as_slice())))
        }
    }
}

// The box of eight ends and an odd flag below the limit, its fields filled with these ends.
fn read_flagged_box(mut words: Words) -> Option<BoundingBox> {
    let ends: [f64; ENDS] = words.read_array()?;
    let [x_lo, x_hi, y_lo, y_hi, z_lo, z_hi, m_lo, m_hi] = ends;
    let flag: u8 = words.read()?;
    words.end()?;
    if flag >= FLAG_LIMIT || flag % 2 == 0 {
        return None;
    }
    let has_z = flag / 2 % 2 == 1;
    let has_m = flag / 4 == 1;
    Some(filled_box(
        [x_lo, x_hi],
        [y_lo, y_hi],
        has_z.then_some([z_lo, z_hi]),
        has_m.then_some([m_lo, m_hi]),
    ))
}
