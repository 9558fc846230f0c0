// Calls over many columns, more than a line can spell. Their names go up from 0 by a step, and the last
// has a name of its own; the x of each record is its place.
use crate::answer::Answer;
use crate::lent::searched;
use crate::names::CallOfMany;
use crate::tables::Tables;
use arrayvec::ArrayVec;
use replay_text::words::Words;
use sedona_expr::error::Refusal;
use sedona_expr::spatial_filter::{Evaluation, evaluate};
use sedona_expr::tables::{ENDS, Lookup, Records};
use std::num::nearest_usize_to_f64;

// The most columns, and the ends of their boxes.
const MOST: usize = 1024;

const MOST_ENDS: usize = MOST * ENDS;

// What a call answers to words; nothing where they are not its own. They end with how many columns there
// are, the step, and the last name.
pub fn answer_of_many(call: CallOfMany, mut words: Words, tables: &Tables) -> Option<Answer> {
    match call {
        CallOfMany::FindName => {
            let name = words.read()?;
            let names = read_names(words)?;
            let (found, place) = searched(names.as_slice(), name);
            Some(Answer::Search(found, place))
        }
        CallOfMany::EvaluateByName => {
            let names = read_names(words)?;
            Some(Answer::Evaluation(evaluation(names.as_slice(), tables)?))
        }
    }
}

// The names of the columns, where there is room for so many.
fn read_names(mut words: Words) -> Option<ArrayVec<u32, MOST>> {
    let count: u32 = words.read()?;
    let step = words.read()?;
    let last = words.read()?;
    words.end()?;
    if count as usize > MOST {
        return None;
    }
    let mut names = ArrayVec::new();
    if count > 0 {
        names
            .extend((0..count - 1).map(|i| i.wrapping_mul(step)))
            .ok()?;
        names.try_push(last).ok()?;
    }
    Some(names)
}

// Whether the filter may match. The x of each box is its place; no types are known. (The boxes are an array of
// its own, which is lent: handed on, it would be copied.)
fn evaluation(names: &[u32], tables: &Tables) -> Option<Result<Evaluation, Refusal>> {
    let count = names.len();
    let mut ends = [0.0; MOST_ENDS];
    for (place, bounds) in ends.chunks_exact_mut(ENDS).take(count).enumerate() {
        if let [lo, hi, ..] = bounds {
            *lo = nearest_usize_to_f64(place);
            *hi = *lo;
        }
    }
    let records = Records::new(
        ends.get(..ENDS * count)?,
        [1; MOST].get(..count)?,
        [0; MOST].get(..count)?,
        [0; MOST].get(..count)?,
    );
    Some(evaluate(&tables.filter(), &records, Lookup::ByName(names)))
}
