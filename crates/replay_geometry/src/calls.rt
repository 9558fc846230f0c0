// What the calls of sedona_geometry answer; names.rt has their names.
use crate::answer::Answer;
use crate::boxes::{filled, filled_x, read_box};
use crate::lent::updated;
use crate::names::{
    Call, CallOfBox, CallOfBoxes, CallOfDoubles, CallOfFloat, CallOfInterval, CallOfSets,
    CallOfWraparoundInterval,
};
use replay_text::read::FromWord;
use replay_text::words::Words;
use sedona_geometry::bounding_box::BoundingBox;
use sedona_geometry::float;
use sedona_geometry::interval::{Interval, WraparoundInterval};
use sedona_geometry::types::GeometryTypeAndDimensionsSet;

// What a call answers to words; nothing where they are not its operands.
pub fn answer_to(call: Call, mut words: Words) -> Option<Answer> {
    match call {
        Call::Doubles(call) => Some(make(call, read_operands(words, call.operands())?)),
        Call::OneBox(call) => {
            let b = read_box(&mut words)?;
            words.end()?;
            Some(make_of_box(call, b))
        }
        Call::ExpandBox => {
            let b = read_box(&mut words)?;
            let distance = words.read()?;
            words.end()?;
            Some(b.expand_by(distance).into())
        }
        Call::TwoBoxes(call) => {
            let b = read_box(&mut words)?;
            let other = read_box(&mut words)?;
            words.end()?;
            Some(make_of_boxes(call, b, other))
        }
        Call::Sets(call) => Some(make_of_sets(call, read_operands(words, call.operands())?)),
    }
}

// So many operands, which are all words. Behind them come defaults.
fn read_operands<T: FromWord + Copy + Default, const MOST: usize>(
    mut words: Words,
    count: usize,
) -> Option<[T; MOST]> {
    let mut operands = [T::default(); MOST];
    for operand in operands.iter_mut().take(count) {
        *operand = words.read()?;
    }
    words.end()?;
    Some(operands)
}

// Makes a call that takes doubles.
pub fn make(call: CallOfDoubles, operands: [f64; 4]) -> Answer {
    let [a, b, c, d] = operands;
    match call {
        CallOfDoubles::Interval(call) => make_of_interval(call, operands),
        CallOfDoubles::WraparoundInterval(call) => make_of_wraparound_interval(call, operands),
        CallOfDoubles::Float(call) => make_of_float(call, a, b),
        CallOfDoubles::Xy => BoundingBox::xy(filled_x([a, b]), filled([c, d])).into(),
        CallOfDoubles::EmptyBox => BoundingBox::empty().into(),
    }
}

// The operands: `LO HI`, then a value or the other's `LO HI`.
fn make_of_interval(call: CallOfInterval, operands: [f64; 4]) -> Answer {
    let [lo, hi, value, end] = operands;
    let i = filled([lo, hi]);
    let other = filled([value, end]);
    match call {
        CallOfInterval::New => Interval::new(lo, hi).into(),
        CallOfInterval::Empty => Interval::empty().into(),
        CallOfInterval::Full => Interval::full().into(),
        CallOfInterval::IsWraparound => i.is_wraparound().into(),
        CallOfInterval::IntersectsValue => i.intersects_value(value).into(),
        CallOfInterval::IntersectsInterval => i.intersects_interval(other).into(),
        CallOfInterval::ContainsInterval => i.contains_interval(other).into(),
        CallOfInterval::Width => i.width().into(),
        CallOfInterval::Mid => i.mid().into(),
        CallOfInterval::IsEmpty => i.is_empty().into(),
        CallOfInterval::IsFull => i.is_full().into(),
        CallOfInterval::MergeInterval => i.merge_interval(other).into(),
        CallOfInterval::MergeValue => i.merge_value(value).into(),
        CallOfInterval::ExpandBy => i.expand_by(value).into(),
        CallOfInterval::Intersection => i.intersection(other).into(),
    }
}

// The operands are as for `Interval`.
fn make_of_wraparound_interval(call: CallOfWraparoundInterval, operands: [f64; 4]) -> Answer {
    let [lo, hi, _, _] = operands;
    let x = filled_x([lo, hi]);
    match call {
        CallOfWraparoundInterval::OfBoth(call) => make_of_x(call, operands),
        CallOfWraparoundInterval::Split => x.split().into(),
        CallOfWraparoundInterval::FromInterval => {
            WraparoundInterval::from_interval(filled([lo, hi])).into()
        }
        CallOfWraparoundInterval::TryIntoInterval => x.try_into_interval().into(),
    }
}

// The calls that plain intervals have too.
fn make_of_x(call: CallOfInterval, operands: [f64; 4]) -> Answer {
    let [lo, hi, value, end] = operands;
    let x = filled_x([lo, hi]);
    let other = filled_x([value, end]);
    match call {
        CallOfInterval::New => WraparoundInterval::new(lo, hi).into(),
        CallOfInterval::Empty => WraparoundInterval::empty().into(),
        CallOfInterval::Full => WraparoundInterval::full().into(),
        CallOfInterval::IsWraparound => x.is_wraparound().into(),
        CallOfInterval::IntersectsValue => x.intersects_value(value).into(),
        CallOfInterval::IntersectsInterval => x.intersects_interval(other).into(),
        CallOfInterval::ContainsInterval => x.contains_interval(other).into(),
        CallOfInterval::Width => x.width().into(),
        CallOfInterval::Mid => x.mid().into(),
        CallOfInterval::IsEmpty => x.is_empty().into(),
        CallOfInterval::IsFull => x.is_full().into(),
        CallOfInterval::MergeInterval => x.merge_interval(other).into(),
        CallOfInterval::MergeValue => x.merge_value(value).into(),
        CallOfInterval::ExpandBy => x.expand_by(value).into(),
        CallOfInterval::Intersection => x.intersection(other).into(),
    }
}

// The operands are one number or two, or none.
fn make_of_float(call: CallOfFloat, a: f64, b: f64) -> Answer {
    match call {
        CallOfFloat::Min => float::min(a, b).into(),
        CallOfFloat::Max => float::max(a, b).into(),
        CallOfFloat::Abs => float::abs(a).into(),
        CallOfFloat::Infinity => float::infinity().into(),
    }
}

// Makes a call that takes one box. `xyzm` makes it of its parts.
pub fn make_of_box(call: CallOfBox, b: BoundingBox) -> Answer {
    match call {
        CallOfBox::Xyzm => BoundingBox::xyzm(b.x, b.y, b.z, b.m).into(),
        CallOfBox::IsEmpty => b.is_empty().into(),
    }
}

// Makes a call that takes two boxes.
pub fn make_of_boxes(call: CallOfBoxes, b: BoundingBox, other: BoundingBox) -> Answer {
    match call {
        CallOfBoxes::Intersects => b.intersects(other).into(),
        CallOfBoxes::Contains => b.contains(other).into(),
        CallOfBoxes::MergeBox => b.merge_box(other).into(),
        CallOfBoxes::UpdateBox => updated(b, other).into(),
        CallOfBoxes::Intersection => b.intersection(other).into(),
    }
}

// Makes a call that takes type sets, by their bits.
pub fn make_of_sets(call: CallOfSets, bits: [u32; 2]) -> Answer {
    let [first, second] = bits;
    let set = GeometryTypeAndDimensionsSet::from_bits(first);
    let other = GeometryTypeAndDimensionsSet::from_bits(second);
    match call {
        CallOfSets::New => GeometryTypeAndDimensionsSet::new().into(),
        CallOfSets::FromBits => set.into(),
        CallOfSets::Bits => Answer::Number(set.bits() as u64),
        CallOfSets::Merge => set.merge(other).into(),
        CallOfSets::IsEmpty => set.is_empty().into(),
        CallOfSets::Size => Answer::Number(set.size() as u64),
        CallOfSets::Clear => set.clear().into(),
    }
}
