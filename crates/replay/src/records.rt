// The calls of records of statistics, which the words of a line spell.
use crate::answer::Answer;
use crate::lent::{folded, merged};
use crate::names::CallOfRecords;
use replay_geometry::boxes::box_of;
use replay_text::words::Words;
use sedona_expr::statistics::GeoStatistics;
use sedona_expr::tables::ENDS;
use sedona_geometry::bounding_box::BoundingBox;
use sedona_geometry::types::GeometryTypeAndDimensionsSet;

// What a call answers to words; nothing where they are not its records.
pub fn answer_of_records(call: CallOfRecords, mut words: Words) -> Option<Answer> {
    let answer = match call {
        CallOfRecords::Unspecified => Answer::Record(Ok(GeoStatistics::unspecified())),
        CallOfRecords::Empty => Answer::Record(Ok(GeoStatistics::empty())),
        CallOfRecords::MergeValue => {
            let a = read_record(&mut words)?;
            Answer::Record(a.merge_value(read_record(&mut words)?))
        }
        CallOfRecords::Merge => {
            let a = read_record(&mut words)?;
            let (number, rec) = merged(a, read_record(&mut words)?);
            Answer::Lent(number, rec)
        }
        CallOfRecords::Fold => {
            let records = [read_record(&mut words)?, read_record(&mut words)?];
            Answer::Folded(folded(&records))
        }
        CallOfRecords::FoldOne => Answer::Folded(folded(&[read_record(&mut words)?])),
        CallOfRecords::FoldNone => Answer::Folded(folded(&[])),
    };
    words.end()?;
    Some(answer)
}

// The record that the next words spell: a box, a type set, totals and extents.
pub fn read_record(words: &mut Words) -> Option<GeoStatistics> {
    let bbox = read_bbox(words)?;
    let bits: Option<u32> = words.read()?;
    Some(GeoStatistics {
        bbox,
        geometry_types: bits.map(GeometryTypeAndDimensionsSet::from_bits),
        total_geometries: words.read()?,
        total_size_bytes: words.read()?,
        total_points: words.read()?,
        puntal_count: words.read()?,
        lineal_count: words.read()?,
        polygonal_count: words.read()?,
        collection_count: words.read()?,
        total_envelope_width: words.read()?,
        total_envelope_height: words.read()?,
    })
}

// The box that the next eight words spell, or a missing one.
fn read_bbox(words: &mut Words) -> Option<Option<BoundingBox>> {
    let ends: [Option<f64>; ENDS] = words.read_array()?;
    if ends.iter().all(|end| end.is_none()) {
        return Some(None);
    }
    Some(Some(box_of(ends)?))
}
