// The answers of all calls, as text.
use crate::told::{told_array, told_bounds, told_box, told_fee, told_fold, told_record};
use geoparquet_bbox::error as layout;
use geoparquet_bbox::layout::BboxArray;
use replay_geometry::answer as geometry;
use replay_geometry::answer::BoxText;
use replay_geometry::sweep::Swept;
use replay_text::write::Double;
use scan_tariff::error as tariff;
use sedona_expr::error::Refusal;
use sedona_expr::names::NameSearch;
use sedona_expr::spatial_filter::Evaluation;
use sedona_expr::statistics::GeoStatistics;
use sedona_geometry::bounding_box::BoundingBox;
use sedona_geometry::error::Numbered;
use sedona_wkb::bounds::WkbBounds;
use sedona_wkb::error as wkb;
use std::fmt;

// The answer of a call, or of a sweep.
#[derive(Clone, Copy)]
pub enum Answer {
    Geometry(geometry::Answer),
    Swept(Swept),
    Record(Result<GeoStatistics, Refusal>),
    Folded(Result<Option<GeoStatistics>, Refusal>),
    // Of a call that is lent a record: its number, and what the record holds then.
    Lent(u32, GeoStatistics),
    Evaluation(Result<Evaluation, Refusal>),
    // Of a search: what it found, and the place that is told.
    Search(NameSearch, usize),
    FilterBox(Result<BoundingBox, Refusal>),
    Array(Result<BboxArray, layout::Refusal>),
    ArrayBox(Result<BoundingBox, layout::Refusal>),
    Bounds(Result<WkbBounds, wkb::Refusal>),
    Fee(Result<u64, tariff::Refusal>),
}

impl fmt::Display for Answer {
    fn fmt<W: fmt::Write>(&self, f: &mut fmt::Formatter<W>) -> fmt::Result {
        match *self {
            Answer::Geometry(answer) => write!(f, "{answer}"),
            Answer::Swept(swept) => write!(f, "{swept}"),
            Answer::Record(given) => {
                let (number, rec) = told_record(given);
                write!(f, "{number} {}", RecordText(rec))
            }
            Answer::Folded(given) => {
                let (number, rec) = told_fold(given);
                write!(f, "{number} {}", RecordText(rec))
            }
            Answer::Lent(number, rec) => write!(f, "{number} {}", RecordText(rec)),
            Answer::Evaluation(Ok(Evaluation::MayMatch)) => f.write_str("may match"),
            Answer::Evaluation(Ok(Evaluation::CannotMatch)) => f.write_str("cannot match"),
            Answer::Evaluation(Err(e)) => write!(f, "refused {}", e.number()),
            Answer::Search(found, place) => {
                let word = if found.place.is_some() { "hit" } else { "none" };
                write!(f, "{word} {place} {}", found.compared)
            }
            Answer::FilterBox(given) => write_box(f, told_box(given)),
            Answer::Array(given) => {
                let (number, array) = told_array(given);
                write!(f, "{number} {}", ArrayText(array))
            }
            Answer::ArrayBox(given) => write_box(f, told_box(given)),
            Answer::Bounds(given) => {
                let (number, bounds, types) = told_bounds(given);
                write_box(f, (number, bounds))?;
                write!(f, " {}", types.bits())
            }
            Answer::Fee(given) => {
                let (number, cents) = told_fee(given);
                write!(f, "{number} {cents}")
            }
        }
    }
}

// Writes a number and a box.
fn write_box<W: fmt::Write>(f: &mut fmt::Formatter<W>, told: (u32, BoundingBox)) -> fmt::Result {
    let (number, bounds) = told;
    write!(f, "{number} {}", BoxText(bounds))
}

// How many numbers an array has, and its six places.
#[derive(Clone, Copy)]
struct ArrayText(BboxArray);

impl fmt::Display for ArrayText {
    fn fmt<W: fmt::Write>(&self, f: &mut fmt::Formatter<W>) -> fmt::Result {
        let array = self.0;
        write!(f, "{}", array.count)?;
        for x in array.numbers {
            write!(f, " {}", Double(x))?;
        }
        Ok(())
    }
}

// The parts of a record.
#[derive(Clone, Copy)]
struct RecordText(GeoStatistics);

impl fmt::Display for RecordText {
    fn fmt<W: fmt::Write>(&self, f: &mut fmt::Formatter<W>) -> fmt::Result {
        let s = self.0;
        match s.bbox {
            None => f.write_str("- - - - - - - -")?,
            Some(b) => write!(f, "{}", BoxText(b))?,
        }
        write!(f, " {}", OrMark(s.geometry_types.map(|types| types.bits())))?;
        for total in totals(s) {
            write!(f, " {}", OrMark(total))?;
        }
        let width = OrMark(s.total_envelope_width.map(Double));
        let height = OrMark(s.total_envelope_height.map(Double));
        write!(f, " {width} {height}")
    }
}

// The totals of geometries, bytes and points, and the counts of each type.
fn totals(s: GeoStatistics) -> [Option<i64>; 7] {
    [
        s.total_geometries,
        s.total_size_bytes,
        s.total_points,
        s.puntal_count,
        s.lineal_count,
        s.polygonal_count,
        s.collection_count,
    ]
}

// What may be missing: `-` is its mark.
#[derive(Clone, Copy)]
struct OrMark<T>(Option<T>);

impl<T: fmt::Display> fmt::Display for OrMark<T> {
    fn fmt<W: fmt::Write>(&self, f: &mut fmt::Formatter<W>) -> fmt::Result {
        match &self.0 {
            None => f.write_str("-"),
            Some(x) => write!(f, "{x}"),
        }
    }
}
