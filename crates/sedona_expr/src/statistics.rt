// Statistics of a column, a box and totals of what lies in it, after statistics.rs. Any part may be
// missing: nothing is known of it then.
ghost use Rattle.std.specs.Prelude.{◌≡◌, false, ◌+ℤ◌};
ghost use Rattle.sedona_expr.specs.Error as error;
ghost use Rattle.sedona_expr.specs.Statistics as statistics;
ghost use Rattle.sedona_expr.specs.Within as within;

use crate::error::Refusal;
use sedona_geometry::bounding_box::BoundingBox;
use sedona_geometry::types::GeometryTypeAndDimensionsSet;

#[derive(Clone, Copy)]
pub struct GeoStatistics {
    pub bbox: Option<BoundingBox>,
    pub geometry_types: Option<GeometryTypeAndDimensionsSet>,
    pub total_geometries: Option<i64>,
    pub total_size_bytes: Option<i64>,
    pub total_points: Option<i64>,
    pub puntal_count: Option<i64>,
    pub lineal_count: Option<i64>,
    pub polygonal_count: Option<i64>,
    pub collection_count: Option<i64>,
    pub total_envelope_width: Option<f64>,
    pub total_envelope_height: Option<f64>,
}

// Two boxes merged; where one is missing, the other.
fn merge_bboxes(a: Option<BoundingBox>, b: Option<BoundingBox>) -> Option<BoundingBox>
    ensures { result ≡ statistics.merge_bboxes a b }
{
    match (a, b) {
        (Some(a), Some(b)) => Some(a.merge_box(b)),
        _ => a.or(b).map(BoundingBox::plus_zero),
    }
}

// The types of either; where one is missing, the other.
fn merge_types(
    a: Option<GeometryTypeAndDimensionsSet>,
    b: Option<GeometryTypeAndDimensionsSet>,
) -> Option<GeometryTypeAndDimensionsSet>
    ensures { result ≡ statistics.merge_types a b }
{
    match (a, b) {
        (Some(a), Some(b)) => Some(a.merge(b)),
        _ => a.or(b),
    }
}

// The sum of two lengths, rounded once; missing where one is.
fn add_extents(a: Option<f64>, b: Option<f64>) -> Option<f64>
    ensures { result ≡ statistics.add_extents a b }
{
    a.zip(b).map(|(a, b)| a + b)
}

// The sum of two totals; missing where one is, and refused where it leaves its range.
fn add_totals(a: Option<i64>, b: Option<i64>) -> Result<Option<i64>, Refusal>
    ensures { result ≡ within.checked_total a b }
{
    match (a, b) {
        (Some(a), Some(b)) => Ok(Some(a.checked_add(b).ok_or(Refusal::Overflow)?)),
        _ => Ok(None),
    }
}

impl GeoStatistics {
    // Nothing is known: the Rust's UNSPECIFIED.
    pub fn unspecified() -> GeoStatistics
        ensures { result ≡ statistics.unspecified }
    {
        GeoStatistics {
            bbox: None,
            geometry_types: None,
            total_geometries: None,
            total_size_bytes: None,
            total_points: None,
            puntal_count: None,
            lineal_count: None,
            polygonal_count: None,
            collection_count: None,
            total_envelope_width: None,
            total_envelope_height: None,
        }
    }

    // What is known of no geometries.
    pub fn empty() -> GeoStatistics
        ensures { result ≡ statistics.empty }
    {
        let bbox = Some(BoundingBox::empty());
        let geometry_types = Some(GeometryTypeAndDimensionsSet::new());
        let none = Some(0);
        let no_extent = Some(0.0);
        GeoStatistics {
            bbox,
            geometry_types,
            total_geometries: none,
            total_size_bytes: none,
            total_points: none,
            puntal_count: none,
            lineal_count: none,
            polygonal_count: none,
            collection_count: none,
            total_envelope_width: no_extent,
            total_envelope_height: no_extent,
        }
    }

    // The record as a call hands it on, with +0 for zero in its box.
    pub fn plus_zero(self) -> GeoStatistics
        ensures { result ≡ statistics.plus_zero self }
    {
        GeoStatistics {
            bbox: self.bbox.map(BoundingBox::plus_zero),
            ..self
        }
    }

    // Both records in one; refused with 3 where a total leaves its range.
    pub fn merge_value(self, other: GeoStatistics) -> Result<GeoStatistics, Refusal>
        ensures { statistics.given result ≡ statistics.merge_value self other }
    {
        let total_geometries = add_totals(self.total_geometries, other.total_geometries)?;
        let total_size_bytes = add_totals(self.total_size_bytes, other.total_size_bytes)?;
        let total_points = add_totals(self.total_points, other.total_points)?;
        let puntal_count = add_totals(self.puntal_count, other.puntal_count)?;
        let lineal_count = add_totals(self.lineal_count, other.lineal_count)?;
        let polygonal_count = add_totals(self.polygonal_count, other.polygonal_count)?;
        let collection_count = add_totals(self.collection_count, other.collection_count)?;
        Ok(GeoStatistics {
            bbox: merge_bboxes(self.bbox, other.bbox),
            geometry_types: merge_types(self.geometry_types, other.geometry_types),
            total_geometries,
            total_size_bytes,
            total_points,
            puntal_count,
            lineal_count,
            polygonal_count,
            collection_count,
            total_envelope_width: add_extents(
                self.total_envelope_width,
                other.total_envelope_width,
            ),
            total_envelope_height: add_extents(
                self.total_envelope_height,
                other.total_envelope_height,
            ),
        })
    }

    // The lent record becomes both in one; or it stays, refused with 3.
    pub fn merge(&mut self, other: GeoStatistics) -> Result<(), Refusal>
        ensures { (error.number_of result ≡ (statistics.merge self.old other).number) × (self.new ≡ (statistics.merge self.old other).rec) }
    {
        *self = self.merge_value(other)?;
        Ok(())
    }
}

// Folds a lent list, in its order: the first record, then each merged with the next. Of an empty list there is
// none; refused with 3 where a merge is.
pub fn fold(records: &[GeoStatistics]) -> Result<Option<GeoStatistics>, Refusal>
    ensures { statistics.folded result ≡ statistics.fold records.now }
{
    let mut folded = None;
    for next in records {
        folded = Some(fold_step(folded, *next)?);
    }
    Ok(folded)
}

// What is folded so far, with a record more.
pub fn fold_step(
    folded: Option<GeoStatistics>,
    next: GeoStatistics,
) -> Result<GeoStatistics, Refusal>
    ensures { statistics.of_merged (statistics.given result) ≡ statistics.step (statistics.folded (Ok folded)) next }
{
    match folded {
        Some(folded) => folded.merge_value(next),
        None => Ok(next.plus_zero()),
    }
}
