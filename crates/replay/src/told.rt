// What a call gives, as a line tells it: the number that refuses, or 0, and what stands beside it. Beside a
// refusal that is an empty box, a record of which nothing is known, no array, no type, or a fee of 0.
ghost use Rattle.std.specs.Prelude.{◌≡◌};
ghost use Rattle.geoparquet_bbox.specs.Layout.{told as array_told, numbered};
ghost use Rattle.scan_tariff.specs.Tariff.{told as fee_told};
ghost use Rattle.sedona_expr.specs.Statistics as statistics;
ghost use Rattle.sedona_geometry.specs.BoundingBox as bounding_box;
ghost use Rattle.sedona_wkb.specs.Bounds as bounds;

use geoparquet_bbox::error as layout;
use geoparquet_bbox::layout::BboxArray;
use scan_tariff::error as tariff;
use sedona_expr::error::Refusal;
use sedona_expr::statistics::GeoStatistics;
use sedona_geometry::bounding_box::BoundingBox;
use sedona_geometry::error::Numbered;
use sedona_geometry::types::GeometryTypeAndDimensionsSet;
use sedona_wkb::bounds::WkbBounds;
use sedona_wkb::error as wkb;

// A box.
pub fn told_box<E: Numbered>(given: Result<BoundingBox, E>) -> (u32, BoundingBox)
    ensures { (result.0 ≡ (bounding_box.given E.number given).number) × (result.1 ≡ (bounding_box.given E.number given).bounds) }
{
    match given {
        Ok(bounds) => (0, bounds),
        Err(e) => (e.number(), BoundingBox::empty()),
    }
}

// A record.
pub fn told_record(given: Result<GeoStatistics, Refusal>) -> (u32, GeoStatistics)
    ensures { (result.0 ≡ (statistics.given given).number) × (result.1 ≡ (statistics.given given).rec) }
{
    match given {
        Ok(rec) => (0, rec),
        Err(e) => (e.number(), GeoStatistics::unspecified()),
    }
}

// The record that a list is folded to. Of no records nothing is known.
pub fn told_fold(given: Result<Option<GeoStatistics>, Refusal>) -> (u32, GeoStatistics)
    ensures { (result.0 ≡ (statistics.folded given).number) × (result.1 ≡ (statistics.folded given).rec) }
{
    match given {
        Ok(None) => (0, GeoStatistics::unspecified()),
        Ok(Some(rec)) => told_record(Ok(rec)),
        Err(e) => told_record(Err(e)),
    }
}

// An array.
pub fn told_array(given: Result<BboxArray, layout::Refusal>) -> (u32, BboxArray)
    ensures { numbered result.0 result.1 ≡ array_told given }
{
    match given {
        Ok(array) => (0, array),
        Err(e) => {
            let numbers = [0.0; 6];
            (e.number(), BboxArray { count: 0, numbers })
        }
    }
}

// The box of well-known binary, and the set of its type.
pub fn told_bounds(
    given: Result<WkbBounds, wkb::Refusal>,
) -> (u32, BoundingBox, GeometryTypeAndDimensionsSet)
    ensures { (result.0 ≡ (bounds.told given).numbered.number) × ((result.1 ≡ (bounds.told given).numbered.bounds) × (result.2 ≡ (bounds.told given).types)) }
{
    match given {
        Ok(found) => (0, found.bounds, found.types),
        Err(e) => (
            e.number(),
            BoundingBox::empty(),
            GeometryTypeAndDimensionsSet::new(),
        ),
    }
}

// A fee in cents.
pub fn told_fee(given: Result<u64, tariff::Refusal>) -> (u32, u64)
    ensures { (result.0 ≡ (fee_told given).number) × (result.1 ≡ (fee_told given).cents) }
{
    match given {
        Ok(cents) => (0, cents),
        Err(e) => (e.number(), 0),
    }
}
