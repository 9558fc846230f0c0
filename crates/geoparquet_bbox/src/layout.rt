// A box as GeoParquet's `bbox` array: the lows of its dimensions and then their highs, as (xmin, ymin,
// xmax, ymax), or with z known as (xmin, ymin, zmin, xmax, ymax, zmax).
ghost use Rattle.std.specs.Prelude.{◌≡◌, ◌<◌, ◌+◌, length};
ghost use Rattle.sedona_geometry.specs.BoundingBox as bounding_box;
ghost use Rattle.geoparquet_bbox.specs.Error as error;
ghost use Rattle.geoparquet_bbox.specs.Layout as layout;

use crate::error::Refusal;
use sedona_geometry::bounding_box::BoundingBox;
use sedona_geometry::float::{abs, infinity};
use sedona_geometry::interval::{Interval, WraparoundInterval};

// How many numbers an array has: without z, and with it.
const WITHOUT_Z: usize = 4;

const WITH_Z: usize = 6;

// An array: its first four or six numbers, and 0.0 behind them. (C lends room for six, and a count.)
#[derive(Clone, Copy)]
pub struct BboxArray {
    pub count: usize,
    pub numbers: [f64; WITH_Z],
}

// Whether a number is neither NaN nor infinite.
fn is_finite(v: f64) -> bool
    ensures { result ≡ layout.is_finite v }
{
    abs(v) < infinity()
}

// Whether both ends are finite.
fn are_finite(i: Interval) -> bool
    ensures { result ≡ layout.are_finite i }
{
    is_finite(i.lo) && is_finite(i.hi)
}

// What y and z have to be: finite, the low not above the high.
fn is_rising(i: Interval) -> bool
    ensures { result ≡ layout.is_rising i }
{
    are_finite(i) && !(i.hi < i.lo)
}

// Whether a dimension is, where it is known.
fn rises_where_known(d: Option<Interval>) -> bool
    ensures { result ≡ layout.rises_where_known d }
{
    d.is_none_or(is_rising)
}

// Refuses the numbers of x, y and z.
fn check_numbers(b: BoundingBox) -> Result<(), Refusal>
    ensures { error.number_of result ≡ layout.numbers_refusal b }
{
    if !are_finite(b.x.inner) {
        return Err(Refusal::BadNumbers);
    }
    if !is_rising(b.y) {
        return Err(Refusal::BadNumbers);
    }
    if rises_where_known(b.z) {
        Ok(())
    } else {
        Err(Refusal::BadNumbers)
    }
}

// Refuses a known m, then the numbers.
fn check_box(b: BoundingBox) -> Result<(), Refusal>
    ensures { error.number_of result ≡ layout.box_refusal b }
{
    if b.m.is_some() {
        return Err(Refusal::KnownM);
    }
    check_numbers(b)
}

// The array of x, y and z.
fn laid_out(x: Interval, y: Interval, z: Option<Interval>) -> BboxArray
    ensures { layout.numbered 0 result ≡ layout.given (layout.lows_then_highs x y z) }
{
    match z {
        None => {
            let numbers = [x.lo, y.lo, x.hi, y.hi, 0.0, 0.0];
            BboxArray {
                count: WITHOUT_Z,
                numbers,
            }
        }
        Some(z) => {
            let numbers = [x.lo, y.lo, z.lo, x.hi, y.hi, z.hi];
            BboxArray {
                count: WITH_Z,
                numbers,
            }
        }
    }
}

// The array of a box, with +0 for zero. Refused with 13 where m is known; then with 14 where a known number is NaN or
// infinite, or y or z has its low above its high. x may have: it crosses the antimeridian then.
pub fn to_geoparquet(bounds: BoundingBox) -> Result<BboxArray, Refusal>
    ensures { layout.told result ≡ layout.to_geoparquet bounds }
{
    check_box(bounds)?;
    let plus = bounds.plus_zero();
    Ok(laid_out(plus.x.inner, plus.y, plus.z))
}

// The box, where its numbers are not refused.
fn checked(bounds: BoundingBox) -> Result<BoundingBox, Refusal>
    ensures { bounding_box.given error.number result ≡ bounding_box.numbered (layout.numbers_refusal bounds) bounds }
{
    check_numbers(bounds)?;
    Ok(bounds.plus_zero())
}

// The box of an array. Refused with 12 where it has neither four nor six numbers; then with 14, as
// above.
pub fn from_geoparquet(array: &[f64]) -> Result<BoundingBox, Refusal>
    ensures { bounding_box.given error.number result ≡ layout.from_geoparquet array.now }
{
    match *array {
        [xmin, ymin, xmax, ymax] => checked(BoundingBox::xy(
            WraparoundInterval::from_interval(Interval::new(xmin, xmax)),
            Interval::new(ymin, ymax),
        )),
        [xmin, ymin, zmin, xmax, ymax, zmax] => checked(BoundingBox::xyzm(
            WraparoundInterval::from_interval(Interval::new(xmin, xmax)),
            Interval::new(ymin, ymax),
            Some(Interval::new(zmin, zmax)),
            None,
        )),
        _ => Err(Refusal::BboxLength),
    }
}
