// Coordinates, and what has no heads inside it: points, lines of points, and polygons of lines.
ghost use Rattle.std.specs.Prelude.{◌≡◌, ◌+◌, ◌*◌, ◌≤◌, length, drop};
ghost use Rattle.sedona_wkb.specs.Extents as extents;
ghost use Rattle.sedona_wkb.specs.Outcome as outcome;
ghost use Rattle.sedona_wkb.specs.Places as places;
ghost use Rattle.sedona_wkb.specs.Wkb as wkb;

use crate::error::Refusal;
use crate::heads::{Head, LINE_STRING, POINT};
use crate::numbers::{double_at, is_short, word_at};
use sedona_geometry::interval::Interval;

// The coordinates read so far, as intervals.
#[derive(Clone, Copy)]
pub struct Extents {
    pub x: Interval,
    pub y: Interval,
    pub z: Interval,
    pub m: Interval,
}

// Where what was read ends, and the extents with it.
pub type Reached = (usize, Extents);

pub(crate) fn has_z(dims: u32) -> bool
    ensures { result ≡ wkb.has_z dims }
{
    dims % 2 == 1
}

pub(crate) fn has_m(dims: u32) -> bool
    ensures { result ≡ wkb.has_m dims }
{
    1 < dims
}

// How many bytes a z or an m has.
fn width_where(has: bool) -> usize
    ensures { (result ≡ places.width_where has) × (result ≤ 8) }
{
    if has { 8 } else { 0 }
}

// How many bytes a coordinate has.
fn width(dims: u32) -> usize
    ensures { (result ≡ places.width dims) × (result ≤ 32) }
{
    8 + (8 + (width_where(has_z(dims)) + width_where(has_m(dims))))
}

// The interval with the z or the m at a place, where there is one.
fn merge_where(has: bool, bytes: &[u8], at: usize, low: bool, i: Interval) -> Interval
    requires { at + places.width_where has ≤ length bytes.now }
    ensures { result ≡ extents.merge_where i (places.double_where has low bytes.now at) }
{
    if has {
        return i.merge_value(double_at(bytes, at, low));
    }
    i
}

// The extents with the coordinate at a place. (x and y come behind what may not be there, so that the
// bytes of each are read at once.)
fn enter(bytes: &[u8], at: usize, head: Head, e: Extents) -> Extents
    requires { at + places.width head.dims ≤ length bytes.now }
    ensures { result ≡ extents.enter e (places.coordinate_at head bytes.now at) }
{
    let with_z = has_z(head.dims);
    let at_y = at + 8;
    let at_z = at_y + 8;
    let at_m = at_z + width_where(with_z);
    let z = merge_where(with_z, bytes, at_z, head.low, e.z);
    let m = merge_where(has_m(head.dims), bytes, at_m, head.low, e.m);
    let x = e.x.merge_value(double_at(bytes, at, head.low));
    let y = e.y.merge_value(double_at(bytes, at_y, head.low));
    Extents { x, y, z, m }
}

// The extents with so many coordinates from a place on.
fn enter_all(bytes: &[u8], at: usize, count: u32, head: Head, e: Extents) -> Extents
    requires { at + count * places.width head.dims ≤ length bytes.now }
    ensures { result ≡ extents.enter_all e (places.coordinates_at head bytes.now at count) }
{
    let width = width(head.dims);
    let mut place = at;
    let mut entered = e;
    for taken in 0..count {
        entered = enter(bytes, place, head, entered);
        place += width;
    }
    entered
}

fn read_point(bytes: &[u8], at: usize, head: Head, e: Extents) -> Result<Reached, Refusal>
    ensures { outcome.entered e (wkb.read_point head (drop at bytes.now)) ≡ outcome.reached bytes.now result }
{
    let width = width(head.dims);
    if is_short(bytes, at, width) {
        return Err(Refusal::Length);
    }
    Ok((at + width, enter_all(bytes, at, 1, head, e)))
}

// A count, and points. All their bytes are there, or it is short.
fn read_line(bytes: &[u8], at: usize, head: Head, e: Extents) -> Result<Reached, Refusal>
    ensures { outcome.entered e (wkb.read_line head (drop at bytes.now)) ≡ outcome.reached bytes.now result }
{
    if is_short(bytes, at, 4) {
        return Err(Refusal::Length);
    }
    let count = word_at(bytes, at, head.low);
    let first = at + 4;
    let length = count as usize * width(head.dims);
    if is_short(bytes, first, length) {
        return Err(Refusal::Length);
    }
    Ok((first + length, enter_all(bytes, first, count, head, e)))
}

// A count, and as many parts, each read from where the one before it ends.
pub(crate) fn read_parts<R: Fn(usize, Extents) -> Result<Reached, Refusal>>(
    bytes: &[u8],
    at: usize,
    head: Head,
    e: Extents,
    read_part: R,
) -> Result<Reached, Refusal>
    requires { R.IsAlwaysCallable read_part }
    ensures { (part : _) → outcome.Reads bytes.now part (R.post read_part)
        → outcome.entered e (wkb.counted head part (drop at bytes.now)) ≡ outcome.reached bytes.now result }
{
    if is_short(bytes, at, 4) {
        return Err(Refusal::Length);
    }
    let count = word_at(bytes, at, head.low);
    let mut end = at + 4;
    let mut entered = e;
    for taken in 0..count {
        (end, entered) = read_part(end, entered)?;
    }
    Ok((end, entered))
}

// A count, and lines: the rings.
fn read_polygon(bytes: &[u8], at: usize, head: Head, e: Extents) -> Result<Reached, Refusal>
    ensures { outcome.entered e (wkb.read_polygon head (drop at bytes.now)) ≡ outcome.reached bytes.now result }
{
    read_parts(
        bytes,
        at,
        head,
        e,
        |end, entered| read_line(bytes, end, head, entered),
    )
}

// What follows a head of a kind of one.
pub(crate) fn read_one(bytes: &[u8], at: usize, head: Head, e: Extents) -> Result<Reached, Refusal>
    ensures { outcome.entered e (wkb.read_one head (drop at bytes.now)) ≡ outcome.reached bytes.now result }
{
    if head.kind == POINT {
        return read_point(bytes, at, head, e);
    }
    if head.kind == LINE_STRING {
        return read_line(bytes, at, head, e);
    }
    read_polygon(bytes, at, head, e)
}
