// The call: the box and the type of the geometry that some bytes spell.
ghost use Rattle.std.specs.Prelude.{◌≡◌, ◌<◌, drop};
ghost use Rattle.sedona_wkb.specs.Bounds as bounds;
ghost use Rattle.sedona_wkb.specs.Extents as extents;
ghost use Rattle.sedona_wkb.specs.Wkb as wkb;

use crate::coordinates::{Extents, has_m, has_z};
use crate::error::Refusal;
use crate::geometry::read_body;
use crate::heads::{Head, read_head};
use sedona_geometry::bounding_box::BoundingBox;
use sedona_geometry::interval::{Interval, WraparoundInterval};
use sedona_geometry::types::GeometryTypeAndDimensionsSet;

// The most bytes that are read.
const MOST_BYTES: usize = 65536;

// The most collections that may nest.
const DEEPEST: u32 = 32;

// A box, and the set of one type.
#[derive(Clone, Copy)]
pub struct WkbBounds {
    pub bounds: BoundingBox,
    pub types: GeometryTypeAndDimensionsSet,
}

// The extents that no coordinate entered.
fn empty() -> Extents
    ensures { result ≡ extents.empty }
{
    let i = Interval::empty();
    Extents {
        x: i,
        y: i,
        z: i,
        m: i,
    }
}

// The extents as a box.
fn box_of(dims: u32, e: Extents) -> BoundingBox
    ensures { result ≡ bounds.box_of dims e }
{
    let x = WraparoundInterval::from_interval(e.x);
    let z = has_z(dims).then_some(e.z);
    let m = has_m(dims).then_some(e.m);
    BoundingBox::xyzm(x, e.y, z, m)
}

// The set of a head's type.
fn types_of(kind: u32, dims: u32) -> GeometryTypeAndDimensionsSet
    requires { (kind < 8) × (dims < 4) }
    ensures { result ≡ bounds.types_of kind dims }
{
    GeometryTypeAndDimensionsSet::from_bits(1u32 << (kind + 8 * dims))
}

// What the bytes behind the head give.
fn bounds_of(bytes: &[u8], at: usize, head: Head) -> Result<WkbBounds, Refusal>
    requires { (head.kind < 8) × (head.dims < 4) }
    ensures { bounds.told result ≡ bounds.answer (wkb.read_rest head (drop at bytes.now)) }
{
    let (end, e) = read_body(bytes, at, head, DEEPEST, empty())?;
    if end < bytes.len() {
        return Err(Refusal::Length);
    }
    Ok(WkbBounds {
        bounds: box_of(head.dims, e),
        types: types_of(head.kind, head.dims),
    })
}

// The box of a geometry in well-known binary, and its type. Refused with 15 where there are more than
// 65,536 bytes; then, from the front, with 15 where bytes are missing or left over, with 16 at a byte
// order or a type code that cannot be there, and with 17 at the type code of a collection more than 32
// deep. NaN is passed over, x never wraps, and a dimension that the type lacks is missing.
pub fn wkb_bounds(bytes: &[u8]) -> Result<WkbBounds, Refusal>
    ensures { bounds.told result ≡ bounds.wkb_bounds bytes.now }
{
    if MOST_BYTES < bytes.len() {
        return Err(Refusal::Length);
    }
    let (head, at) = read_head(bytes, 0)?;
    bounds_of(bytes, at, head)
}
