// Boxes: an x that may wrap around, a y, and a z and an m that may be missing, after
// bounding_box.rs. Missing is no empty interval: it rules nothing out.
ghost use Rattle.std.specs.Prelude.{◌≡◌};
ghost use Rattle.sedona_geometry.specs.BoundingBox as bounding_box;
ghost use Rattle.sedona_geometry.specs.Error as error;

use crate::error::Refusal;
use crate::interval::{Interval, WraparoundInterval};

// Whether two dimensions that are known intersect; true where one is missing.
pub fn dimensions_intersect(a: Option<Interval>, b: Option<Interval>) -> bool
    ensures { result ≡ bounding_box.dimensions_intersect a b }
{
    a.zip(b).is_none_or(|(a, b)| a.intersects_interval(b))
}

// Whether the first of two that are known contains the second; true where one is missing.
pub fn dimensions_contain(a: Option<Interval>, b: Option<Interval>) -> bool
    ensures { result ≡ bounding_box.dimensions_contain a b }
{
    a.zip(b).is_none_or(|(a, b)| a.contains_interval(b))
}

// Two dimensions merged; missing where one is.
pub fn merge_dimensions(a: Option<Interval>, b: Option<Interval>) -> Option<Interval>
    ensures { result ≡ bounding_box.merge_dimensions a b }
{
    a.zip(b).map(|(a, b)| a.merge_interval(b))
}

// What two dimensions both hold; missing where one is.
pub fn intersect_dimensions(a: Option<Interval>, b: Option<Interval>) -> Option<Interval>
    ensures { result ≡ bounding_box.intersect_dimensions a b }
{
    a.zip(b).map(|(a, b)| a.intersection(b))
}

// A box. Of a z or an m that is missing nothing is known.
#[derive(Clone, Copy)]
pub struct BoundingBox {
    pub x: WraparoundInterval,
    pub y: Interval,
    pub z: Option<Interval>,
    pub m: Option<Interval>,
}

impl BoundingBox {
    // A box of which z and m are not known.
    pub fn xy(x: WraparoundInterval, y: Interval) -> BoundingBox
        ensures { result ≡ bounding_box.xy x y }
    {
        BoundingBox::xyzm(x, y, None, None)
    }

    pub fn xyzm(
        x: WraparoundInterval,
        y: Interval,
        z: Option<Interval>,
        m: Option<Interval>,
    ) -> BoundingBox
        ensures { result ≡ bounding_box.xyzm x y z m }
    {
        BoundingBox {
            x: x.plus_zero(),
            y: y.plus_zero(),
            z: z.map(Interval::plus_zero),
            m: m.map(Interval::plus_zero),
        }
    }

    // The box as a call hands it on, with +0 for zero.
    pub fn plus_zero(self) -> BoundingBox
        ensures { result ≡ bounding_box.plus_zero self }
    {
        BoundingBox::xyzm(self.x, self.y, self.z, self.m)
    }

    // A box of empty x and y.
    pub fn empty() -> BoundingBox
        ensures { result ≡ bounding_box.empty }
    {
        BoundingBox::xy(WraparoundInterval::empty(), Interval::empty())
    }

    // Whether x or y is empty.
    pub fn is_empty(self) -> bool
        ensures { result ≡ bounding_box.is_empty self }
    {
        self.x.is_empty() || self.y.is_empty()
    }

    // Whether the boxes may intersect. z and m are tested only where both know them.
    pub fn intersects(self, other: BoundingBox) -> bool
        ensures { result ≡ bounding_box.intersects self other }
    {
        self.x.intersects_interval(other.x)
            && (self.y.intersects_interval(other.y)
                && (dimensions_intersect(self.z, other.z) && dimensions_intersect(self.m, other.m)))
    }

    // Whether this box contains the other. z and m are tested only where both know them.
    pub fn contains(self, other: BoundingBox) -> bool
        ensures { result ≡ bounding_box.contains self other }
    {
        self.x.contains_interval(other.x)
            && (self.y.contains_interval(other.y)
                && (dimensions_contain(self.z, other.z) && dimensions_contain(self.m, other.m)))
    }

    // x and y moved outward; z and m stay.
    pub fn expand_by(self, distance: f64) -> BoundingBox
        ensures { result ≡ bounding_box.expand_by self distance }
    {
        BoundingBox::xyzm(
            self.x.expand_by(distance),
            self.y.expand_by(distance),
            self.z,
            self.m,
        )
    }

    // A box around both; z and m stay known only where both know them.
    pub fn merge_box(self, other: BoundingBox) -> BoundingBox
        ensures { result ≡ bounding_box.merge_box self other }
    {
        BoundingBox::xyzm(
            self.x.merge_interval(other.x),
            self.y.merge_interval(other.y),
            merge_dimensions(self.z, other.z),
            merge_dimensions(self.m, other.m),
        )
    }

    // The lent box becomes one around both.
    pub fn update_box(&mut self, other: BoundingBox)
        ensures { self.new ≡ bounding_box.update_box self.old other }
    {
        *self = self.merge_box(other);
    }

    // What both hold; refused with 1 where that of x has two parts.
    pub fn intersection(self, other: BoundingBox) -> Result<BoundingBox, Refusal>
        ensures { bounding_box.given error.number result ≡ bounding_box.intersection self other }
    {
        let x = self.x.intersection(other.x)?;
        Ok(BoundingBox::xyzm(
            x,
            self.y.intersection(other.y),
            intersect_dimensions(self.z, other.z),
            intersect_dimensions(self.m, other.m),
        ))
    }
}
