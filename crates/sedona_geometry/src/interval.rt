// Intervals in one dimension, plain and wrapping around, after interval.rs.
// Every interval is made by `new`, `empty` or `full`, and so has +0 for zero. One whose fields the
// caller filled may have -0: it is read as 0.
ghost use Rattle.std.specs.Prelude.{◌≡◌, Bool};
ghost use Rattle.sedona_geometry.specs.Interval as interval;
ghost use Rattle.sedona_geometry.specs.WraparoundInterval as wraparound;
ghost use Rattle.sedona_geometry.specs.Within as within;

use crate::error::Refusal;
use crate::float::{abs, infinity, max, min, plus_zero};

// The numbers from lo to hi, both ends among them. It never wraps around.
#[derive(Clone, Copy)]
pub struct Interval {
    pub lo: f64,
    pub hi: f64,
}

impl Interval {
    pub fn new(lo: f64, hi: f64) -> Interval
        ensures { result ≡ interval.new lo hi }
    {
        Interval {
            lo: plus_zero(lo),
            hi: plus_zero(hi),
        }
    }

    // The interval as a call hands it on, with +0 for zero.
    pub(crate) fn plus_zero(self) -> Interval
        ensures { result ≡ interval.plus_zero self }
    {
        Interval::new(self.lo, self.hi)
    }

    // Accepts no value.
    pub fn empty() -> Interval
        ensures { result ≡ interval.empty }
    {
        Interval::new(infinity(), -infinity())
    }

    // Accepts every value but a NaN.
    pub fn full() -> Interval
        ensures { result ≡ interval.full }
    {
        Interval::new(-infinity(), infinity())
    }

    pub fn is_wraparound(self) -> bool
        ensures { result ≡ Bool.false }
    {
        false
    }

    // Whether the interval accepts the value.
    pub fn intersects_value(self, value: f64) -> bool
        ensures { result ≡ interval.intersects_value self value }
    {
        value >= self.lo && value <= self.hi
    }

    pub fn intersects_interval(self, other: Interval) -> bool
        ensures { result ≡ interval.intersects_interval self other }
    {
        self.lo <= other.hi && other.lo <= self.hi
    }

    pub fn contains_interval(self, other: Interval) -> bool
        ensures { result ≡ interval.contains_interval self other }
    {
        self.lo <= other.lo && self.hi >= other.hi
    }

    pub fn width(self) -> f64
        ensures { result ≡ interval.width self }
    {
        self.hi - self.lo
    }

    pub fn mid(self) -> f64
        ensures { result ≡ interval.mid self }
    {
        self.lo + self.width() / 2.0
    }

    pub fn is_empty(self) -> bool
        ensures { result ≡ interval.is_empty self }
    {
        self.width() == -infinity()
    }

    pub fn is_full(self) -> bool
        ensures { result ≡ interval.is_full self }
    {
        self.lo == -infinity() && self.hi == infinity()
    }

    // The least interval around both. A NaN end is passed over.
    pub fn merge_interval(self, other: Interval) -> Interval
        ensures { result ≡ interval.merge_interval self other }
    {
        Interval::new(min(self.lo, other.lo), max(self.hi, other.hi))
    }

    // The least interval around this one and a value. A NaN is passed over.
    pub fn merge_value(self, value: f64) -> Interval
        ensures { result ≡ interval.merge_value self value }
    {
        Interval::new(min(self.lo, value), max(self.hi, value))
    }

    // Both ends moved outward. A distance that is NaN or negative changes nothing.
    pub fn expand_by(self, distance: f64) -> Interval
        ensures { result ≡ interval.expand_by self distance }
    {
        if self.is_unmoved_by(distance) {
            return self.plus_zero();
        }
        Interval::new(self.lo - distance, self.hi + distance)
    }

    // Whether expanding changes nothing: empty, or a distance that is NaN or negative.
    fn is_unmoved_by(self, distance: f64) -> bool
        ensures { result ≡ interval.is_unmoved_by self distance }
    {
        if self.is_empty() {
            return true;
        }
        if distance != distance {
            return true;
        }
        distance < 0.0
    }

    // What both hold; empty where they are apart.
    pub fn intersection(self, other: Interval) -> Interval
        ensures { result ≡ interval.intersection self other }
    {
        let lo = max(self.lo, other.lo);
        let hi = min(self.hi, other.hi);
        if lo > hi {
            Interval::empty()
        } else {
            Interval::new(lo, hi)
        }
    }
}

// An x: where it wraps it holds the values up to hi and those from lo on.
#[derive(Clone, Copy)]
pub struct WraparoundInterval {
    pub inner: Interval,
}

// The two plain intervals that an x stands for.
#[derive(Clone, Copy)]
pub struct Pieces {
    pub left: Interval,
    pub right: Interval,
}

impl Pieces {
    // Whether one of the pieces intersects the interval.
    fn intersect(self, other: Interval) -> bool
        ensures { result ≡ wraparound.pieces_intersect self other }
    {
        other.intersects_interval(self.left) || other.intersects_interval(self.right)
    }

    // Whether the interval is empty, or one of the pieces contains it.
    fn contain(self, other: Interval) -> bool
        ensures { result ≡ wraparound.pieces_contain self other }
    {
        other.is_empty()
            || (self.left.contains_interval(other) || self.right.contains_interval(other))
    }
}

impl WraparoundInterval {
    pub fn new(lo: f64, hi: f64) -> WraparoundInterval
        ensures { result ≡ wraparound.new lo hi }
    {
        WraparoundInterval {
            inner: Interval::new(lo, hi),
        }
    }

    // Accepts no value.
    pub fn empty() -> WraparoundInterval
        ensures { result ≡ wraparound.empty }
    {
        WraparoundInterval::from_interval(Interval::empty())
    }

    // Accepts every value but a NaN.
    pub fn full() -> WraparoundInterval
        ensures { result ≡ wraparound.full }
    {
        WraparoundInterval::from_interval(Interval::full())
    }

    pub fn from_interval(inner: Interval) -> WraparoundInterval
        ensures { result ≡ wraparound.from_interval inner }
    {
        WraparoundInterval::new(inner.lo, inner.hi)
    }

    // The x as a call hands it on, with +0 for zero.
    pub(crate) fn plus_zero(self) -> WraparoundInterval
        ensures { result ≡ wraparound.plus_zero self }
    {
        WraparoundInterval::from_interval(self.inner)
    }

    // The plain interval with the same ends; a wrapped x is refused with 2.
    pub fn try_into_interval(self) -> Result<Interval, Refusal>
        ensures { result ≡ wraparound.try_into_interval self }
    {
        if self.is_wraparound() {
            return Err(Refusal::Wrapped);
        }
        Ok(self.inner.plus_zero())
    }

    // The pieces: where the x does not wrap, the interval itself and an empty one.
    pub fn split(self) -> Pieces
        ensures { result ≡ wraparound.split self }
    {
        let inner = self.inner;
        if self.is_wraparound() {
            Pieces {
                left: Interval::new(-infinity(), inner.hi),
                right: Interval::new(inner.lo, infinity()),
            }
        } else {
            Pieces {
                left: inner.plus_zero(),
                right: Interval::empty(),
            }
        }
    }

    // Whether the x wraps around: it is not empty and its width is below 0.
    pub fn is_wraparound(self) -> bool
        ensures { result ≡ wraparound.is_wraparound self }
    {
        !self.is_empty() && self.inner.width() < 0.0
    }

    // Whether the x accepts the value.
    pub fn intersects_value(self, value: f64) -> bool
        ensures { result ≡ wraparound.intersects_value self value }
    {
        let a = self.split();
        a.left.intersects_value(value) || a.right.intersects_value(value)
    }

    // Whether both run low to high. Then neither wraps or is empty, and their ends alone tell what is
    // asked of the two. Most x are so: no width is taken of them, and no piece made. (The contract also
    // says of the ends that they are doubles, which the laws of the two ask.)
    fn both_rise(self, other: WraparoundInterval) -> bool
        ensures { (result ≡ within.both_rise self other) × (interval.Doubles self.inner × interval.Doubles other.inner) }
    {
        let a = self.inner;
        let b = other.inner;
        (a.lo <= a.hi) & (b.lo <= b.hi)
    }

    // Whether some piece of this x and some piece of the other intersect.
    pub fn intersects_interval(self, other: WraparoundInterval) -> bool
        ensures { result ≡ wraparound.intersects_interval self other }
    {
        if self.both_rise(other) {
            return self.inner.intersects_interval(other.inner);
        }
        self.intersects_by_pieces(other)
    }

    // The same of any two.
    fn intersects_by_pieces(self, other: WraparoundInterval) -> bool
        ensures { result ≡ wraparound.intersects_interval self other }
    {
        let a = self.split();
        let b = other.split();
        b.intersect(a.left) || b.intersect(a.right)
    }

    // Whether every piece of the other that is not empty lies inside some piece.
    pub fn contains_interval(self, other: WraparoundInterval) -> bool
        ensures { result ≡ wraparound.contains_interval self other }
    {
        if self.both_rise(other) {
            return self.inner.contains_interval(other.inner);
        }
        self.contains_by_pieces(other)
    }

    // The same of any two.
    fn contains_by_pieces(self, other: WraparoundInterval) -> bool
        ensures { result ≡ wraparound.contains_interval self other }
    {
        let a = self.split();
        let b = other.split();
        a.contain(b.left) && a.contain(b.right)
    }

    // The width; of a wrapped x infinity.
    pub fn width(self) -> f64
        ensures { result ≡ wraparound.width self }
    {
        if self.is_wraparound() {
            infinity()
        } else {
            self.inner.width()
        }
    }

    // The midpoint; of a wrapped x infinity.
    pub fn mid(self) -> f64
        ensures { result ≡ wraparound.mid self }
    {
        if self.is_wraparound() {
            infinity()
        } else {
            self.inner.mid()
        }
    }

    pub fn is_empty(self) -> bool
        ensures { result ≡ wraparound.is_empty self }
    {
        self.inner.is_empty()
    }

    pub fn is_full(self) -> bool
        ensures { result ≡ wraparound.is_full self }
    {
        self.inner.is_full()
    }

    // An x around both. An empty one yields the other.
    pub fn merge_interval(self, other: WraparoundInterval) -> WraparoundInterval
        ensures { result ≡ wraparound.merge_interval self other }
    {
        if self.both_rise(other) {
            return WraparoundInterval::from_interval(self.inner.merge_interval(other.inner));
        }
        self.merge_any(other)
    }

    // The same of any two.
    fn merge_any(self, other: WraparoundInterval) -> WraparoundInterval
        ensures { result ≡ wraparound.merge_interval self other }
    {
        if self.is_empty() {
            return other.plus_zero();
        }
        if other.is_empty() {
            return self.plus_zero();
        }
        self.merge_non_empty(other)
    }

    // Two x that are not empty, by which of them wrap.
    fn merge_non_empty(self, other: WraparoundInterval) -> WraparoundInterval
        ensures { result ≡ wraparound.merge_non_empty self other }
    {
        if self.is_wraparound() {
            if other.is_wraparound() {
                return self.merge_wrapped(other);
            }
            return self.merge_plain(other);
        }
        if other.is_wraparound() {
            return other.merge_plain(self);
        }
        WraparoundInterval::from_interval(self.inner.merge_interval(other.inner))
    }

    // Two wrapped x: their left and their right pieces are merged.
    fn merge_wrapped(self, other: WraparoundInterval) -> WraparoundInterval
        ensures { result ≡ wraparound.merge_wrapped self other }
    {
        let a = self.split();
        let b = other.split();
        WraparoundInterval::from_pieces(
            a.left.merge_interval(b.left),
            a.right.merge_interval(b.right),
        )
    }

    // A wrapped x and a plain one, which joins the piece whose finite end is nearer its midpoint.
    // At equal or NaN distances it joins the right.
    fn merge_plain(self, other: WraparoundInterval) -> WraparoundInterval
        ensures { result ≡ wraparound.merge_plain self other }
    {
        let a = self.split();
        let mid = other.mid();
        if abs(mid - a.left.hi) < abs(mid - a.right.lo) {
            WraparoundInterval::from_pieces(a.left.merge_interval(other.inner), a.right)
        } else {
            WraparoundInterval::from_pieces(a.left, a.right.merge_interval(other.inner))
        }
    }

    // The wrapped x of two pieces; full where they meet.
    fn from_pieces(left: Interval, right: Interval) -> WraparoundInterval
        ensures { result ≡ wraparound.from_pieces left right }
    {
        if left.intersects_interval(right) {
            WraparoundInterval::full()
        } else {
            WraparoundInterval::new(right.lo, left.hi)
        }
    }

    // An x around this one and a value. A NaN is passed over.
    pub fn merge_value(self, value: f64) -> WraparoundInterval
        ensures { result ≡ wraparound.merge_value self value }
    {
        if self.intersects_value(value) || value != value {
            return self.plus_zero();
        }
        if !self.is_wraparound() {
            return WraparoundInterval::from_interval(self.inner.merge_value(value));
        }
        self.move_end(value)
    }

    // A wrapped x and a value that it does not accept: the nearer end moves there, at a tie lo.
    fn move_end(self, value: f64) -> WraparoundInterval
        ensures { result ≡ wraparound.move_end self value }
    {
        let distance_left = value - self.inner.hi;
        let distance_right = self.inner.lo - value;
        if distance_left < distance_right {
            WraparoundInterval::new(self.inner.lo, value)
        } else {
            WraparoundInterval::new(value, self.inner.hi)
        }
    }

    // Both ends moved outward; a wrapped x whose ends then meet is full. A distance that is NaN or
    // negative changes nothing.
    pub fn expand_by(self, distance: f64) -> WraparoundInterval
        ensures { result ≡ wraparound.expand_by self distance }
    {
        if self.inner.is_unmoved_by(distance) {
            return self.plus_zero();
        }
        if !self.is_wraparound() {
            return WraparoundInterval::from_interval(self.inner.expand_by(distance));
        }
        WraparoundInterval::excluding(self.inner.hi + distance, self.inner.lo - distance)
    }

    // The wrapped x that leaves out what lies between lo and hi; full where nothing does.
    fn excluding(lo: f64, hi: f64) -> WraparoundInterval
        ensures { result ≡ wraparound.excluding lo hi }
    {
        if lo >= hi {
            return WraparoundInterval::full();
        }
        WraparoundInterval::new(hi, lo)
    }

    // What both hold, where it has one part; refused with 1 where it has two.
    pub fn intersection(self, other: WraparoundInterval) -> Result<WraparoundInterval, Refusal>
        ensures { result ≡ wraparound.intersection self other }
    {
        if self.is_wraparound() {
            if other.is_wraparound() {
                return self.intersect_wrapped(other);
            }
            return other.intersect_plain(self);
        }
        if other.is_wraparound() {
            return self.intersect_plain(other);
        }
        Ok(WraparoundInterval::from_interval(self.inner.intersection(other.inner)))
    }

    // A plain x and a wrapped one: one of the wrapped one's pieces can be met, not both.
    fn intersect_plain(self, other: WraparoundInterval) -> Result<WraparoundInterval, Refusal>
        ensures { result ≡ wraparound.intersect_plain self other }
    {
        let b = other.split();
        let left = self.inner.intersects_interval(b.left);
        let right = self.inner.intersects_interval(b.right);
        if left {
            if right {
                return Err(Refusal::TwoParts);
            }
            return Ok(WraparoundInterval::from_interval(self.inner.intersection(b.left)));
        }
        if right {
            return Ok(WraparoundInterval::from_interval(self.inner.intersection(b.right)));
        }
        Ok(WraparoundInterval::empty())
    }

    // Two wrapped x: what they leave out is merged, unless it is apart.
    fn intersect_wrapped(self, other: WraparoundInterval) -> Result<WraparoundInterval, Refusal>
        ensures { result ≡ wraparound.intersect_wrapped self other }
    {
        let excluded_self = Interval::new(self.inner.hi, self.inner.lo);
        let excluded_other = Interval::new(other.inner.hi, other.inner.lo);
        if excluded_self.intersects_interval(excluded_other) {
            let union = excluded_self.merge_interval(excluded_other);
            Ok(WraparoundInterval::new(union.hi, union.lo))
        } else {
            Err(Refusal::TwoParts)
        }
    }
}

impl From<Interval> for WraparoundInterval {
    ghost from_gives = { λ inner x. x ≡ wraparound.from_interval inner };

    fn from(inner: Interval) -> Self {
        WraparoundInterval::from_interval(inner)
    }
}

impl TryFrom<WraparoundInterval> for Interval {
    type Error = Refusal;

    ghost try_from_gives = { λ x result. result ≡ wraparound.try_into_interval x };

    fn try_from(x: WraparoundInterval) -> Result<Self, Refusal> {
        x.try_into_interval()
    }
}
