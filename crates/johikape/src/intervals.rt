// Intervals by their ends: plain ones, and x, which may wrap around.
ghost use Rattle.std.specs.Prelude.{◌≡◌};
ghost use Rattle.sedona_geometry.specs.Interval as interval;
ghost use Rattle.sedona_geometry.specs.WraparoundInterval as wraparound;
ghost use Rattle.johikape.specs.Intervals as intervals;

use sedona_geometry::error::Numbered;
use sedona_geometry::interval::{Interval, WraparoundInterval};

#[repr(C)]
#[derive(Clone, Copy)]
pub struct JohikapeInterval {
    pub lo: f64,
    pub hi: f64,
}

fn plain(i: JohikapeInterval) -> Interval
    ensures { result ≡ intervals.plain i }
{
    Interval::new(i.lo, i.hi)
}

fn x(i: JohikapeInterval) -> WraparoundInterval
    ensures { result ≡ intervals.x i }
{
    WraparoundInterval::new(i.lo, i.hi)
}

fn ends(i: Interval) -> JohikapeInterval
    ensures { result ≡ intervals.ends i }
{
    JohikapeInterval { lo: i.lo, hi: i.hi }
}

// ---- plain

#[unsafe(no_mangle)]
pub extern "C" fn johikape_interval_accepts(a: JohikapeInterval, value: f64) -> bool
    ensures { result ≡ interval.intersects_value (intervals.plain a) value }
{
    plain(a).intersects_value(value)
}

#[unsafe(no_mangle)]
pub extern "C" fn johikape_interval_intersects(a: JohikapeInterval, b: JohikapeInterval) -> bool
    ensures { result ≡ interval.intersects_interval (intervals.plain a) (intervals.plain b) }
{
    plain(a).intersects_interval(plain(b))
}

#[unsafe(no_mangle)]
pub extern "C" fn johikape_interval_contains(a: JohikapeInterval, b: JohikapeInterval) -> bool
    ensures { result ≡ interval.contains_interval (intervals.plain a) (intervals.plain b) }
{
    plain(a).contains_interval(plain(b))
}

#[unsafe(no_mangle)]
pub extern "C" fn johikape_interval_is_empty(a: JohikapeInterval) -> bool
    ensures { result ≡ interval.is_empty (intervals.plain a) }
{
    plain(a).is_empty()
}

#[unsafe(no_mangle)]
pub extern "C" fn johikape_interval_width(a: JohikapeInterval) -> f64
    ensures { result ≡ interval.width (intervals.plain a) }
{
    plain(a).width()
}

#[unsafe(no_mangle)]
pub extern "C" fn johikape_interval_mid(a: JohikapeInterval) -> f64
    ensures { result ≡ interval.mid (intervals.plain a) }
{
    plain(a).mid()
}

#[unsafe(no_mangle)]
pub extern "C" fn johikape_interval_merge(
    a: JohikapeInterval,
    b: JohikapeInterval,
) -> JohikapeInterval
    ensures { result ≡ intervals.ends (interval.merge_interval (intervals.plain a) (intervals.plain b)) }
{
    ends(plain(a).merge_interval(plain(b)))
}

#[unsafe(no_mangle)]
pub extern "C" fn johikape_interval_merge_value(a: JohikapeInterval, value: f64) -> JohikapeInterval
    ensures { result ≡ intervals.ends (interval.merge_value (intervals.plain a) value) }
{
    ends(plain(a).merge_value(value))
}

#[unsafe(no_mangle)]
pub extern "C" fn johikape_interval_intersection(
    a: JohikapeInterval,
    b: JohikapeInterval,
) -> JohikapeInterval
    ensures { result ≡ intervals.ends (interval.intersection (intervals.plain a) (intervals.plain b)) }
{
    ends(plain(a).intersection(plain(b)))
}

#[unsafe(no_mangle)]
pub extern "C" fn johikape_interval_expand_by(
    a: JohikapeInterval,
    distance: f64,
) -> JohikapeInterval
    ensures { result ≡ intervals.ends (interval.expand_by (intervals.plain a) distance) }
{
    ends(plain(a).expand_by(distance))
}

// ---- x

#[unsafe(no_mangle)]
pub extern "C" fn johikape_x_wraps(a: JohikapeInterval) -> bool
    ensures { result ≡ wraparound.is_wraparound (intervals.x a) }
{
    x(a).is_wraparound()
}

#[unsafe(no_mangle)]
pub extern "C" fn johikape_x_accepts(a: JohikapeInterval, value: f64) -> bool
    ensures { result ≡ wraparound.intersects_value (intervals.x a) value }
{
    x(a).intersects_value(value)
}

#[unsafe(no_mangle)]
pub extern "C" fn johikape_x_intersects(a: JohikapeInterval, b: JohikapeInterval) -> bool
    ensures { result ≡ wraparound.intersects_interval (intervals.x a) (intervals.x b) }
{
    x(a).intersects_interval(x(b))
}

#[unsafe(no_mangle)]
pub extern "C" fn johikape_x_contains(a: JohikapeInterval, b: JohikapeInterval) -> bool
    ensures { result ≡ wraparound.contains_interval (intervals.x a) (intervals.x b) }
{
    x(a).contains_interval(x(b))
}

#[unsafe(no_mangle)]
pub extern "C" fn johikape_x_is_empty(a: JohikapeInterval) -> bool
    ensures { result ≡ wraparound.is_empty (intervals.x a) }
{
    x(a).is_empty()
}

#[unsafe(no_mangle)]
pub extern "C" fn johikape_x_width(a: JohikapeInterval) -> f64
    ensures { result ≡ wraparound.width (intervals.x a) }
{
    x(a).width()
}

#[unsafe(no_mangle)]
pub extern "C" fn johikape_x_mid(a: JohikapeInterval) -> f64
    ensures { result ≡ wraparound.mid (intervals.x a) }
{
    x(a).mid()
}

#[unsafe(no_mangle)]
pub extern "C" fn johikape_x_merge(a: JohikapeInterval, b: JohikapeInterval) -> JohikapeInterval
    ensures { result ≡ intervals.ends (wraparound.merge_interval (intervals.x a) (intervals.x b)).inner }
{
    ends(x(a).merge_interval(x(b)).inner)
}

#[unsafe(no_mangle)]
pub extern "C" fn johikape_x_merge_value(a: JohikapeInterval, value: f64) -> JohikapeInterval
    ensures { result ≡ intervals.ends (wraparound.merge_value (intervals.x a) value).inner }
{
    ends(x(a).merge_value(value).inner)
}

#[unsafe(no_mangle)]
pub extern "C" fn johikape_x_expand_by(a: JohikapeInterval, distance: f64) -> JohikapeInterval
    ensures { result ≡ intervals.ends (wraparound.expand_by (intervals.x a) distance).inner }
{
    ends(x(a).expand_by(distance).inner)
}

// What both hold, into `lo` and `hi`; refused with 1 where that has two parts.
#[unsafe(no_mangle)]
pub extern "C" fn johikape_x_intersection(
    a: JohikapeInterval,
    b: JohikapeInterval,
    lo: &mut f64,
    hi: &mut f64,
) -> u32
    ensures { intervals.Gives (wraparound.intersection (intervals.x a) (intervals.x b)) result lo.old lo.new hi.old hi.new }
{
    match x(a).intersection(x(b)) {
        Ok(met) => {
            *lo = met.inner.lo;
            *hi = met.inner.hi;
            0
        }
        Err(e) => e.number(),
    }
}
