// What Rust's standard library gives interval.rs: least, greatest, absolute value and infinity; and
// +0 for zero.
ghost use Rattle.std.specs.Prelude.{◌≡◌, false};
ghost use Rattle.std.specs.Float.{inf};
ghost use Rattle.sedona_geometry.specs.Float as float;

// +0 for -0, and else the number as it is: so IEEE 754 adds +0.
pub(crate) fn plus_zero(v: f64) -> f64
    ensures { result ≡ float.plus_zero v }
{
    v + 0.0
}

// The smaller of two numbers, a zero as +0. A NaN is passed over.
pub fn min(a: f64, b: f64) -> f64
    ensures { result ≡ float.min_num a b }
{
    if a != a {
        plus_zero(b)
    } else if b < a {
        plus_zero(b)
    } else {
        plus_zero(a)
    }
}

// The greater of two numbers, a zero as +0. A NaN is passed over.
pub fn max(a: f64, b: f64) -> f64
    ensures { result ≡ float.max_num a b }
{
    if a != a {
        plus_zero(b)
    } else if a < b {
        plus_zero(b)
    } else {
        plus_zero(a)
    }
}

// The number without its sign.
pub fn abs(x: f64) -> f64
    ensures { result ≡ float.abs x }
{
    if x < 0.0 {
        -x
    } else if x == 0.0 {
        0.0
    } else {
        x
    }
}

// Plus infinity: no constant can hold it.
pub fn infinity() -> f64
    ensures { result ≡ inf false }
{
    1.0 / 0.0
}
