// Boxes as eight doubles, low and high of x, y, z, m, and a flag: 1 box, 2 z known, 4 m known.
ghost use Rattle.std.specs.Prelude.{◌≡◌, cond, ◌≤◌, is_some};
ghost use Rattle.sedona_geometry.specs.BoundingBox as bounding_box;
ghost use Rattle.johikape.specs.Boxes as boxes;

use sedona_expr::error::Refusal;
use sedona_expr::refusals::is_good_flag;
use sedona_expr::tables::{Boxes, ENDS};
use sedona_geometry::bounding_box::BoundingBox;
use sedona_geometry::error::Numbered;
use sedona_geometry::interval::Interval;

pub type Ends = [f64; ENDS];

// The box of eight doubles and a flag; none where the flag is bad.
pub(crate) fn read(ends: &Ends, flag: u8) -> Option<BoundingBox>
    ensures { result ≡ boxes.read ends.now flag }
{
    if is_good_flag(false, flag) {
        return Boxes::new(ends, &[flag]).at(0);
    }
    None
}

pub(crate) fn low(d: Option<Interval>) -> f64
    ensures { result ≡ boxes.low d }
{
    match d {
        None => 0.0,
        Some(i) => i.lo,
    }
}

pub(crate) fn high(d: Option<Interval>) -> f64
    ensures { result ≡ boxes.high d }
{
    match d {
        None => 0.0,
        Some(i) => i.hi,
    }
}

// A flag, where the part is known.
pub(crate) fn flag_of<T: Copy>(part: Option<T>, flag: u32) -> u32
    ensures { (result ≡ cond (is_some part) flag 0) × (result ≤ flag) }
{
    if part.is_some() { flag } else { 0 }
}

// Puts a box.
pub(crate) fn put(ends: &mut Ends, flag: &mut u8, b: BoundingBox)
    ensures { (ends.new ≡ boxes.doubles b) × (flag.new ≡ boxes.flag b) }
{
    let x = b.x.inner;
    *ends = [
        x.lo,
        x.hi,
        b.y.lo,
        b.y.hi,
        low(b.z),
        high(b.z),
        low(b.m),
        high(b.m),
    ];
    *flag = (1 + flag_of(b.z, 2) + flag_of(b.m, 4)) as u8;
}

// Puts the box, where nothing refuses it, and answers the number.
pub(crate) fn put_box<E: Numbered>(ends: &mut Ends, flag: &mut u8, a: Result<BoundingBox, E>) -> u32
    ensures { boxes.Gives (bounding_box.given E.number a) result ends.old ends.new flag.old flag.new }
{
    match a {
        Ok(b) => {
            put(ends, flag, b);
            0
        }
        Err(e) => e.number(),
    }
}

// Whether two boxes intersect: 0 or 1, or 8 where flags are bad.
#[unsafe(no_mangle)]
pub extern "C" fn johikape_box_intersects(a: &Ends, a_flag: u8, b: &Ends, b_flag: u8) -> u32
    ensures { result ≡ boxes.test bounding_box.intersects (boxes.read a.now a_flag) (boxes.read b.now b_flag) }
{
    let Some(first) = read(a, a_flag) else {
        return Refusal::BadLists.number();
    };
    let Some(second) = read(b, b_flag) else {
        return Refusal::BadLists.number();
    };
    if first.intersects(second) { 1 } else { 0 }
}

// Whether the first box contains the second, in the same way.
#[unsafe(no_mangle)]
pub extern "C" fn johikape_box_contains(a: &Ends, a_flag: u8, b: &Ends, b_flag: u8) -> u32
    ensures { result ≡ boxes.test bounding_box.contains (boxes.read a.now a_flag) (boxes.read b.now b_flag) }
{
    let Some(first) = read(a, a_flag) else {
        return Refusal::BadLists.number();
    };
    let Some(second) = read(b, b_flag) else {
        return Refusal::BadLists.number();
    };
    if first.contains(second) { 1 } else { 0 }
}

// The first box becomes one around both; 0, or 8.
#[unsafe(no_mangle)]
pub extern "C" fn johikape_box_merge(a: &mut Ends, a_flag: &mut u8, b: &Ends, b_flag: u8) -> u32
    ensures { boxes.Gives (boxes.merged (boxes.read a.old a_flag.old) (boxes.read b.now b_flag)) result a.old a.new a_flag.old a_flag.new }
{
    let Some(first) = read(a, *a_flag) else {
        return Refusal::BadLists.number();
    };
    let Some(second) = read(b, b_flag) else {
        return Refusal::BadLists.number();
    };
    put(a, a_flag, first.merge_box(second));
    0
}

// The first box becomes what both hold; 0, or 1 where x has two parts, or 8.
#[unsafe(no_mangle)]
pub extern "C" fn johikape_box_intersection(
    a: &mut Ends,
    a_flag: &mut u8,
    b: &Ends,
    b_flag: u8,
) -> u32
    ensures { boxes.Gives (boxes.met (boxes.read a.old a_flag.old) (boxes.read b.now b_flag)) result a.old a.new a_flag.old a_flag.new }
{
    let Some(first) = read(a, *a_flag) else {
        return Refusal::BadLists.number();
    };
    let Some(second) = read(b, b_flag) else {
        return Refusal::BadLists.number();
    };
    put_box(a, a_flag, first.intersection(second))
}

// The box is moved outward in x and y; 0, or 8.
#[unsafe(no_mangle)]
pub extern "C" fn johikape_box_expand_by(a: &mut Ends, a_flag: &mut u8, distance: f64) -> u32
    ensures { boxes.Gives (boxes.expanded (boxes.read a.old a_flag.old) distance) result a.old a.new a_flag.old a_flag.new }
{
    let Some(first) = read(a, *a_flag) else {
        return Refusal::BadLists.number();
    };
    put(a, a_flag, first.expand_by(distance));
    0
}
