// Records as ten doubles (the eight of the box, the two lengths), seven totals, a type set, and flags:
// 1, 2, 4 of the box, and behind them a bit each for the types (8), the totals (16 to 1,024) and the
// lengths (2,048 and 4,096).
ghost use Rattle.std.specs.Prelude.{◌≡◌, ◌≤◌, ◌<◌, ◌+◌, ◌*◌, pos, length, drop, get_or};
ghost use Rattle.sedona_expr.specs.Error as error;
ghost use Rattle.sedona_expr.specs.Statistics as statistics;
ghost use Rattle.sedona_geometry.specs.Lists as lists;
ghost use Rattle.johikape.specs.Records as records;
ghost use Rattle.johikape.specs.Within as within;

use crate::boxes::{flag_of, high, low};
use sedona_expr::error::Refusal;
use sedona_expr::refusals::is_good_flag;
use sedona_expr::statistics::{GeoStatistics, fold_step};
use sedona_expr::tables::{Boxes, ENDS, FLAG_LIMIT};
use sedona_geometry::bounding_box::BoundingBox;
use sedona_geometry::error::Numbered;
use sedona_geometry::interval::{Interval, WraparoundInterval};
use sedona_geometry::types::GeometryTypeAndDimensionsSet;

// Doubles of a record: those of its box, and the two lengths.
const WIDTH: usize = ENDS + 2;

pub type Doubles = [f64; WIDTH];

pub type Totals = [i64; 7];

// ---- from C

// Flags behind the box's are counted from this on.
const BASE: u32 = FLAG_LIMIT as u32;

// All flags are below this: there are ten parts beside the box.
const ALL: u32 = BASE * 1024;

// The total at a place.
pub(crate) fn total_at(known: bool, totals: &[i64], at: usize) -> Option<i64>
    requires { at < length totals.now }
    ensures { result ≡ records.total_of known (get_or totals.now at (pos 0)) }
{
    known.then_some(totals[at])
}

// The record of ten doubles, seven totals, a type set and flags.
pub(crate) fn read(doubles: &[f64], totals: &[i64], types: u32, flags: u32) -> GeoStatistics
    requires { (records.width ≤ length doubles.now) × (7 ≤ length totals.now) }
    ensures { result ≡ records.read doubles.now totals.now types flags }
{
    let parts = flags / BASE;
    let set = GeometryTypeAndDimensionsSet::from_bits(types);
    GeoStatistics {
        bbox: Boxes::new(doubles, &[(flags % BASE) as u8]).at(0),
        geometry_types: (parts / 1 % 2 == 1).then_some(set),
        total_geometries: total_at(parts / 2 % 2 == 1, totals, 0),
        total_size_bytes: total_at(parts / 4 % 2 == 1, totals, 1),
        total_points: total_at(parts / 8 % 2 == 1, totals, 2),
        puntal_count: total_at(parts / 16 % 2 == 1, totals, 3),
        lineal_count: total_at(parts / 32 % 2 == 1, totals, 4),
        polygonal_count: total_at(parts / 64 % 2 == 1, totals, 5),
        collection_count: total_at(parts / 128 % 2 == 1, totals, 6),
        total_envelope_width: (parts / 256 % 2 == 1).then_some(doubles[ENDS]),
        total_envelope_height: (parts / 512 % 2 == 1).then_some(doubles[ENDS + 1]),
    }
}

// No flags but those above, and good ones of the box.
pub(crate) fn are_good(flags: u32) -> bool
    ensures { result ≡ records.good_flags flags }
{
    if flags >= ALL {
        return false;
    }
    is_good_flag(true, (flags % BASE) as u8)
}

// ---- to C

// The box, and zeros for none.
fn or_zero(b: Option<BoundingBox>) -> BoundingBox
    ensures { result ≡ records.or_zero b }
{
    match b {
        None => BoundingBox::xy(WraparoundInterval::new(0.0, 0.0), Interval::new(0.0, 0.0)),
        Some(bounds) => bounds,
    }
}

fn bits(t: Option<GeometryTypeAndDimensionsSet>) -> u32
    ensures { result ≡ records.types t }
{
    match t {
        None => 0,
        Some(s) => s.bits(),
    }
}

// The flags of a box, and 0 for none.
fn bbox_flag(b: Option<BoundingBox>) -> u32
    ensures { (result ≡ records.bbox_flag b) × (result ≤ 7) }
{
    match b {
        None => 0,
        Some(b) => 1 + flag_of(b.z, 2) + flag_of(b.m, 4),
    }
}

// The flags of the ten parts beside the box, counted from 1 on.
fn parts_of(r: GeoStatistics) -> u32
    ensures { (result ≡ records.of_bools (records.known r)) × (result ≤ 1023) }
{
    flag_of(r.geometry_types, 1)
        + flag_of(r.total_geometries, 2)
        + flag_of(r.total_size_bytes, 4)
        + flag_of(r.total_points, 8)
        + flag_of(r.puntal_count, 16)
        + flag_of(r.lineal_count, 32)
        + flag_of(r.polygonal_count, 64)
        + flag_of(r.collection_count, 128)
        + flag_of(r.total_envelope_width, 256)
        + flag_of(r.total_envelope_height, 512)
}

fn flags_of(r: GeoStatistics) -> u32
    ensures { result ≡ records.flags r }
{
    bbox_flag(r.bbox) + BASE * parts_of(r)
}

fn put_doubles(doubles: &mut Doubles, r: GeoStatistics)
    ensures { doubles.new ≡ records.doubles r }
{
    let b = or_zero(r.bbox);
    let x = b.x.inner;
    *doubles = [
        x.lo,
        x.hi,
        b.y.lo,
        b.y.hi,
        low(b.z),
        high(b.z),
        low(b.m),
        high(b.m),
        r.total_envelope_width.unwrap_or(0.0),
        r.total_envelope_height.unwrap_or(0.0),
    ];
}

fn put_totals(totals: &mut Totals, r: GeoStatistics)
    ensures { totals.new ≡ records.totals r }
{
    *totals = [
        r.total_geometries.unwrap_or(0),
        r.total_size_bytes.unwrap_or(0),
        r.total_points.unwrap_or(0),
        r.puntal_count.unwrap_or(0),
        r.lineal_count.unwrap_or(0),
        r.polygonal_count.unwrap_or(0),
        r.collection_count.unwrap_or(0),
    ];
}

// Puts a record.
fn put_record(
    doubles: &mut Doubles,
    totals: &mut Totals,
    types: &mut u32,
    flags: &mut u32,
    r: GeoStatistics,
)
    ensures { records.parts doubles.new totals.new types.new flags.new ≡ records.written r }
{
    put_doubles(doubles, r);
    put_totals(totals, r);
    *types = bits(r.geometry_types);
    *flags = flags_of(r);
}

// ---- the calls

// Merges another record into the lent one.
#[unsafe(no_mangle)]
pub extern "C" fn johikape_merge(
    doubles: &mut Doubles,
    totals: &mut Totals,
    types: &mut u32,
    flags: &mut u32,
    other_doubles: &Doubles,
    other_totals: &Totals,
    other_types: u32,
    other_flags: u32,
) -> u32
    ensures { records.Gives (records.merged (records.parts doubles.old totals.old types.old flags.old) (records.parts other_doubles.now other_totals.now other_types other_flags)) result (records.parts doubles.old totals.old types.old flags.old) (records.parts doubles.new totals.new types.new flags.new) }
{
    if !are_good(*flags) {
        return Refusal::BadLists.number();
    }
    if !are_good(other_flags) {
        return Refusal::BadLists.number();
    }
    let a = read(doubles, totals, *types, *flags);
    let b = read(other_doubles, other_totals, other_types, other_flags);
    match a.merge_value(b) {
        Ok(both) => {
            put_record(doubles, totals, types, flags, both);
            0
        }
        Err(e) => e.number(),
    }
}

fn are_all_good(flags: &[u32]) -> bool
    ensures { result ≡ lists.are_all records.good_flags flags.now }
{
    let mut good = true;
    for f in flags {
        good = good & are_good(*f);
    }
    good
}

// Records that are lent: WIDTH doubles, seven totals, a type set and flags each.
#[derive(Clone, Copy)]
pub struct Lent<'a> {
    doubles: &'a [f64],
    totals: &'a [i64],
    types: &'a [u32],
    flags: &'a [u32],
}

// The flags of a record of which every part is known.
const WHOLE: u32 = ALL - 1;

// A fold as far as it has got, and how many records are in it.
#[derive(Clone, Copy)]
pub struct Begun {
    pub folded: Option<GeoStatistics>,
    pub count: usize,
}

impl<'a> Lent<'a> {
    // Refuses lengths that do not fit, and bad flags.
    fn check(&self) -> Result<(), Refusal>
        ensures { error.number_of result ≡ records.lists_refusal (within.lent self.now) }
    {
        let count = self.flags.len();
        let doubles = self.doubles.len();
        let totals = self.totals.len();
        let types = self.types.len();
        if doubles % WIDTH != 0 {
            return Err(Refusal::BadLists);
        }
        if doubles / WIDTH != count {
            return Err(Refusal::BadLists);
        }
        if totals % 7 != 0 {
            return Err(Refusal::BadLists);
        }
        if totals / 7 != count {
            return Err(Refusal::BadLists);
        }
        if types != count {
            return Err(Refusal::BadLists);
        }
        if are_all_good(self.flags) {
            Ok(())
        } else {
            Err(Refusal::BadLists)
        }
    }

    // The record at a place, of which the flags are handed over.
    fn record_at(&self, i: usize, flags: u32) -> GeoStatistics
        requires { (records.width * i + records.width ≤ length self.now.doubles.now) × ((7 * i + 7 ≤ length self.now.totals.now) × (i < length self.now.types.now)) }
        ensures { result ≡ records.read (drop (records.width * i) self.now.doubles.now) (drop (7 * i) self.now.totals.now) (get_or self.now.types.now i 0) flags }
    {
        read(
            &self.doubles[WIDTH * i..],
            &self.totals[7 * i..],
            self.types[i],
            flags,
        )
    }

    // The fold of the first records, as long as every part of them is known. Most lists are so. The compiler
    // sees that each part is known, and keeps nothing but the numbers from one record to the next.
    fn fold_whole(&self) -> Result<Begun, Refusal>
        requires { within.Fit (within.lent self.now) }
        ensures { within.BegunWell (within.lent self.now) result }
    {
        let count = self.flags.len();
        if count == 0 || self.flags[0] != WHOLE {
            return Ok(Begun {
                folded: None,
                count: 0,
            });
        }
        let mut folded = self.record_at(0, WHOLE).plus_zero();
        for i in 1..count {
            if self.flags[i] != WHOLE {
                return Ok(Begun {
                    folded: Some(folded),
                    count: i,
                });
            }
            folded = folded.merge_value(self.record_at(i, WHOLE))?;
        }
        Ok(Begun {
            folded: Some(folded),
            count,
        })
    }

    // The fold of lists that fit.
    fn fold(&self) -> Result<Option<GeoStatistics>, Refusal>
        requires { within.Fit (within.lent self.now) }
        ensures { statistics.folded result ≡ statistics.fold (records.records (within.lent self.now)) }
    {
        let begun = self.fold_whole()?;
        let mut folded = begun.folded;
        for i in begun.count..self.flags.len() {
            folded = Some(fold_step(folded, self.record_at(i, self.flags[i]))?);
        }
        Ok(folded)
    }
}

// Folds the records of the lists, in their order.
#[unsafe(no_mangle)]
pub extern "C" fn johikape_fold(
    doubles: &[f64],
    totals: &[i64],
    types: &[u32],
    flags: &[u32],
    out_doubles: &mut Doubles,
    out_totals: &mut Totals,
    out_types: &mut u32,
    out_flags: &mut u32,
) -> u32
    ensures { records.Gives (records.folded (records.lists doubles.now totals.now types.now flags.now)) result (records.parts out_doubles.old out_totals.old out_types.old out_flags.old) (records.parts out_doubles.new out_totals.new out_types.new out_flags.new) }
{
    let lent = Lent {
        doubles,
        totals,
        types,
        flags,
    };
    if let Err(e) = lent.check() {
        return e.number();
    }
    match lent.fold() {
        Ok(folded) => {
            let rec = folded.unwrap_or(GeoStatistics::unspecified());
            put_record(out_doubles, out_totals, out_types, out_flags, rec);
            0
        }
        Err(e) => e.number(),
    }
}
