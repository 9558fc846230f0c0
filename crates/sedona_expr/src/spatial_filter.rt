// Filters held against the records of columns, after spatial_filter.rs: what a filter answers, its
// box, and the two calls. tables.rt has how filters and records are lent, refusals.rt which are
// refused.
ghost use Rattle.std.specs.Prelude.{◌≡◌, ◌&&◌, ◌||◌};
ghost use Rattle.sedona_geometry.specs.BoundingBox as bounding_box;
ghost use Rattle.sedona_expr.specs.SpatialFilter as filter;
ghost use Rattle.sedona_expr.specs.Spelled as spelled;
ghost use Rattle.sedona_expr.specs.Tables as tables;
ghost use Rattle.sedona_expr.specs.Calls as calls;
ghost use Rattle.sedona_expr.specs.Error as error;
ghost use Rattle.sedona_expr.specs.Within as within;

use crate::error::Refusal;
use crate::refusals::{box_refusal, refusal};
use crate::tables::{ColumnRecord, Kind, Lookup, Records, Table, record_of};
use sedona_geometry::bounding_box::BoundingBox;
use sedona_geometry::interval::{Interval, WraparoundInterval};
use sedona_geometry::types::GeometryTypeAndDimensionsSet;

#[derive(Clone, Copy, Debug, PartialEq, Eq)]
pub enum Evaluation {
    MayMatch,
    CannotMatch,
}

// Whether a record's box meets the literal; true where it has none.
fn may_intersect(b: Option<BoundingBox>, literal: BoundingBox) -> bool
    ensures { result ≡ filter.may_intersect b literal }
{
    b.is_none_or(|b| b.intersects(literal))
}

// Whether a record's box contains the literal; true where it has none.
fn may_cover(b: Option<BoundingBox>, literal: BoundingBox) -> bool
    ensures { result ≡ filter.may_cover b literal }
{
    b.is_none_or(|b| b.contains(literal))
}

// What an Intersects, else a Covers, answers.
fn box_may_match(kind: Kind, b: Option<BoundingBox>, literal: BoundingBox) -> bool
    ensures { result ≡ tables.leaf_of (spelled.kind kind) (filter.may_intersect b literal) (filter.may_cover b literal) }
{
    match kind {
        Kind::Intersects => may_intersect(b, literal),
        _ => may_cover(b, literal),
    }
}

// The bits of the types with z: 8 to 15 with z alone, 24 to 31 with z and m.
const Z_TYPES: u32 = 0xff00_ff00;

// Whether a set has a type with z.
fn has_z_type(types: GeometryTypeAndDimensionsSet) -> bool
    ensures { result ≡ filter.has_z_type types }
{
    types.types & Z_TYPES != 0
}

// Whether the types have one with z; true where they are missing.
fn may_be_z(types: Option<GeometryTypeAndDimensionsSet>) -> bool
    ensures { result ≡ filter.may_be_z types }
{
    types.is_none_or(has_z_type)
}

// Whether a z is known and empty.
fn is_known_empty(d: Option<Interval>) -> bool
    ensures { result ≡ filter.is_known_empty d }
{
    d.is_some_and(Interval::is_empty)
}

// Whether a record's z is.
fn has_empty_z(b: Option<BoundingBox>) -> bool
    ensures { result ≡ filter.has_empty_z b }
{
    b.is_some_and(|b| is_known_empty(b.z))
}

// What a HasZ answers: false where z is known and empty, else as the types say.
fn may_have_z(seen: ColumnRecord) -> bool
    ensures { result ≡ filter.may_have_z seen }
{
    let bbox = seen.bbox;
    if has_empty_z(bbox) {
        return false;
    }
    let types = seen.types;
    may_be_z(types)
}

// What a leaf answers of the record that it finds. (It is looked for where the kinds have parted: then
// the types are read for a HasZ alone.)
fn leaf_may_match(table: &Table, records: &Records, lookup: &Lookup, node: u32) -> bool
    requires { within.HasNode table.now.nodes.now node }
    ensures { result ≡ filter.answer (tables.record_of (spelled.lookup lookup.now) (spelled.records records.now)) (tables.leaf_at (spelled.table table.now) node) }
{
    let kind = table.kind(node);
    match kind {
        Kind::HasZ => may_have_z(record_of(table, records, lookup, node)),
        _ => {
            let literal = table.literal_of(node);
            let seen = record_of(table, records, lookup, node);
            box_may_match(kind, seen.bbox, literal)
        }
    }
}

// Whether the tree of a node may match.
fn may_match(table: &Table, records: &Records, lookup: &Lookup, node: u32) -> bool
    requires { within.HasNode table.now.nodes.now node }
    ensures { result ≡ filter.answer (tables.record_of (spelled.lookup lookup.now) (spelled.records records.now)) (tables.tree_at (spelled.table table.now) node) }
{
    let kind = table.kind(node);
    match kind {
        Kind::Intersects | Kind::Covers | Kind::HasZ => {
            leaf_may_match(table, records, lookup, node)
        }
        Kind::And | Kind::Or => {
            let Some(pair) = table.children_of(node) else {
                return true;
            };
            let a = may_match(table, records, lookup, pair.left);
            let b = may_match(table, records, lookup, pair.right);
            match kind {
                Kind::And => a & b,
                _ => a | b,
            }
        }
        Kind::LiteralFalse | Kind::Unknown => kind == Kind::Unknown,
    }
}

// All x and y, z and m missing.
fn full() -> BoundingBox
    ensures { result ≡ filter.full }
{
    BoundingBox::xy(WraparoundInterval::full(), Interval::full())
}

// The intersection, or all where it is refused. (The boxes are lent: so a node of the filter box's recursion
// keeps less on the stack.)
fn intersection_or_full(a: &BoundingBox, b: &BoundingBox) -> BoundingBox
    ensures { result ≡ filter.or_full (bounding_box.intersection a.now b.now) }
{
    match a.intersection(*b) {
        Ok(both) => both,
        Err(_) => full(),
    }
}

// The box of a leaf, for the column of a name.
fn leaf_box(table: &Table, name: u32, node: u32) -> BoundingBox
    requires { within.HasNode table.now.nodes.now node }
    ensures { result ≡ filter.box_for name (tables.leaf_at (spelled.table table.now) node) }
{
    if table.word(node, 2) != name {
        return full();
    }
    match table.kind(node) {
        Kind::HasZ => full(),
        _ => table.literal_of(node),
    }
}

// The box of the tree of a node, for the column of a name.
fn box_for(table: &Table, name: u32, node: u32) -> BoundingBox
    requires { within.HasNode table.now.nodes.now node }
    ensures { result ≡ filter.box_for name (tables.tree_at (spelled.table table.now) node) }
{
    let kind = table.kind(node);
    match kind {
        Kind::Intersects | Kind::Covers | Kind::HasZ => return leaf_box(table, name, node),
        Kind::LiteralFalse => return BoundingBox::empty(),
        _ => {}
    }
    let Some(pair) = table.children_of(node) else {
        return full();
    };
    let a = box_for(table, name, pair.left);
    let b = box_for(table, name, pair.right);
    match kind {
        Kind::And => intersection_or_full(&a, &b),
        _ => a.merge_box(b),
    }
}

// Whether the filter may match a file, whose records are the columns' by their places or their names.
pub fn evaluate(table: &Table, records: &Records, lookup: Lookup) -> Result<Evaluation, Refusal>
    ensures { error.with_number result ≡ calls.evaluate (spelled.lookup lookup.entry) (spelled.table table.now) (spelled.records records.now) }
{
    refusal(table, records, &lookup)?;
    let root = (table.count() - 1) as u32;
    if may_match(table, records, &lookup, root) {
        Ok(Evaluation::MayMatch)
    } else {
        Ok(Evaluation::CannotMatch)
    }
}

// The filter's box in the column of a name. Demand 3 says which rows it reaches; it can be empty
// where a file may match (P10).
pub fn filter_bbox(table: &Table, name: u32) -> Result<BoundingBox, Refusal>
    ensures { bounding_box.given error.number result ≡ calls.filter_bbox (spelled.table table.now) name }
{
    box_refusal(table)?;
    let root = (table.count() - 1) as u32;
    Ok(box_for(table, name, root).plus_zero())
}
