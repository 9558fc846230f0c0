// The tables that are lent to a filter call, and what is read in them. A filter comes as a table of
// nodes, four words each; the last node is the root. The words are a kind and three more:
//   0 Intersects, 1 Covers   column index, name number, literal number
//   2 HasZ                   column index, name number, unread
//   3 And, 4 Or              left node, right node, unread
//   5 LiteralFalse, 6 Unknown   unread
// Boxes, of the literals and of the columns' records, come as ENDS doubles each, low and high of x,
// y, z, m, and a flag byte: 1 box, 2 z known, 4 m known. A record's types come as the 32 bits of
// their set, and a byte: 1 where they are known.
ghost use Rattle.std.specs.Prelude.{◌≡◌, ◌≤◌, ◌+◌, ◌*◌, length};
ghost use Rattle.sedona_expr.specs.Spelled as spelled;
ghost use Rattle.sedona_expr.specs.Refusals as refusals;
ghost use Rattle.sedona_expr.specs.Tables as tables;
ghost use Rattle.sedona_expr.specs.Within as within;

use crate::error::Refusal;
use crate::names::find_name;
use sedona_geometry::bounding_box::BoundingBox;
use sedona_geometry::interval::{Interval, WraparoundInterval};
use sedona_geometry::types::GeometryTypeAndDimensionsSet;

// What a node is.
#[derive(Clone, Copy, Debug, PartialEq, Eq)]
pub enum Kind {
    Intersects,
    Covers,
    HasZ,
    And,
    Or,
    LiteralFalse,
    Unknown,
}

// The word of an Unknown. No kind has a word over it.
const LAST_KIND: u32 = 6;

impl Kind {
    // The kind that a word stands for; an Unknown where it stands for none.
    fn of(word: u32) -> Kind
        ensures { spelled.kind result ≡ within.kind_or_unknown word }
    {
        match word {
            0 => Kind::Intersects,
            1 => Kind::Covers,
            2 => Kind::HasZ,
            3 => Kind::And,
            4 => Kind::Or,
            5 => Kind::LiteralFalse,
            _ => Kind::Unknown,
        }
    }
}

impl TryFrom<u32> for Kind {
    type Error = Refusal;

    ghost try_from_gives = { spelled.Reads };

    fn try_from(word: u32) -> Result<Self, Refusal> {
        if word > LAST_KIND {
            return Err(Refusal::UnknownKind);
        }
        Ok(Kind::of(word))
    }
}

// Doubles of a box.
pub const ENDS: usize = 8;

// Flags are below this.
pub const FLAG_LIMIT: u8 = 8;

// Words of a node.
pub(crate) const NODE: usize = 4;

// Boxes that are lent.
#[derive(Clone, Copy)]
pub struct Boxes<'a> {
    pub doubles: &'a [f64],
    pub flags: &'a [u8],
}

// Interval k, of x, y, z, m, of the box at a place.
fn interval_at(doubles: &[f64], place: usize, k: usize) -> Interval
    requires { (tables.ends * place + tables.ends ≤ length doubles.now) × (k ≤ 3) }
    ensures { result ≡ tables.interval_at doubles.now place k }
{
    let at = ENDS * place + 2 * k;
    Interval::new(doubles[at], doubles[at + 1])
}

// The box at a place, with its flag.
fn box_with(doubles: &[f64], place: usize, flag: u8) -> BoundingBox
    requires { tables.ends * place + tables.ends ≤ length doubles.now }
    ensures { result ≡ tables.box_with doubles.now place flag }
{
    let x = interval_at(doubles, place, 0);
    let y = interval_at(doubles, place, 1);
    let z = interval_at(doubles, place, 2);
    let m = interval_at(doubles, place, 3);
    BoundingBox::xyzm(
        WraparoundInterval::from_interval(x),
        y,
        (flag / 2 % 2 == 1).then_some(z),
        (flag / 4 % 2 == 1).then_some(m),
    )
}

impl<'a> Boxes<'a> {
    // The boxes that two lists spell.
    pub fn new(doubles: &'a [f64], flags: &'a [u8]) -> Boxes<'a>
        ensures { (result.doubles.now ≡ doubles.now) × (result.flags.now ≡ flags.now) }
    {
        Boxes { doubles, flags }
    }

    // Whether there are ENDS doubles a flag.
    pub(crate) fn are_whole(&self) -> bool
        ensures { result ≡ refusals.are_in_boxes (spelled.boxes self.now) }
    {
        if self.doubles.len() % ENDS != 0 {
            return false;
        }
        self.doubles.len() / ENDS == self.flags.len()
    }

    // The box at a place; none where the flag says so, and none past the end.
    pub fn at(&self, place: usize) -> Option<BoundingBox>
        ensures { result ≡ tables.box_at (spelled.boxes self.now) place }
    {
        if place >= self.doubles.len() / ENDS {
            return None;
        }
        if place >= self.flags.len() {
            return None;
        }
        let flag = self.flags[place];
        if flag % 2 == 1 {
            return Some(box_with(self.doubles, place, flag));
        }
        None
    }
}

// A literal's box.
fn or_empty(b: Option<BoundingBox>) -> BoundingBox
    ensures { result ≡ tables.or_empty b }
{
    let Some(bounds) = b else {
        return BoundingBox::empty();
    };
    bounds
}

// A filter: the words of its nodes, and its literals.
#[derive(Clone, Copy)]
pub struct Table<'a> {
    pub nodes: &'a [u32],
    pub literals: Boxes<'a>,
}

// The children of a node.
#[derive(Clone, Copy)]
pub(crate) struct Pair {
    pub(crate) left: u32,
    pub(crate) right: u32,
}

impl<'a> Table<'a> {
    // The filter that lists spell: its nodes' words, its literals' doubles and flags.
    pub fn new(nodes: &'a [u32], literals: &'a [f64], literal_flags: &'a [u8]) -> Table<'a>
        ensures { (result.nodes.now ≡ nodes.now) × (result.literals.doubles.now ≡ literals.now) × (result.literals.flags.now ≡ literal_flags.now) }
    {
        Table {
            nodes,
            literals: Boxes::new(literals, literal_flags),
        }
    }

    // How many nodes.
    pub(crate) fn count(&self) -> usize
        ensures { result ≡ tables.count self.now.nodes.now }
    {
        self.nodes.len() / NODE
    }

    // Word k of a node that is there.
    pub(crate) fn word(&self, node: u32, k: u32) -> u32
        requires { within.HasNode self.now.nodes.now node × (k ≤ 3) }
        ensures { result ≡ tables.word self.now.nodes.now node k }
    {
        let at = NODE * node as usize + k as usize;
        self.nodes[at]
    }

    // The kind that the first of them stands for; an Unknown where it stands for none. (Such a node is refused
    // before.)
    pub(crate) fn kind(&self, node: u32) -> Kind
        requires { within.HasNode self.now.nodes.now node }
        ensures { spelled.kind result ≡ within.kind_or_unknown (tables.kind self.now.nodes.now node) }
    {
        Kind::of(self.word(node, 0))
    }

    // The children of an And or an Or, where both are below it. (One that is not is refused before.)
    pub(crate) fn children_of(&self, node: u32) -> Option<Pair>
        requires { within.HasNode self.now.nodes.now node }
        ensures { result ≡ within.children_of self.now.nodes.now node }
    {
        match self.kind(node) {
            Kind::And | Kind::Or => {
                let left = self.word(node, 1);
                let right = self.word(node, 2);
                if left >= node {
                    return None;
                }
                if right >= node {
                    return None;
                }
                Some(Pair { left, right })
            }
            _ => None,
        }
    }

    // The literal of a leaf.
    pub(crate) fn literal_of(&self, node: u32) -> BoundingBox
        requires { within.HasNode self.now.nodes.now node }
        ensures { result ≡ tables.literal (spelled.table self.now) node }
    {
        or_empty(self.literals.at(self.word(node, 3) as usize))
    }
}

// A column's record as a leaf sees it: its box, or none, and its types, or none.
#[derive(Clone, Copy)]
pub struct ColumnRecord {
    pub bbox: Option<BoundingBox>,
    pub types: Option<GeometryTypeAndDimensionsSet>,
}

// The records of the columns: a box each, and types with a byte each.
#[derive(Clone, Copy)]
pub struct Records<'a> {
    pub boxes: Boxes<'a>,
    pub types: &'a [u32],
    pub known: &'a [u8],
}

impl<'a> Records<'a> {
    // The records that lists spell: their boxes' doubles and flags, their types, and the bytes beside these.
    pub fn new(
        doubles: &'a [f64],
        flags: &'a [u8],
        types: &'a [u32],
        known: &'a [u8],
    ) -> Records<'a>
        ensures { (result.boxes.doubles.now ≡ doubles.now) × (result.boxes.flags.now ≡ flags.now) × (result.types.now ≡ types.now) × (result.known.now ≡ known.now) }
    {
        Records {
            boxes: Boxes::new(doubles, flags),
            types,
            known,
        }
    }

    // The types at a place; none where the byte says so, and none past the end.
    fn types_at(&self, place: usize) -> Option<GeometryTypeAndDimensionsSet>
        ensures { result ≡ tables.types_at self.now.types.now self.now.known.now place }
    {
        if place >= self.types.len() {
            return None;
        }
        if place >= self.known.len() {
            return None;
        }
        if self.known[place] == 1 {
            return Some(GeometryTypeAndDimensionsSet::from_bits(self.types[place]));
        }
        None
    }

    // The record at a place.
    pub(crate) fn at(&self, place: usize) -> ColumnRecord
        ensures { result ≡ tables.record_at (spelled.records self.now) place }
    {
        ColumnRecord {
            bbox: self.boxes.at(place),
            types: self.types_at(place),
        }
    }
}

// How a leaf finds its record: by its column's index, or by its name among the records' names.
#[derive(Clone, Copy)]
pub enum Lookup<'a> {
    ByPosition,
    ByName(&'a [u32]),
}

impl<'a> Lookup<'a> {
    // The place of a record.
    fn place(&self, index: u32, name: u32) -> usize
        ensures { result ≡ tables.place (spelled.lookup self.now) (tables.column index name) }
    {
        match self {
            Lookup::ByPosition => index as usize,
            Lookup::ByName(names) => find_name(names, name).place.unwrap_or(names.len()),
        }
    }
}

// The record of a leaf.
pub(crate) fn record_of(
    table: &Table,
    records: &Records,
    lookup: &Lookup,
    node: u32,
) -> ColumnRecord
    requires { within.HasNode table.now.nodes.now node }
    ensures { result ≡ tables.record_of (spelled.lookup lookup.now) (spelled.records records.now) (tables.column_of table.now.nodes.now node) }
{
    let index = table.word(node, 1);
    let name = table.word(node, 2);
    records.at(lookup.place(index, name))
}
