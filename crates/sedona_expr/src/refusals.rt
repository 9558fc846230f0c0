// What a filter call is refused by: each function answers a `Refusal`, or Ok where it finds none. `refusal`
// and `box_refusal`, at the end, have their order. All nodes are checked before any is answered.
ghost use Rattle.std.specs.Prelude.{◌≡◌, ◌≤◌, ◌<◌, ◌+◌, eqb, ltb, length, get_or};
ghost use Rattle.sedona_expr.specs.Error as error;
ghost use Rattle.sedona_expr.specs.Spelled as spelled;
ghost use Rattle.sedona_expr.specs.Tables as tables;
ghost use Rattle.sedona_geometry.specs.Lists as lists;
ghost use Rattle.sedona_expr.specs.Refusals as refusals;
ghost use Rattle.sedona_expr.specs.Within as within;

use crate::error::Refusal;
use crate::names::has_twice;
use crate::tables::{Boxes, FLAG_LIMIT, Kind, Lookup, NODE, Records, Table};

// The words of the largest table, and its nodes.
const MOST_WORDS: usize = 4096;

const MOST_NODES: usize = 1024;

// Node words none, not in fours, or too many.
fn words_refusal(nodes: &[u32]) -> Result<(), Refusal>
    ensures { error.number_of result ≡ refusals.words_refusal nodes.now }
{
    let words = nodes.len();
    if words == 0 {
        return Err(Refusal::Words);
    }
    if words % NODE != 0 {
        return Err(Refusal::Words);
    }
    if words > MOST_WORDS {
        return Err(Refusal::Words);
    }
    Ok(())
}

// Whether a flag is odd and below the limit; or 0, where a box may be missing.
pub fn is_good_flag(none: bool, flag: u8) -> bool
    ensures { result ≡ refusals.good_flag none flag }
{
    (flag < FLAG_LIMIT) & ((flag % 2 == 1) | (none & (flag == 0)))
}

// Whether every flag is good. It goes to the end of the list whatever is found, as does `are_zero_or_one`:
// without a way out before, many are tested at once.
fn are_good_flags(none: bool, flags: &[u8]) -> bool
    ensures { result ≡ lists.are_all (refusals.good_flag none) flags.now }
{
    let mut good = true;
    for flag in flags {
        good = good & is_good_flag(none, *flag);
    }
    good
}

// Literals that are not so many doubles, or have bad flags.
fn literals_refusal(literals: &Boxes) -> Result<(), Refusal>
    ensures { error.number_of result ≡ refusals.literals_refusal (spelled.boxes literals.now) }
{
    if !literals.are_whole() {
        return Err(Refusal::BadLists);
    }
    if are_good_flags(false, literals.flags) {
        Ok(())
    } else {
        Err(Refusal::BadLists)
    }
}

// Whether every byte is 0 or 1.
pub fn are_zero_or_one(bytes: &[u8]) -> bool
    ensures { result ≡ lists.are_all (λ b. ltb b 2) bytes.now }
{
    let mut good = true;
    for byte in bytes {
        good = good & (*byte < 2);
    }
    good
}

// By name: whether there are not as many names as records.
fn are_wrong_names(lookup: &Lookup, records: usize) -> bool
    ensures { result ≡ refusals.wrong_names (spelled.lookup lookup.now) records }
{
    match lookup {
        Lookup::ByPosition => false,
        Lookup::ByName(names) => names.len() != records,
    }
}

// Lists of the records that do not fit one another.
fn lengths_refusal(records: &Records, lookup: &Lookup) -> Result<(), Refusal>
    ensures { error.number_of result ≡ refusals.lengths_refusal (spelled.lookup lookup.now) (spelled.records records.now) }
{
    let count = records.boxes.flags.len();
    if !records.boxes.are_whole() {
        return Err(Refusal::BadLists);
    }
    if records.types.len() != count {
        return Err(Refusal::BadLists);
    }
    if records.known.len() != count {
        return Err(Refusal::BadLists);
    }
    if are_wrong_names(lookup, count) {
        Err(Refusal::BadLists)
    } else {
        Ok(())
    }
}

// A bad flag of a record, or a known byte that is not 0 or 1.
fn values_refusal(flags: &[u8], known: &[u8]) -> Result<(), Refusal>
    ensures { error.number_of result ≡ refusals.values_refusal flags.now known.now }
{
    if !are_good_flags(true, flags) {
        return Err(Refusal::BadLists);
    }
    if are_zero_or_one(known) {
        Ok(())
    } else {
        Err(Refusal::BadLists)
    }
}

// By name: a name twice among the records.
fn twice_refusal(lookup: &Lookup) -> Result<(), Refusal>
    ensures { error.number_of result ≡ refusals.twice_refusal (spelled.lookup lookup.now) }
{
    let Lookup::ByName(names) = lookup else {
        return Ok(());
    };
    if has_twice(names) {
        Err(Refusal::NameTwice)
    } else {
        Ok(())
    }
}

// What the records are refused by: their lengths, their values, then their names.
fn records_refusal(records: &Records, lookup: &Lookup) -> Result<(), Refusal>
    ensures { error.number_of result ≡ refusals.records_refusal (spelled.lookup lookup.now) (spelled.records records.now) }
{
    lengths_refusal(records, lookup)?;
    values_refusal(records.boxes.flags, records.known)?;
    twice_refusal(lookup)
}

// How many literals and columns are lent to the nodes.
#[derive(Clone, Copy)]
pub(crate) struct Lent {
    literals: usize,
    columns: usize,
}

// So many that every number is lent.
const ANY: usize = 0x1_0000_0000;

fn is_lent(count: usize, number: u32) -> bool
    ensures { result ≡ refusals.is_lent count number }
{
    (number as usize) < count
}

// A pair that has a child not below it.
fn pair_refusal(table: &Table, node: u32) -> Result<(), Refusal>
    requires { within.HasNode table.now.nodes.now node }
    ensures { error.number_of result ≡ refusals.pair_refusal table.now.nodes.now node }
{
    let left = table.word(node, 1);
    let right = table.word(node, 2);
    if left >= node {
        return Err(Refusal::BadTree);
    }
    if right >= node {
        Err(Refusal::BadTree)
    } else {
        Ok(())
    }
}

// A leaf whose column is not lent.
fn column_refusal(table: &Table, node: u32, lent: Lent) -> Result<(), Refusal>
    requires { within.HasNode table.now.nodes.now node }
    ensures { error.number_of result ≡ refusals.column_refusal table.now.nodes.now lent node }
{
    let columns = lent.columns;
    if is_lent(columns, table.word(node, 1)) {
        Ok(())
    } else {
        Err(Refusal::NoColumn)
    }
}

// A leaf whose literal or whose column is not lent.
fn leaf_refusal(table: &Table, node: u32, lent: Lent) -> Result<(), Refusal>
    requires { within.HasNode table.now.nodes.now node }
    ensures { error.number_of result ≡ refusals.leaf_refusal table.now.nodes.now lent node }
{
    let literals = lent.literals;
    if is_lent(literals, table.word(node, 3)) {
        return column_refusal(table, node, lent);
    }
    Err(Refusal::NoLiteral)
}

// What a node is refused by.
fn node_refusal(table: &Table, node: u32, lent: Lent) -> Result<(), Refusal>
    requires { within.HasNode table.now.nodes.now node }
    ensures { error.number_of result ≡ refusals.node_refusal table.now.nodes.now lent node }
{
    match Kind::try_from(table.word(node, 0))? {
        Kind::HasZ => column_refusal(table, node, lent),
        Kind::And | Kind::Or => pair_refusal(table, node),
        Kind::Intersects | Kind::Covers => leaf_refusal(table, node, lent),
        Kind::LiteralFalse | Kind::Unknown => Ok(()),
    }
}

// Counts a use of a node as a child.
fn mark(marks: &mut [u16; MOST_NODES], node: u32)
    requires { within.AtMost marks.old 65534 × (node < 1024) }
    ensures { within.Counted marks.new (λ m. get_or marks.old m 0 + refusals.one (eqb node m)) }
{
    let at = node as usize;
    marks[at] += 1;
}

// Counts the uses that a node makes of its children.
fn mark_children(marks: &mut [u16; MOST_NODES], table: &Table, node: u32)
    requires { within.AtMost marks.old 65533 × (within.HasNode table.now.nodes.now node × within.HaveMarks table.now.nodes.now node) }
    ensures { within.Counted marks.new (λ m. get_or marks.old m 0 + refusals.uses_by table.now.nodes.now node m) }
{
    match table.kind(node) {
        Kind::And | Kind::Or => {
            let left = table.word(node, 1);
            let right = table.word(node, 2);
            mark(marks, left);
            mark(marks, right);
        }
        _ => {}
    }
}

// Whether each of the first n marks is 1. (With a way out: without one, as in `are_good_flags`, a filter of
// few nodes took longer.)
fn are_once(marks: &[u16; MOST_NODES], n: usize) -> bool
    requires { n ≤ 1024 }
    ensures { result ≡ refusals.all_below (λ m. eqb (get_or marks.now m 0) 1) n }
{
    marks[..n].iter().all(|mark| *mark == 1)
}

// What the nodes are refused by: each upward, then the use count, by marks that are all clear at first.
// One pass tests the nodes and counts their uses. One node alone has no child, and needs no marks.
fn tree_refusal(table: &Table, lent: Lent) -> Result<(), Refusal>
    requires { (1 ≤ tables.count table.now.nodes.now) × (length table.now.nodes.now ≤ 4096) }
    ensures { error.number_of result ≡ refusals.tree_refusal table.now.nodes.now lent }
{
    let count = table.count();
    if count == 1 {
        return node_refusal(table, 0, lent);
    }
    let mut marks = [0u16; MOST_NODES];
    for node in 0..count as u32 {
        node_refusal(table, node, lent)?;
        mark_children(&mut marks, table, node);
    }
    if are_once(&marks, count - 1) {
        Ok(())
    } else {
        Err(Refusal::BadTree)
    }
}

// What the table is refused by: its words, then its literals.
fn table_refusal(table: &Table) -> Result<(), Refusal>
    ensures { error.number_of result ≡ refusals.table_refusal (spelled.table table.now) }
{
    words_refusal(table.nodes)?;
    literals_refusal(&table.literals)
}

// How many column indices are lent. By name none is looked at.
fn columns_of(lookup: &Lookup, records: usize) -> usize
    ensures { result ≡ refusals.columns_of (spelled.lookup lookup.now) records }
{
    match lookup {
        Lookup::ByPosition => records,
        Lookup::ByName(_) => ANY,
    }
}

// What a call is refused by: the first refusal in this order.
pub(crate) fn refusal(table: &Table, records: &Records, lookup: &Lookup) -> Result<(), Refusal>
    ensures { error.number_of result ≡ refusals.refusal (spelled.lookup lookup.now) (spelled.table table.now) (spelled.records records.now) }
{
    table_refusal(table)?;
    records_refusal(records, lookup)?;
    let lent = Lent {
        literals: table.literals.flags.len(),
        columns: columns_of(lookup, records.boxes.flags.len()),
    };
    tree_refusal(table, lent)
}

// What `filter_bbox`, which has no records, is refused by.
pub(crate) fn box_refusal(table: &Table) -> Result<(), Refusal>
    ensures { error.number_of result ≡ refusals.box_refusal (spelled.table table.now) }
{
    table_refusal(table)?;
    let lent = Lent {
        literals: table.literals.flags.len(),
        columns: ANY,
    };
    tree_refusal(table, lent)
}
