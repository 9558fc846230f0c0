// The three filter calls, and the search for a name.
ghost use Rattle.std.specs.Prelude.{◌≡◌};
ghost use Rattle.sedona_expr.specs.Tables as tables;
ghost use Rattle.sedona_expr.specs.Calls as calls;
ghost use Rattle.sedona_expr.specs.Error as error;
ghost use Rattle.sedona_expr.specs.Names.{find_name};
ghost use Rattle.johikape.specs.Boxes as boxes;
ghost use Rattle.johikape.specs.Filters as filters;

use crate::boxes::{Ends, put_box};
use sedona_expr::error::Refusal;
use sedona_expr::names::find_name;
use sedona_expr::spatial_filter::{Evaluation, evaluate, filter_bbox};
use sedona_expr::tables::{Lookup, Records, Table};
use sedona_geometry::error::Numbered;

// 0 cannot match, 1 may match, else the number that refuses it.
fn code(answer: Result<Evaluation, Refusal>) -> u32
    ensures { result ≡ filters.code (error.with_number answer) }
{
    match answer {
        Ok(Evaluation::CannotMatch) => 0,
        Ok(Evaluation::MayMatch) => 1,
        Err(e) => e.number(),
    }
}

// Whether a file may match, a leaf's index picking its record.
#[unsafe(no_mangle)]
pub extern "C" fn johikape_evaluate_by_position(
    nodes: &[u32],
    literals: &[f64],
    literal_flags: &[u8],
    records: &[f64],
    record_flags: &[u8],
    record_types: &[u32],
    types_known: &[u8],
) -> u32
    ensures { result ≡ filters.code (calls.evaluate tables.by_position (tables.table nodes.now literals.now literal_flags.now) (tables.records records.now record_flags.now record_types.now types_known.now)) }
{
    let table = Table::new(nodes, literals, literal_flags);
    let records = Records::new(records, record_flags, record_types, types_known);
    code(evaluate(&table, &records, Lookup::ByPosition))
}

// The same, a leaf's name picking its record.
#[unsafe(no_mangle)]
pub extern "C" fn johikape_evaluate_by_name(
    nodes: &[u32],
    literals: &[f64],
    literal_flags: &[u8],
    records: &[f64],
    record_flags: &[u8],
    record_types: &[u32],
    types_known: &[u8],
    names: &[u32],
) -> u32
    ensures { result ≡ filters.code (calls.evaluate (tables.by_name names.now) (tables.table nodes.now literals.now literal_flags.now) (tables.records records.now record_flags.now record_types.now types_known.now)) }
{
    let table = Table::new(nodes, literals, literal_flags);
    let records = Records::new(records, record_flags, record_types, types_known);
    code(evaluate(&table, &records, Lookup::ByName(names)))
}

// The filter's box in the column of a name, into `ends` and `flag`; its number.
#[unsafe(no_mangle)]
pub extern "C" fn johikape_filter_bbox(
    nodes: &[u32],
    literals: &[f64],
    literal_flags: &[u8],
    name: u32,
    ends: &mut Ends,
    flag: &mut u8,
) -> u32
    ensures { boxes.Gives (calls.filter_bbox (tables.table nodes.now literals.now literal_flags.now) name) result ends.old ends.new flag.old flag.new }
{
    let table = Table::new(nodes, literals, literal_flags);
    put_box(ends, flag, filter_bbox(&table, name))
}

// Whether a name is among names; its place, and how many names were compared.
#[unsafe(no_mangle)]
pub extern "C" fn johikape_find_name(
    names: &[u32],
    name: u32,
    place: &mut usize,
    compared: &mut usize,
) -> bool
    ensures { filters.found result place.new compared.new ≡ find_name names.now name }
{
    let found = find_name(names, name);
    *place = found.place.unwrap_or(names.len());
    *compared = found.compared;
    found.place.is_some()
}
