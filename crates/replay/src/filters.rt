// The calls of filters, over the tables that are lent to them.
use crate::answer::Answer;
use crate::lent::searched;
use crate::names::CallOfTables;
use crate::tables::Tables;
use replay_text::words::Words;
use sedona_expr::spatial_filter::{evaluate, filter_bbox};
use sedona_expr::tables::Lookup;

// What a call answers to words; nothing where they are not its own. `filter_bbox` and `find_name` take a
// name, the others no word.
pub fn answer_of_tables(call: CallOfTables, mut words: Words, tables: &Tables) -> Option<Answer> {
    let name = match call {
        CallOfTables::FilterBbox | CallOfTables::FindName => words.read()?,
        CallOfTables::EvaluateByPosition | CallOfTables::EvaluateByName => 0,
    };
    words.end()?;
    let names = tables.names.as_slice();
    let filter = tables.filter();
    let records = tables.records();
    let answer = match call {
        CallOfTables::EvaluateByPosition => {
            Answer::Evaluation(evaluate(&filter, &records, Lookup::ByPosition))
        }
        CallOfTables::EvaluateByName => {
            Answer::Evaluation(evaluate(&filter, &records, Lookup::ByName(names)))
        }
        CallOfTables::FilterBbox => Answer::FilterBox(filter_bbox(&filter, name)),
        CallOfTables::FindName => {
            let (found, place) = searched(names, name);
            Answer::Search(found, place)
        }
    };
    Some(answer)
}
