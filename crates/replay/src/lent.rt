// The calls that borrow records, sizes or names, on some that are lent to them here.
ghost use Rattle.std.specs.Prelude.{◌≡◌, length};
ghost use Rattle.sedona_expr.specs.Names.{find_name, search_of};
ghost use Rattle.sedona_expr.specs.Statistics as statistics;
ghost use Rattle.scan_tariff.specs.Tariff as fees;

use scan_tariff::error as tariff;
use scan_tariff::tariff::{Rates, fee_of_sizes};
use sedona_expr::error::Refusal;
use sedona_expr::names::{NameSearch, find_name};
use sedona_expr::statistics::{GeoStatistics, fold};
use sedona_geometry::error::Numbered;

// What `merge` answers, and what a record that is lent to it holds then.
pub fn merged(mut a: GeoStatistics, b: GeoStatistics) -> (u32, GeoStatistics)
    ensures { (result.0 ≡ (statistics.merge a b).number) × (result.1 ≡ (statistics.merge a b).rec) }
{
    match a.merge(b) {
        Ok(()) => (0, a),
        Err(e) => (e.number(), a),
    }
}

// The fold of records that are lent to `fold`.
pub fn folded(records: &[GeoStatistics]) -> Result<Option<GeoStatistics>, Refusal>
    ensures { statistics.folded result ≡ statistics.fold records.now }
{
    fold(records)
}

// The fee of sizes that are lent to `fee_of_sizes`.
pub fn fee(sizes: &[Option<i64>], rates: Rates) -> Result<u64, tariff::Refusal>
    ensures { fees.told result ≡ fees.fee_of_sizes sizes.now rates }
{
    fee_of_sizes(sizes, rates)
}

// The search for a name among names that are lent to `find_name`, and the place that is told: that of the
// name, or how many names there are.
pub fn searched(names: &[u32], name: u32) -> (NameSearch, usize)
    ensures { (search_of (length names.now) result.0 ≡ find_name names.now name) × (result.1 ≡ (find_name names.now name).place) }
{
    let found = find_name(names, name);
    (found, found.place.unwrap_or(names.len()))
}
