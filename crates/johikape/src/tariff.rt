// Fees: of a record, and of a list of sizes with a known byte for each.
ghost use Rattle.std.specs.Prelude.{◌≡◌, length};
ghost use Rattle.scan_tariff.specs.Tariff as fees;
ghost use Rattle.scan_tariff.specs.Within as within;
ghost use Rattle.sedona_expr.specs.Error as error;
ghost use Rattle.johikape.specs.Records as records;
ghost use Rattle.johikape.specs.Tariff as tariff;

use crate::records::{Doubles, Totals, are_good, read, total_at};
use scan_tariff::error as scan;
use scan_tariff::tariff::{MOST_SIZES, Rates, fee_of_record, fee_of_total, no_bytes, with_size};
use sedona_expr::error::Refusal;
use sedona_expr::refusals::are_zero_or_one;
use sedona_geometry::error::Numbered;

// Puts the fee, where nothing refuses it, and answers the number.
fn put_fee(cents: &mut u64, a: Result<u64, scan::Refusal>) -> u32
    ensures { tariff.Gives (fees.told a) result cents.old cents.new }
{
    match a {
        Ok(fee) => {
            *cents = fee;
            0
        }
        Err(e) => e.number(),
    }
}

// The fee of a record, by its bytes; 0, or 8, 18 or 19.
#[unsafe(no_mangle)]
pub extern "C" fn johikape_fee_of_record(
    doubles: &Doubles,
    totals: &Totals,
    types: u32,
    flags: u32,
    first: u32,
    second: u32,
    third: u32,
    cents: &mut u64,
) -> u32
    ensures { tariff.Gives (tariff.fee_of_record (records.parts doubles.now totals.now types flags) (tariff.rates first second third)) result cents.old cents.new }
{
    if !are_good(flags) {
        return Refusal::BadLists.number();
    }
    let rec = read(doubles, totals, types, flags);
    let rates = Rates {
        first,
        second,
        third,
    };
    put_fee(cents, fee_of_record(rec, rates))
}

// Refuses counts that differ, and known bytes that are not 0 or 1.
fn check_sizes(sizes: &[i64], known: &[u8]) -> Result<(), Refusal>
    ensures { error.number_of result ≡ tariff.sizes_refusal sizes.now known.now }
{
    if sizes.len() != known.len() {
        return Err(Refusal::BadLists);
    }
    if are_zero_or_one(known) {
        Ok(())
    } else {
        Err(Refusal::BadLists)
    }
}

// The sum of lists that fit; missing where a size, or the sum, is not billed.
fn sum_of(sizes: &[i64], known: &[u8]) -> Option<i64>
    requires { length sizes.now ≡ length known.now }
    ensures { result ≡ within.with_sizes within.no_bytes (tariff.sizes sizes.now known.now) }
{
    let mut sum = no_bytes();
    for i in 0..sizes.len() {
        sum = with_size(sum, total_at(known[i] == 1, sizes, i));
    }
    sum
}

// The fee of the sum of a list, with a known byte for each size; 0, or 8, 18 or 19.
#[unsafe(no_mangle)]
pub extern "C" fn johikape_fee_of_sizes(
    sizes: &[i64],
    known: &[u8],
    first: u32,
    second: u32,
    third: u32,
    cents: &mut u64,
) -> u32
    ensures { tariff.Gives (tariff.fee_of_sizes sizes.now known.now (tariff.rates first second third)) result cents.old cents.new }
{
    if let Err(e) = check_sizes(sizes, known) {
        return e.number();
    }
    if sizes.len() > MOST_SIZES {
        return scan::Refusal::BadSize.number();
    }
    let rates = Rates {
        first,
        second,
        third,
    };
    put_fee(cents, fee_of_total(sum_of(sizes, known), rates))
}
