// The fee for bytes: those up to 64 GiB at one rate, those above that to 512 GiB at a second, the rest
// at a third, added exactly and rounded once to the cent, halves upward.
ghost use Rattle.std.specs.Prelude.{◌≡◌, ◌≤◌, min};
ghost use Rattle.scan_tariff.specs.Error as error;
ghost use Rattle.scan_tariff.specs.Tariff as tariff;
ghost use Rattle.scan_tariff.specs.Within as within;

use crate::error::Refusal;
use sedona_expr::statistics::GeoStatistics;

// 2^30 bytes, and half of them.
const GIB: u64 = 1073741824;

const HALF_A_GIB: u64 = 536870912;

// Where the first band ends, at 64 GiB, and the second, at 512 GiB.
const FIRST_END: u64 = 68719476736;

const SECOND_END: u64 = 549755813888;

// The most bytes that are billed, 2^40; the most sizes in a list; the highest rate.
const MOST_BYTES: i64 = 1099511627776;

pub const MOST_SIZES: usize = 1000;

const HIGHEST_RATE: u32 = 10000;

// Whole cents for a GiB, in each band.
#[derive(Clone, Copy)]
pub struct Rates {
    pub first: u32,
    pub second: u32,
    pub third: u32,
}

// ---- what is billed

// Whether a size is billed: it is known, and from 0 to 2^40 bytes.
fn is_billed(size: Option<i64>) -> bool
    ensures { result ≡ tariff.is_billed size }
{
    let Some(bytes) = size else {
        return false;
    };
    if bytes < 0 {
        return false;
    }
    bytes <= MOST_BYTES
}

// The size, where it is billed; else missing.
fn billed(size: Option<i64>) -> Option<i64>
    ensures { result ≡ within.billed size }
{
    if is_billed(size) {
        return size;
    }
    None
}

// The sum of no sizes.
pub fn no_bytes() -> Option<i64>
    ensures { result ≡ within.no_bytes }
{
    Some(0)
}

// The sum with a size more; missing where either of them, or the new sum, is not billed.
pub fn with_size(sum: Option<i64>, size: Option<i64>) -> Option<i64>
    ensures { result ≡ within.with_size sum size }
{
    let so_far = billed(sum)?;
    let more = billed(size)?;
    billed(Some(so_far + more))
}

// The sum of a list; missing where a size, or the sum, is not billed.
fn sum_of(sizes: &[Option<i64>]) -> Option<i64>
    ensures { result ≡ within.with_sizes within.no_bytes sizes.now }
{
    let mut sum = no_bytes();
    for size in sizes {
        sum = with_size(sum, *size);
    }
    sum
}

// ---- what it costs

// Refuses a rate that is too high.
fn check_rates(rates: Rates) -> Result<(), Refusal>
    ensures { error.number_of result ≡ tariff.rates_refusal rates }
{
    if rates.first > HIGHEST_RATE {
        return Err(Refusal::BadRate);
    }
    if rates.second > HIGHEST_RATE {
        return Err(Refusal::BadRate);
    }
    if rates.third > HIGHEST_RATE {
        return Err(Refusal::BadRate);
    }
    Ok(())
}

// Cents times 2^30: the bytes in each band times its rate, added.
fn exact(bytes: u64, rates: Rates) -> u64
    requires { (bytes ≤ tariff.most_bytes) × (tariff.rates_refusal rates ≡ 0) }
    ensures { result ≡ tariff.exact bytes rates }
{
    let first = bytes.min(FIRST_END);
    let both = bytes.min(SECOND_END);
    let second = both - first;
    let third = bytes - both;
    first * rates.first as u64 + second * rates.second as u64 + third * rates.third as u64
}

// The cent nearest to so many cents times 2^30, a half upward.
fn nearest_cent(exact: u64) -> u64
    ensures { result ≡ tariff.nearest_cent exact }
{
    let cents = exact / GIB;
    if exact % GIB < HALF_A_GIB {
        return cents;
    }
    cents + 1
}

// ---- the calls

// The fee of a total. Refused with 18 where it is missing, negative or over 2^40; then with 19 where a
// rate is over 10,000.
pub fn fee_of_total(total: Option<i64>, rates: Rates) -> Result<u64, Refusal>
    ensures { tariff.told result ≡ tariff.fee_of_total total rates }
{
    let bytes = billed(total).ok_or(Refusal::BadSize)?;
    check_rates(rates)?;
    Ok(nearest_cent(exact(bytes as u64, rates)))
}

// The fee of a record, by its bytes; or 18, or 19, as above.
pub fn fee_of_record(rec: GeoStatistics, rates: Rates) -> Result<u64, Refusal>
    ensures { tariff.told result ≡ tariff.fee_of_record rec rates }
{
    fee_of_total(rec.total_size_bytes, rates)
}

// The fee of the sum of a lent list. Refused with 18 where it has over 1,000 sizes, of which none is
// read then, or where a size or the sum is missing, negative or over 2^40; then with 19, as above.
pub fn fee_of_sizes(sizes: &[Option<i64>], rates: Rates) -> Result<u64, Refusal>
    ensures { tariff.told result ≡ tariff.fee_of_sizes sizes.now rates }
{
    if sizes.len() > MOST_SIZES {
        return Err(Refusal::BadSize);
    }
    fee_of_total(sum_of(sizes), rates)
}
