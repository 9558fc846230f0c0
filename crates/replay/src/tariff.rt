// The calls of the tariff, of three rates and a record, or of three rates and sizes, with many of which a
// case can ask for more than a line can spell.
use crate::answer::Answer;
use crate::lent::fee;
use crate::names::CallOfTariff;
use crate::records::read_record;
use arrayvec::ArrayVec;
use replay_text::words::{MOST_WORDS, Words};
use scan_tariff::error::Refusal;
use scan_tariff::tariff::{Rates, fee_of_record};

// How many sizes a line can spell behind the rates.
const SPELLED: usize = MOST_WORDS - 3;

// The most sizes, more than may be lent to `fee_of_sizes`.
const MOST_SIZES: usize = 1024;

// What a call answers to words; nothing where they are not its own.
pub fn answer_of_tariff(call: CallOfTariff, mut words: Words) -> Option<Answer> {
    let rates = Rates {
        first: words.read()?,
        second: words.read()?,
        third: words.read()?,
    };
    let given = match call {
        CallOfTariff::FeeOfRecord => {
            let rec = read_record(&mut words)?;
            words.end()?;
            fee_of_record(rec, rates)
        }
        CallOfTariff::FeeOfSizes => {
            let sizes: ArrayVec<Option<i64>, SPELLED> = words.read_all()?;
            fee(sizes.as_slice(), rates)
        }
        CallOfTariff::FeeOfSizesOfMany => {
            let count: u32 = words.read()?;
            let size = words.read()?;
            let last = words.read()?;
            words.end()?;
            if count as usize > MOST_SIZES {
                return None;
            }
            fee_of_many(count as usize, size, last, rates)?
        }
    };
    Some(Answer::Fee(given))
}

// The fee of so many sizes, which are all the same but for the last, where there is room for them. (They are
// an array of its own, which is lent: handed on, it would be copied.)
fn fee_of_many(
    count: usize,
    size: Option<i64>,
    last: Option<i64>,
    rates: Rates,
) -> Option<Result<u64, Refusal>> {
    let mut sizes: [Option<i64>; MOST_SIZES] = [size; MOST_SIZES];
    let lent = sizes.get_mut(..count)?;
    if let Some(place) = lent.last_mut() {
        *place = last;
    }
    Some(fee(lent, rates))
}
