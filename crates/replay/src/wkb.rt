// The call of well-known binary: of bytes by their hex digits, with zeros behind them where a case asks
// for more than a line can spell.
use crate::answer::Answer;
use crate::line::SIZE;
use crate::names::CallOfWkb;
use arrayvec::ArrayVec;
use replay_text::read::{Bytes, MOST_BYTES};
use replay_text::words::Words;
use sedona_wkb::bounds::{WkbBounds, wkb_bounds};
use sedona_wkb::error::Refusal;

// The bytes that a line spells, two digits each.
type Spelled = ArrayVec<u8, SPELLED>;

const SPELLED: usize = SIZE / 2;

// What the call answers to words: digits, or how many bytes there are and digits.
pub fn answer_of_wkb(call: CallOfWkb, mut words: Words) -> Option<Answer> {
    let bounds = match call {
        CallOfWkb::Bounds => {
            let bytes: Spelled = words.read_bytes()?;
            wkb_bounds(bytes.as_slice())
        }
        CallOfWkb::BoundsOfPadded => {
            let count: u32 = words.read()?;
            let spelled: Spelled = words.read_bytes()?;
            bounds_of_padded(spelled.as_slice(), count as usize)?
        }
    };
    Some(Answer::Bounds(bounds))
}

// What the call answers to so many bytes, of which the first are spelled, where there is room for them. (The
// bytes are an array of its own, which is lent: handed on, they would be copied.)
fn bounds_of_padded(spelled: &[u8], count: usize) -> Option<Result<WkbBounds, Refusal>> {
    if count < spelled.len() {
        return None;
    }
    let mut bytes: Bytes = [0; MOST_BYTES];
    bytes.get_mut(..spelled.len())?.copy_from_slice(spelled);
    Some(wkb_bounds(bytes.get(..count)?))
}
