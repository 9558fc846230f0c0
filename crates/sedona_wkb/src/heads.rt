// Heads of geometries: a byte order and a type code.
ghost use Rattle.std.specs.Prelude.{◌≡◌, drop};
ghost use Rattle.sedona_wkb.specs.Outcome as outcome;
ghost use Rattle.sedona_wkb.specs.Wkb as wkb;

use crate::error::Refusal;
use crate::numbers::{is_short, word_at};

// The kinds of geometries, the last digits of their type codes. A kind of many is that of one plus 3.
pub(crate) const POINT: u32 = 1;

pub(crate) const LINE_STRING: u32 = 2;

pub(crate) const POLYGON: u32 = 3;

pub(crate) const COLLECTION: u32 = 7;

#[derive(Clone, Copy)]
pub struct Head {
    // Whether numbers have their low byte first.
    pub low: bool,
    pub kind: u32,
    // The thousands of the type code: 0 for x and y, 1 with z, 2 with m, 3 with both.
    pub dims: u32,
}

// Whether a head's type code is one.
fn is_type(head: Head) -> bool
    ensures { result ≡ wkb.is_type head }
{
    0 < head.kind && (head.kind <= COLLECTION && head.dims < 4)
}

// The head at a place, and where it ends.
pub(crate) fn read_head(bytes: &[u8], at: usize) -> Result<(Head, usize), Refusal>
    ensures { wkb.read_head (drop at bytes.now) ≡ outcome.headed bytes.now result }
{
    if is_short(bytes, at, 1) {
        return Err(Refusal::Length);
    }
    let order = bytes[at];
    if 1 < order {
        return Err(Refusal::Code);
    }
    if is_short(bytes, at + 1, 4) {
        return Err(Refusal::Length);
    }
    let code = word_at(bytes, at + 1, order == 1);
    let head = Head {
        low: order == 1,
        kind: code % 1000,
        dims: code / 1000,
    };
    if is_type(head) {
        return Ok((head, at + 5));
    }
    Err(Refusal::Code)
}

// Whether a head may be that of a part: its dimensions are the parent's, and many have one of theirs.
fn is_part(parent: Head, head: Head) -> bool
    ensures { result ≡ wkb.is_part parent head }
{
    head.dims == parent.dims
        && (parent.kind == COLLECTION || head.kind as u64 + 3 == parent.kind as u64)
}

// The head of a part at a place, and where it ends.
pub(crate) fn read_part_head(
    bytes: &[u8],
    at: usize,
    parent: Head,
) -> Result<(Head, usize), Refusal>
    ensures { wkb.read_part_head parent (drop at bytes.now) ≡ outcome.headed bytes.now result }
{
    let (head, end) = read_head(bytes, at)?;
    if is_part(parent, head) {
        return Ok((head, end));
    }
    Err(Refusal::Code)
}
