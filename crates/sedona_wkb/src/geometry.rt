// What follows a head: of one, of many, or of a collection, whose parts have heads of their own.
ghost use Rattle.std.specs.Prelude.{◌≡◌, drop};
ghost use Rattle.sedona_wkb.specs.Outcome as outcome;
ghost use Rattle.sedona_wkb.specs.Wkb as wkb;

use crate::coordinates::{Extents, Reached, read_one, read_parts};
use crate::error::Refusal;
use crate::heads::{COLLECTION, Head, POLYGON, read_part_head};

// One of many.
fn read_member(bytes: &[u8], at: usize, parent: Head, e: Extents) -> Result<Reached, Refusal>
    ensures { outcome.entered e (wkb.read_member parent (drop at bytes.now)) ≡ outcome.reached bytes.now result }
{
    let (head, next) = read_part_head(bytes, at, parent)?;
    read_one(bytes, next, head, e)
}

// A count, and as many members.
fn read_many(bytes: &[u8], at: usize, head: Head, e: Extents) -> Result<Reached, Refusal>
    ensures { outcome.entered e (wkb.read_many head (drop at bytes.now)) ≡ outcome.reached bytes.now result }
{
    read_parts(
        bytes,
        at,
        head,
        e,
        |end, entered| read_member(bytes, end, head, entered),
    )
}

// What follows a head, where so many collections may still open.
#[cycle(bodies)]
pub(crate) fn read_body(
    bytes: &[u8],
    at: usize,
    head: Head,
    room: u32,
    e: Extents,
) -> Result<Reached, Refusal>
    ensures { outcome.entered e (wkb.read_body room head (drop at bytes.now)) ≡ outcome.reached bytes.now result }
{
    if head.kind <= POLYGON {
        return read_one(bytes, at, head, e);
    }
    if head.kind < COLLECTION {
        return read_many(bytes, at, head, e);
    }
    if room == 0 {
        return Err(Refusal::Depth);
    }
    read_collection(bytes, at, head, room - 1, e)
}

// A count, and as many geometries.
#[cycle(bodies)]
fn read_collection(
    bytes: &[u8],
    at: usize,
    head: Head,
    room: u32,
    e: Extents,
) -> Result<Reached, Refusal>
    ensures { outcome.entered e (wkb.read_collection room head (drop at bytes.now)) ≡ outcome.reached bytes.now result }
{
    read_parts(
        bytes,
        at,
        head,
        e,
        |end, entered|
            ensures { outcome.entered entered (wkb.read_part room head (drop end bytes.entry.now)) ≡ outcome.reached bytes.entry.now result }
        { read_part(bytes, end, head, room, entered) },
    )
}

// A geometry in a collection.
#[cycle(bodies)]
fn read_part(
    bytes: &[u8],
    at: usize,
    parent: Head,
    room: u32,
    e: Extents,
) -> Result<Reached, Refusal>
    ensures { outcome.entered e (wkb.read_part room parent (drop at bytes.now)) ≡ outcome.reached bytes.now result }
{
    let (head, next) = read_part_head(bytes, at, parent)?;
    read_body(bytes, next, head, room, e)
}
