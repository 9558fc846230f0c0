// Geometries in well-known binary.
ghost use Rattle.std.specs.Prelude.{◌≡◌};
ghost use Rattle.sedona_wkb.specs.Bounds as bounds;
ghost use Rattle.johikape.specs.Wkb as wkb;

use crate::boxes::{Ends, put};
use sedona_geometry::error::Numbered;
use sedona_wkb::bounds::wkb_bounds;

// The box of a geometry, and the set of its type; 0, or 15, 16 or 17.
#[unsafe(no_mangle)]
pub extern "C" fn johikape_box_from_wkb(
    bytes: &[u8],
    ends: &mut Ends,
    flag: &mut u8,
    types: &mut u32,
) -> u32
    ensures { wkb.Gives (bounds.wkb_bounds bytes.now) result ends.old ends.new flag.old flag.new types.old types.new }
{
    match wkb_bounds(bytes) {
        Ok(found) => {
            put(ends, flag, found.bounds);
            *types = found.types.bits();
            0
        }
        Err(e) => e.number(),
    }
}
