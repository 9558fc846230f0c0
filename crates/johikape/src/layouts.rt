// GeoParquet's `bbox` arrays: (xmin, ymin, xmax, ymax), or with z (xmin, ymin, zmin, xmax, ymax, zmax).
ghost use Rattle.std.specs.Prelude.{◌≡◌};
ghost use Rattle.geoparquet_bbox.specs.Layout as layout;
ghost use Rattle.johikape.specs.Boxes as boxes;
ghost use Rattle.johikape.specs.Layouts as layouts;

use crate::boxes::{Ends, put_box, read};
use geoparquet_bbox::error as layouts;
use geoparquet_bbox::layout::{BboxArray, from_geoparquet, to_geoparquet};
use sedona_expr::error::Refusal;
use sedona_geometry::error::Numbered;

// Room for an array.
pub type Six = [f64; 6];

// Puts the array, where nothing refuses it, and answers the number.
fn put_array(array: &mut Six, count: &mut usize, a: Result<BboxArray, layouts::Refusal>) -> u32
    ensures { layouts.Gives (layout.told a) result array.old array.new count.old count.new }
{
    match a {
        Ok(a) => {
            let numbers = a.numbers;
            *array = numbers;
            *count = a.count;
            0
        }
        Err(e) => e.number(),
    }
}

// The box as an array, with 0 behind it, and how many numbers it has; 0, or 8, 13 or 14.
#[unsafe(no_mangle)]
pub extern "C" fn johikape_box_to_geoparquet(
    ends: &Ends,
    flag: u8,
    array: &mut Six,
    count: &mut usize,
) -> u32
    ensures { layouts.Gives (layouts.laid_out (boxes.read ends.now flag)) result array.old array.new count.old count.new }
{
    let Some(bounds) = read(ends, flag) else {
        return Refusal::BadLists.number();
    };
    put_array(array, count, to_geoparquet(bounds))
}

// The box of an array; 0, or 12 or 14.
#[unsafe(no_mangle)]
pub extern "C" fn johikape_box_from_geoparquet(array: &[f64], ends: &mut Ends, flag: &mut u8) -> u32
    ensures { boxes.Gives (layout.from_geoparquet array.now) result ends.old ends.new flag.old flag.new }
{
    put_box(ends, flag, from_geoparquet(array))
}
