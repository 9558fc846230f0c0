// The call that borrows a box, on a box that is lent to it here.
ghost use Rattle.std.specs.Prelude.{◌≡◌};
ghost use Rattle.sedona_geometry.specs.BoundingBox.{update_box};

use sedona_geometry::bounding_box::BoundingBox;

// What a box holds after `update_box`, to which it is lent.
pub fn updated(mut a: BoundingBox, b: BoundingBox) -> BoundingBox
    ensures { result ≡ update_box a b }
{
    a.update_box(b);
    a
}
