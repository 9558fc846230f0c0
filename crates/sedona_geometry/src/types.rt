// The set of geometry types with their dimensions, a bit each, after types.rs: bit 0 to 7 the types
// in x and y, 8 to 15 with z, 16 to 23 with m, 24 to 31 with both.
ghost use Rattle.std.specs.Prelude.{◌≡◌};
ghost use Rattle.sedona_geometry.specs.Types as types;

#[derive(Clone, Copy)]
pub struct GeometryTypeAndDimensionsSet {
    pub types: u32,
}

impl GeometryTypeAndDimensionsSet {
    // The set of nothing.
    pub fn new() -> GeometryTypeAndDimensionsSet
        ensures { result ≡ types.new }
    {
        GeometryTypeAndDimensionsSet { types: 0 }
    }

    pub fn from_bits(bits: u32) -> GeometryTypeAndDimensionsSet
        ensures { result ≡ types.from_bits bits }
    {
        GeometryTypeAndDimensionsSet { types: bits }
    }

    pub fn bits(self) -> u32
        ensures { result ≡ types.bits self }
    {
        self.types
    }

    // The types of either set.
    pub fn merge(self, other: GeometryTypeAndDimensionsSet) -> GeometryTypeAndDimensionsSet
        ensures { result ≡ types.merge self other }
    {
        GeometryTypeAndDimensionsSet {
            types: self.types | other.types,
        }
    }

    pub fn is_empty(self) -> bool
        ensures { result ≡ types.is_empty self }
    {
        self.types == 0
    }

    // How many types the set has.
    pub fn size(self) -> usize
        ensures { result ≡ types.size self }
    {
        u32::count_ones(self.types) as usize
    }

    // The set with every type taken out.
    pub fn clear(self) -> GeometryTypeAndDimensionsSet
        ensures { result ≡ types.clear self }
    {
        GeometryTypeAndDimensionsSet::new()
    }
}
