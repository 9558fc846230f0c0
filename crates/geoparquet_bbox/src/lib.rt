// The two published layouts of a box, each turned into the other: GeoParquet's `bbox` array, and the
// named low and high fields of Parquet's geospatial statistics, which are those of `BoundingBox`. Each
// call is total and equals its definition in specs/.
#![tactic(auto)]

pub mod error;
pub mod layout;
