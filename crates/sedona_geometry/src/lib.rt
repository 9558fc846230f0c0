// Intervals of doubles that may wrap, boxes and type sets, after sedona-geometry of apache/sedona-db.
// Each call is total and equals its definition in specs/.
#![tactic(auto)]

pub mod bounding_box;
pub mod error;
pub mod float;
pub mod interval;
pub mod types;
