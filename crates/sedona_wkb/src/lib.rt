// Boxes from well-known binary: the bytes of a geometry are read once, from the front. The one call is
// total and equals its definition in specs/.
#![tactic(auto)]

pub mod bounds;
mod coordinates;
pub mod error;
mod geometry;
mod heads;
mod numbers;
