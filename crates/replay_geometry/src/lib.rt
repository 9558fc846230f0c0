// The calls of sedona_geometry in the case language: single cases and sweeps.
#![tactic(auto)]

pub mod answer;
pub mod boxes;
pub mod calls;
mod lent;
pub mod names;
pub mod sweep;
