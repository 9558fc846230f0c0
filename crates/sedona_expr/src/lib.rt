// Statistics of columns, merged and folded, and filters held against them, after sedona-expr of
// apache/sedona-db. Each call is total and equals its definition in specs/.
#![tactic(auto)]

pub mod error;
pub mod names;
pub mod refusals;
pub mod spatial_filter;
pub mod statistics;
pub mod tables;
