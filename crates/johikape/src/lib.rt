// The library behind C's calling convention: thin functions over numbers and lists of numbers, each
// equal to a definition over the library's. A list is a pointer and then a count; a box or a record
// that is lent alone is a pointer. Where a call is refused, nothing is written.
#![tactic(auto)]

pub mod boxes;
pub mod filters;
pub mod intervals;
pub mod layouts;
pub mod records;
pub mod tariff;
pub mod wkb;
