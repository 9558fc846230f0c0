// What the storage cooperative bills for the bytes of files that a filter does not rule out. Each call
// is total and equals its definition in specs/, over whole numbers; there is no float here.
#![tactic(auto)]

pub mod error;
pub mod tariff;
