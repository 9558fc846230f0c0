// The text of cases: words read as numbers, answers written, and digests of many answers.
#![tactic(auto)]

pub mod digest;
pub mod output;
pub mod read;
pub mod scan;
pub mod words;
pub mod write;
