// What the tests have of the library's values: elements, numbers and records as lists of octets, answers as numbers.
// `bridge` and `bridge_frames` are made of it.
#![tactic(auto)]

pub mod answers;
mod elements_listed;
pub mod fields;
pub mod records;
