// What `bridge_link` has of a link: its record as a list of numbers, and the answer of a call behind it.
#![tactic(auto)]

pub mod called;
pub mod cells;
