// Text for the programs that test the library: octets as hexadecimal digits, decimal numbers, an answer in text, and what a
// command ends in where it has none.
#![tactic(auto)]

pub mod numbers;
pub mod octets;
pub mod reply;
#[cfg(test)]
mod tests;
pub mod wrong;

// The longest line that `drive` takes, and the most octets that it can hold.
pub const LINE_SIZE: usize = 4096;

pub const OCTETS_SIZE: usize = LINE_SIZE / 2;
