// Exact sums: numbers of 64 bits that say when they are passed, a fraction in lowest terms, the block of numbers of a month, and blocks read back.
#![tactic(auto)]

pub mod adding;
pub mod block;
pub mod fraction;
mod place;
pub mod reader;
pub mod token;
pub mod total;
