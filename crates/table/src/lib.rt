// The table of thirty-two records: one set of rules, and two ways to hold the table.
#![tactic(auto)]

pub mod host;
pub mod records;
pub mod rules;
