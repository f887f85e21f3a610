// The rules, for a table held in any way: what an event changes stands apart from the table.
pub mod answer;
pub mod ask;
pub mod common;
pub mod distinct;
pub mod event;
pub mod link;
pub mod lookup;
pub mod others;
pub mod pass;
pub mod play;
pub mod read;
pub mod receive;
pub mod seat;
pub mod why;
