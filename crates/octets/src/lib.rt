// Octets and classes: addresses, fields, frame classes, elements, what a frame says and how one is written. No state, no role.
#![tactic(auto)]

pub mod address;
pub mod answer;
pub mod class;
pub mod element;
pub mod field;
pub mod frame;
pub mod heard;
pub mod links;
mod put;
pub mod report;
pub mod row;
pub mod shape;
pub mod sort;
pub mod vacant;
