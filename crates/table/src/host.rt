// The table held as the octets of a host, and the calls that C sees.
pub mod apart;
pub mod boundary;
pub mod calls;
pub mod input;
pub mod link;
mod others;
pub mod play;
pub mod reasons;
pub mod rows;
pub mod run;
pub mod seek;
pub mod settings;
pub mod standing;
pub mod survey;
pub mod why;
