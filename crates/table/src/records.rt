// The table held as thirty-two records: by value, and lent as a slice.
pub mod apart;
pub mod ask;
pub mod fit;
pub mod held;
pub mod lent;
pub mod link;
pub mod pass;
pub mod places;
pub mod play;
pub mod receive;
pub mod seat;
pub mod step;
pub mod why;
