// The library for C: the nine calls of `table` that take numbers and slices alone, under their own names. Each only calls its fellow there and
// promises the same; what is compiled of this crate, `./library` writes as libpeer_table.a, and `include/peer_table.h` declares.
#![tactic(auto)]

pub mod boundary;
pub mod reasons;
