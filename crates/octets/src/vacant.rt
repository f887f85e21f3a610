// Whether octets are free rows, or rows without a link: one row at a time, or four in one test.
ghost use Rattle.std.specs.Prelude.{◌≡◌, ◌&&◌, ◌+◌, ◌≤◌, eqb, length};
ghost use Rattle.octets.specs.Row.{blank_at, empty_at, linkless_at};

use crate::row::{has_room, has_row, long};

// Whether 24 octets are all zero. Each number is tested as it is read: read all at first, they cost more.
#[tactic(auto, unfolding(crate::specs::Row::empty_at))]
fn empty_at(s: &[u8], at: usize) -> bool
    requires { at + 24 ≤ length s.now }
    ensures { result ≡ empty_at at s.now }
{
    long(s, at) == 0 && long(s, at + 8) == 0 && long(s, at + 16) == 0
}

// Whether the 48 octets at a place are there and all zero.
#[tactic(auto, unfolding(crate::specs::Row::blank_at))]
pub fn blank_at(s: &[u8], at: usize) -> bool
    ensures { result ≡ blank_at at s.now }
{
    has_row(s.len(), at) && empty_at(s, at) && empty_at(s, at + 24)
}

// Whether the 48 octets at a place are there, and have no link.
#[tactic(auto, unfolding(crate::specs::Row::linkless_at))]
pub fn linkless_at(s: &[u8], at: usize) -> bool
    ensures { result ≡ linkless_at at s.now }
{
    has_row(s.len(), at) && empty_at(s, at + 24)
}

// 0 exactly if both numbers are: one test then serves many numbers, without a branch for each.
fn either(a: u64, b: u64) -> u64
    ensures { eqb result 0 ≡ (eqb a 0 && eqb b 0) }
{
    a | b
}

// 0 exactly if 24 octets are all zero.
fn rest(s: &[u8], at: usize) -> u64
    requires { at + 24 ≤ length s.now }
    ensures { eqb result 0 ≡ empty_at at s.now }
{
    either(long(s, at), either(long(s, at + 8), long(s, at + 16)))
}

// 0 exactly if 48 octets are all zero.
fn row_rest(s: &[u8], at: usize) -> u64
    requires { at + 48 ≤ length s.now }
    ensures { eqb result 0 ≡ (empty_at at s.now && empty_at (at + 24) s.now) }
{
    either(rest(s, at), rest(s, at + 24))
}

// 0 exactly if 192 octets are all zero, four rows.
// Spelled out: with a branch for each eight octets a call took 1,652 instructions, so 1,502 (DECISIONS, Speed).
fn four_rest(s: &[u8], at: usize) -> u64
    requires { at + 192 ≤ length s.now }
    ensures { eqb result 0 ≡ ((empty_at (at + 144) s.now && empty_at (at + 144 + 24) s.now) && ((empty_at (at + 96) s.now && empty_at (at + 96 + 24) s.now) && ((empty_at (at + 48) s.now && empty_at (at + 48 + 24) s.now) && (empty_at at s.now && empty_at (at + 24) s.now)))) }
{
    let first = either(row_rest(s, at + 48), row_rest(s, at));
    either(row_rest(s, at + 144), either(row_rest(s, at + 96), first))
}

// Whether four rows at a place are there and free, the last first: in one test.
#[tactic(auto, unfolding(crate::specs::Row::blank_at))]
pub fn blank_four(s: &[u8], at: usize) -> bool
    ensures { result ≡ (blank_at (at + 144) s.now && (blank_at (at + 96) s.now && (blank_at (at + 48) s.now && blank_at at s.now))) }
{
    has_room(s.len(), at, 192) && four_rest(s, at) == 0
}

// 0 exactly if none of four rows has a link.
fn four_links(s: &[u8], at: usize) -> u64
    requires { at + 192 ≤ length s.now }
    ensures { eqb result 0 ≡ (empty_at (at + 144 + 24) s.now && (empty_at (at + 96 + 24) s.now && (empty_at (at + 48 + 24) s.now && empty_at (at + 24) s.now))) }
{
    let first = either(rest(s, at + 48 + 24), rest(s, at + 24));
    either(rest(s, at + 144 + 24), either(rest(s, at + 96 + 24), first))
}

// Whether four rows at a place are there and have no link, the last first: in one test.
#[tactic(auto, unfolding(crate::specs::Row::linkless_at))]
pub fn linkless_four(s: &[u8], at: usize) -> bool
    ensures { result ≡ (linkless_at (at + 144) s.now && (linkless_at (at + 96) s.now && (linkless_at (at + 48) s.now && linkless_at at s.now))) }
{
    has_room(s.len(), at, 192) && four_links(s, at) == 0
}
