// A record of a peer as it crosses to a host: numbers only, in 48 octets. Whether rows are free is asked in vacant.rt, and named here too.
ghost use Rattle.std.specs.Prelude.{◌≡◌, ◌+◌, ◌≤◌, leb, get_or, length};
ghost use Rattle.octets.specs.Field.{field};
ghost use Rattle.octets.specs.Stored.{Stored};
ghost use Rattle.octets.specs.Links.{link_octets, links_at, links_of};
ghost use Rattle.octets.specs.Row.{head_in, head_octets, query_octets, row_at, row_in};

use crate::links::Links;
use crate::put::{put_address, put_octet, put_u16, put_u32, put_u64};
pub use crate::vacant::{blank_at, blank_four, linkless_at, linkless_four};

#[derive(Clone, Copy, PartialEq, Eq)]
pub struct Row {
    pub address: u64,
    pub hold: u32,
    pub left: u16,
    pub state: u8,
    pub exchange: u8,
    pub identifier: u16,
    pub remaining: u16,
    pub query: u32,
    pub links: Links,
}

impl Row {
    // How many octets a row has.
    pub const OCTETS: usize = 48;
}

// One function for each width, as in put.rt.
fn half(s: &[u8], at: usize) -> u16
    requires { at + 2 ≤ length s.now }
    ensures { result ≡ field 2 at s.now }
{
    s[at] as u16 + 256 * (s[at + 1] as u16)
}

fn word(s: &[u8], at: usize) -> u32
    requires { at + 4 ≤ length s.now }
    ensures { result ≡ field 4 at s.now }
{
    half(s, at) as u32 + 65536 * (half(s, at + 2) as u32)
}

pub(crate) fn long(s: &[u8], at: usize) -> u64
    requires { at + 8 ≤ length s.now }
    ensures { result ≡ field 8 at s.now }
{
    word(s, at) as u64 + 4294967296 * (word(s, at + 4) as u64)
}

// Slice and place are two here and below: `row_at` and `put_row` promise for any place, and test the room themselves.
fn six(s: &[u8], at: usize) -> u64
    requires { at + 6 ≤ length s.now }
    ensures { result ≡ field 6 at s.now }
{
    word(s, at) as u64 + 4294967296 * (half(s, at + 4) as u64)
}

fn links_at(s: &[u8], at: usize) -> Links
    requires { at + 24 ≤ length s.now }
    ensures { result ≡ links_at at s.now }
{
    Links {
        one: six(s, at),
        two: six(s, at + 6),
        three: six(s, at + 12),
        four: six(s, at + 18),
    }
}

// Whether there is room for a number of octets at a place.
pub(crate) fn has_room(lent: usize, at: usize, n: usize) -> bool
    ensures { result ≡ leb (at + n) lent }
{
    n <= lent && at <= lent - n
}

// Whether there is room for a row at a place.
pub(crate) fn has_row(lent: usize, at: usize) -> bool
    ensures { result ≡ leb (at + 48) lent }
{
    has_room(lent, at, Row::OCTETS)
}

// The row at a place; all zero where the octets end before it does.
#[tactic(auto, unfolding(crate::specs::Row::row_at))]
pub fn row_at(s: &[u8], at: usize) -> Row
    ensures { result ≡ row_at at s.now }
{
    if !has_row(s.len(), at) {
        return Row {
            address: 0,
            hold: 0,
            left: 0,
            state: 0,
            exchange: 0,
            identifier: 0,
            remaining: 0,
            query: 0,
            links: Links::none(),
        };
    }
    Row {
        address: long(s, at),
        hold: word(s, at + 8),
        left: half(s, at + 12),
        state: s[at + 14],
        exchange: s[at + 15],
        identifier: half(s, at + 16),
        remaining: half(s, at + 18),
        query: word(s, at + 20),
        links: links_at(s, at + 24),
    }
}

// The address of the row at a place; 0 where the octets end before it does.
#[tactic(auto, unfolding(crate::specs::Row::row_at))]
pub fn address_in(s: &[u8], at: usize) -> u64
    ensures { result ≡ (row_at at s.now).address }
{
    if has_row(s.len(), at) { long(s, at) } else { 0 }
}

// The link in a slot of the row at a place; 0 where the octets end before it does, or there is no such slot.
#[tactic(auto, unfolding(crate::specs::Row::row_at))]
pub fn link_in(s: &[u8], at: usize, j: usize) -> u64
    ensures { result ≡ get_or (links_of (row_at at s.now).links) j 0 }
{
    if has_row(s.len(), at) && j < Links::SLOTS {
        six(s, at + 24 + 6 * j)
    } else {
        0
    }
}

// Stores what a row has of a query.
fn put_query(out: &mut [u8], at: usize, row: Row)
    requires { at + 8 ≤ length out.old }
    ensures { Stored out.old at (query_octets row) out.new }
{
    put_u16(&mut *out, at, row.identifier);
    put_u16(&mut *out, at + 2, row.remaining);
    put_u32(out, at + 4, row.query);
}

fn put_links(out: &mut [u8], at: usize, links: Links)
    requires { at + 24 ≤ length out.old }
    ensures { Stored out.old at (link_octets links) out.new }
{
    put_address(&mut *out, at, links.one);
    put_address(&mut *out, at + 6, links.two);
    put_address(&mut *out, at + 12, links.three);
    put_address(out, at + 18, links.four);
}

// Stores what a row has before its links.
fn put_fields(out: &mut [u8], at: usize, row: Row)
    requires { at + 24 ≤ length out.old }
    ensures { Stored out.old at (head_octets row) out.new }
{
    put_u64(&mut *out, at, row.address);
    put_u32(&mut *out, at + 8, row.hold);
    put_u16(&mut *out, at + 12, row.left);
    put_octet(&mut *out, at + 14, row.state);
    put_octet(&mut *out, at + 15, row.exchange);
    put_query(out, at + 16, row);
}

// Stores a row at a place but for its links, where there is room for the row.
#[tactic(auto, unfolding(crate::specs::Row::head_in))]
pub fn put_head(out: &mut [u8], at: usize, row: Row)
    ensures { out.new ≡ head_in at row out.old }
{
    if !has_row(out.len(), at) {
        return;
    }
    put_fields(out, at, row);
}

// Stores a row at a place, where there is room for it.
#[tactic(auto, unfolding(crate::specs::Row::row_in))]
pub fn put_row(out: &mut [u8], at: usize, row: Row)
    ensures { out.new ≡ row_in at row out.old }
{
    if !has_row(out.len(), at) {
        return;
    }
    put_fields(&mut *out, at, row);
    put_links(out, at + 24, row.links);
}
