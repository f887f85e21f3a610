// What the trace shows behind an event's line: the octets written, the current AP, and each place not free, its links and its query.
ghost use Rattle.std.specs.Prelude.{◌≡◌, ◌+◌, ◌*◌, ◌≤◌, length};
ghost use Rattle.octets.specs.Stored.{Stored};
ghost use Rattle.bench.specs.Output.{short, up_to, put_of};
ghost use Rattle.bench.specs.Trace.{octets_line, octets_put, current_line, name_of, times_of, place_line, query_name, query_times, query_line, link_text, links_line};

use crate::text::{has_room, put_field, put_hex, put_hex_address, put_octet, put_tens, put_word};
use peer::exchange::exchange_number;
use peer::query::{query_left, query_number};
use peer::record::Record;

fn put_octets(out: &mut [u8], at: usize, octets: &[u8]) -> usize
    requires { at + (2 * length octets.now + 64) ≤ length out.old }
    ensures { (result ≡ at + length (octets_line octets.now)) × (Stored out.old at (octets_line octets.now) out.new) }
{
    let p1 = put_word(out, at, b"  octets ");
    let p2 = put_hex(out, p1, octets);
    put_octet(out, p2, b'\n');
    p2 + 1
}

// Writes the line of the octets written behind the first `at` octets of the buffer and gives where it ends; where there is little room,
// nothing and `at`.
pub(crate) fn write_octets(out: &mut [u8], at: usize, octets: &[u8]) -> usize
    requires { length octets.now ≤ 256 }
    ensures { up_to out.new result ≡ put_of (octets_put octets.now) (up_to out.old at) }
{
    if !has_room(out.len(), at, 2 * octets.len() + 64) {
        return at;
    }
    put_octets(out, at, octets)
}

fn put_current(out: &mut [u8], at: usize, a: u64) -> usize
    requires { at + 64 ≤ length out.old }
    ensures { (result ≡ at + length (current_line a)) × (Stored out.old at (current_line a) out.new) }
{
    let p1 = put_word(out, at, b"  current ");
    let p2 = put_hex_address(out, p1, a);
    put_octet(out, p2, b'\n');
    p2 + 1
}

// The same of the line of the current AP.
pub fn write_current(out: &mut [u8], at: usize, a: u64) -> usize
    ensures { up_to out.new result ≡ put_of (short (current_line a)) (up_to out.old at) }
{
    if !has_room(out.len(), at, 64) {
        return at;
    }
    put_current(out, at, a)
}

// The place and the address.
fn put_name(out: &mut [u8], at: usize, place: u8, p: Record) -> usize
    requires { at + 64 ≤ length out.old }
    ensures { (result ≡ at + length (name_of place p)) × (Stored out.old at (name_of place p) out.new) }
{
    let p1 = put_word(out, at, b"  place ");
    let p2 = put_field(out, p1, place as u64, 2);
    let p3 = put_hex_address(out, p2, p.address);
    put_octet(out, p3, b' ');
    p3 + 1
}

// State, exchange, time left, hold, and the line's end.
fn put_times(out: &mut [u8], at: usize, p: Record) -> usize
    requires { at + 25 ≤ length out.old }
    ensures { (result ≡ at + length (times_of p)) × (Stored out.old at (times_of p) out.new) }
{
    let p1 = put_field(out, at, p.state as u64, 3);
    let p2 = put_field(out, p1, exchange_number(p.exchange) as u64, 3);
    let p3 = put_field(out, p2, p.left as u64, 5);
    let p4 = put_tens(out, p3, p.hold as u64, 10);
    put_octet(out, p4, b'\n');
    p4 + 1
}

// The same of the line of a place.
pub fn write_place(out: &mut [u8], at: usize, place: u8, p: Record) -> usize
    ensures { up_to out.new result ≡ put_of (short (place_line place p)) (up_to out.old at) }
{
    if !has_room(out.len(), at, 64) {
        return at;
    }
    let next = put_name(out, at, place, p);
    put_times(out, next, p)
}

// The place and the identifier of a query.
fn put_query_name(out: &mut [u8], at: usize, place: u8, p: Record) -> usize
    requires { at + 64 ≤ length out.old }
    ensures { (result ≡ at + length (query_name place p)) × (Stored out.old at (query_name place p) out.new) }
{
    let p1 = put_word(out, at, b"  query ");
    let p2 = put_field(out, p1, place as u64, 2);
    put_field(out, p2, p.identifier as u64, 5)
}

// The number of a query, what is left of it, and the line's end.
fn put_query_times(out: &mut [u8], at: usize, p: Record) -> usize
    requires { at + 25 ≤ length out.old }
    ensures { (result ≡ at + length (query_times p)) × (Stored out.old at (query_times p) out.new) }
{
    let p1 = put_field(out, at, query_number(p.query) as u64, 3);
    let p2 = put_tens(out, p1, query_left(p.query) as u64, 5);
    put_octet(out, p2, b'\n');
    p2 + 1
}

// The same of the line of a query.
pub fn write_query(out: &mut [u8], at: usize, place: u8, p: Record) -> usize
    ensures { up_to out.new result ≡ put_of (short (query_line place p)) (up_to out.old at) }
{
    if !has_room(out.len(), at, 64) {
        return at;
    }
    let next = put_query_name(out, at, place, p);
    put_query_times(out, next, p)
}

// A link behind a blank; nothing where there is none.
fn put_link(out: &mut [u8], at: usize, link: u64) -> usize
    requires { at + 13 ≤ length out.old }
    ensures { (result ≡ at + length (link_text link)) × (Stored out.old at (link_text link) out.new) }
{
    if link == 0 {
        return at;
    }
    put_octet(out, at, b' ');
    put_hex_address(out, at + 1, link)
}

fn put_links(out: &mut [u8], at: usize, place: u8, p: Record) -> usize
    requires { at + 64 ≤ length out.old }
    ensures { (result ≡ at + length (links_line place p)) × (Stored out.old at (links_line place p) out.new) }
{
    let links = p.links;
    let p1 = put_word(out, at, b"  links ");
    let p2 = put_tens(out, p1, place as u64, 2);
    let p3 = put_link(out, p2, links.one);
    let p4 = put_link(out, p3, links.two);
    let p5 = put_link(out, p4, links.three);
    let p6 = put_link(out, p5, links.four);
    put_octet(out, p6, b'\n');
    p6 + 1
}

// The same of the line of a device's links.
pub fn write_links(out: &mut [u8], at: usize, place: u8, p: Record) -> usize
    ensures { up_to out.new result ≡ put_of (short (links_line place p)) (up_to out.old at) }
{
    if !has_room(out.len(), at, 64) {
        return at;
    }
    put_links(out, at, place, p)
}
