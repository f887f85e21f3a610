// What `bench changes` shows behind an event's line: what a trace does, with why it came to that, and of the places only those that are not as
// they were.
ghost use Rattle.std.specs.Prelude.{◌≡◌, true, ◌+◌, ◌≤◌, ◌<◌, length, get_or, take, drop};
ghost use Rattle.octets.specs.Stored.{Stored};
ghost use Rattle.peer.specs.Record.{free_of};
ghost use Rattle.table.specs.Rows.{records_of};
ghost use Rattle.bench.specs.Output.{short, up_to, put_all, put_of};
ghost use Rattle.bench.specs.Changes.{because_line, because_lines, because_text, changed_lines, changes_lines, free_line, moved_lines, same_links, same_query, same_record, same_times};

use crate::show::{trace_current, trace_octets, trace_place};
use crate::text::{has_room, put_octet, put_tens, put_word};
use crate::why::put_reasoned;
use octets::links::Links;
use peer::exchange::exchange_number;
use peer::query::{query_left, query_number};
use peer::record::Record;
use table::host::rows::look;
use table::rules::answer::Answer;
use table::rules::why::{Reason, Why, reason_number};

fn put_because(out: &mut [u8], at: usize, reason: Reason, value: u64) -> usize
    requires { at + 64 ≤ length out.old }
    ensures { (result ≡ at + length (because_text reason value)) × (Stored out.old at (because_text reason value) out.new) }
{
    let p1 = put_word(out, at, b"  because ");
    put_reasoned(out, p1, reason, value)
}

// Writes the line of a reason behind the first `at` octets of the buffer and gives where it ends; where there is little room, nothing and `at`.
fn write_because(out: &mut [u8], at: usize, w: Why) -> usize
    ensures { up_to out.new result ≡ put_of (short (because_line w)) (up_to out.old at) }
{
    if !has_room(out.len(), at, 64) {
        return at;
    }
    put_because(out, at, w.reason, w.value)
}

// Why an event came to what it did, where a rule decided it.
fn show_because(output: &mut [u8], out: usize, w: Why) -> usize
    ensures { up_to output.new result ≡ put_all (because_lines w) (up_to output.old out) }
{
    if reason_number(w.reason) == 0 {
        return out;
    }
    write_because(output, out, w)
}

fn put_free(out: &mut [u8], at: usize, place: u8) -> usize
    requires { at + 64 ≤ length out.old }
    ensures { (result ≡ at + length (free_line place)) × (Stored out.old at (free_line place) out.new) }
{
    let p1 = put_word(out, at, b"  free ");
    let p2 = put_tens(out, p1, place as u64, 2);
    put_octet(out, p2, b'\n');
    p2 + 1
}

// The same of the line of a place that is free now.
fn write_free(out: &mut [u8], at: usize, place: u8) -> usize
    ensures { up_to out.new result ≡ put_of (short (free_line place)) (up_to out.old at) }
{
    if !has_room(out.len(), at, 64) {
        return at;
    }
    put_free(out, at, place)
}

// Whether two devices have the same links.
#[tactic(auto, unfolding(crate::specs::Changes::same_links))]
fn same_links(a: Links, b: Links) -> bool
    ensures { result ≡ same_links a b }
{
    a == b
}

// Whether two records show the same exchange and times.
fn same_times(p: Record, q: Record) -> bool
    ensures { result ≡ same_times p q }
{
    exchange_number(p.exchange) == exchange_number(q.exchange)
        && p.left == q.left
        && p.hold == q.hold
}

// Whether they show the same query.
fn same_query(p: Record, q: Record) -> bool
    ensures { result ≡ same_query p q }
{
    p.identifier == q.identifier
        && query_number(p.query) == query_number(q.query)
        && query_left(p.query) == query_left(q.query)
}

// Whether they show the same in all.
// By what is shown, field by field, as `same_record` of `specs/Changes.antt` is.
pub fn same_record(p: Record, q: Record) -> bool
    ensures { result ≡ same_record p q }
{
    p.address == q.address
        && p.state == q.state
        && same_times(p, q)
        && same_query(p, q)
        && same_links(p.links, q.links)
}

// A place whose record was `p` and is `q`: nothing where that is the same.
fn show_moved(output: &mut [u8], out: usize, place: u8, p: Record, q: Record) -> usize
    ensures { up_to output.new result ≡ put_all (moved_lines place p q) (up_to output.old out) }
{
    if same_record(p, q) {
        return out;
    }
    if q.is_free() {
        return write_free(output, out, place);
    }
    trace_place(output, out, place, q)
}

// Whether a row's octets are the same in two tables. All are looked at, with no way out between, so that the processor can look at many at once.
fn same_row(a: &[u8], b: &[u8], at: usize) -> bool
    requires { (at + 48 ≤ length a.now) × (at + 48 ≤ length b.now) }
    ensures { result ≡ true → take 48 (drop at a.now) ≡ take 48 (drop at b.now) }
{
    // `==` on two slices stops at the first octet that differs, and `changes` then takes a tenth longer.
    let mut same = true;
    for j in 0..48 {
        if a[at + j] != b[at + j] {
            same = false;
        }
    }
    same
}

// A place, by the tables before and after. Most rows are the same, and only the others are read.
fn show_row(output: &mut [u8], out: usize, i: usize, before: &[u8], after: &[u8]) -> usize
    requires { (i < 32) × (length before.now ≡ 1536) × (length after.now ≡ 1536) }
    ensures { up_to output.new result ≡ put_all (moved_lines i (get_or (records_of before.now) i free_of) (get_or (records_of after.now) i free_of)) (up_to output.old out) }
{
    if same_row(before, after, 48 * i) {
        return out;
    }
    show_moved(output, out, i as u8, look(before, i), look(after, i))
}

// Every place, in rising order.
fn show_changed(output: &mut [u8], out: usize, before: &[u8], after: &[u8]) -> usize
    requires { (length before.now ≡ 1536) × (length after.now ≡ 1536) }
    ensures { up_to output.new result ≡ put_all (changed_lines 0 (records_of before.now) (records_of after.now)) (up_to output.old out) }
{
    let mut at = out;
    for i in 0..32 {
        at = show_row(&mut *output, at, i, before, after);
    }
    at
}

// What is shown behind an event's line; gives where the next line goes.
pub(crate) fn changed(
    output: &mut [u8],
    out: usize,
    answer: Answer,
    scratch: [u8; 256],
    w: Why,
    before: &[u8],
    after: &[u8],
) -> usize
    requires { (length before.now ≡ 1536) × (length after.now ≡ 1536) }
    ensures { up_to output.new result ≡ put_all (changes_lines answer scratch w (records_of before.now) (records_of after.now)) (up_to output.old out) }
{
    let at = trace_octets(&mut *output, out, answer.written, scratch);
    let next = trace_current(&mut *output, at, answer);
    let behind = show_because(&mut *output, next, w);
    show_changed(output, behind, before, after)
}
