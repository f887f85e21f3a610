// What is said of another maker's log, as a line: `right`, `differs EVENT FIELD`, `short EVENT` or `long EVENT`.
ghost use Rattle.std.specs.Prelude.{◌≡◌, ◌+◌, ◌≤◌, ◌++◌, length};
ghost use Rattle.octets.specs.Stored.{Stored};
ghost use Rattle.bench.specs.Output.{short, up_to, put_of};
ghost use Rattle.bench.specs.Said.{differs_line, event_line, field_name, said_line};

use crate::text::{has_room, put_field, put_octet, put_tens, put_word};
use rival::Said;

// The name of a field.
fn put_name(out: &mut [u8], at: usize, field: u64) -> usize
    requires { at + 8 ≤ length out.old }
    ensures { (result ≡ at + length (field_name field)) × (Stored out.old at (field_name field) out.new) }
{
    match field {
        0 => put_word(out, at, b"number"),
        1 => put_word(out, at, b"refusal"),
        2 => put_word(out, at, b"verdict"),
        3 => put_word(out, at, b"notice"),
        4 => put_word(out, at, b"code"),
        5 => put_word(out, at, b"written"),
        6 => put_word(out, at, b"ds"),
        7 => put_word(out, at, b"state"),
        _ => put_word(out, at, b"form"),
    }
}

// A word and an event's number.
fn put_event(out: &mut [u8], at: usize, word: &[u8], event: u64) -> usize
    requires { at + length word.now + 21 ≤ length out.old }
    ensures { (result ≡ at + length (event_line word.now event)) × (Stored out.old at (event_line word.now event) out.new) }
{
    let p1 = put_word(out, at, word);
    let p2 = put_tens(out, p1, event, 20);
    put_octet(out, p2, b'\n');
    p2 + 1
}

// The event that differs, and its field.
fn put_differs(out: &mut [u8], at: usize, event: u64, field: u64) -> usize
    requires { at + 64 ≤ length out.old }
    ensures { (result ≡ at + length (differs_line event field)) × (Stored out.old at (differs_line event field) out.new) }
{
    let p1 = put_word(out, at, b"differs ");
    let p2 = put_field(out, p1, event, 20);
    let p3 = put_name(out, p2, field);
    put_octet(out, p3, b'\n');
    p3 + 1
}

fn put_said(out: &mut [u8], at: usize, said: Said) -> usize
    requires { at + 64 ≤ length out.old }
    ensures { (result ≡ at + length (said_line said)) × (Stored out.old at (said_line said) out.new) }
{
    match said {
        Said::Right => put_word(out, at, b"right\n"),
        Said::Differs(event, field) => put_differs(out, at, event, field),
        Said::Short(event) => put_event(out, at, b"short ", event),
        Said::Long(event) => put_event(out, at, b"long ", event),
    }
}

// Writes the line behind the first `at` octets of the buffer and gives where it ends; where fewer than 64 are left, nothing and `at`.
pub fn write_said(out: &mut [u8], at: usize, said: Said) -> usize
    ensures { up_to out.new result ≡ put_of (short (said_line said)) (up_to out.old at) }
{
    if !has_room(out.len(), at, 64) {
        return at;
    }
    put_said(out, at, said)
}
