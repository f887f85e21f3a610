// Why an event came to what it did, as a line: its number, the reason's word, the value beside it.
ghost use Rattle.std.specs.Prelude.{◌≡◌, ◌+◌, ◌≤◌, length};
ghost use Rattle.octets.specs.Stored.{Stored};
ghost use Rattle.bench.specs.Output.{short, up_to, put_of};
ghost use Rattle.bench.specs.Why.{reasoned_text, refusal_word, why_line, why_text, word_of};

use crate::text::{has_room, put_field, put_octet, put_tens, put_word};
use table::rules::why::{Reason, Why};

// The word of a refusal, and a blank.
fn put_refusal(out: &mut [u8], at: usize, number: u8) -> usize
    requires { at + 16 ≤ length out.old }
    ensures { (result ≡ at + length (refusal_word number)) × (Stored out.old at (refusal_word number) out.new) }
{
    let p1 = put_word(out, at, b"refusal-");
    put_field(out, p1, number as u64, 3)
}

// The word of a reason, and a blank.
pub(crate) fn put_reason(out: &mut [u8], at: usize, reason: Reason) -> usize
    requires { at + 16 ≤ length out.old }
    ensures { (result ≡ at + length (word_of reason)) × (Stored out.old at (word_of reason) out.new) }
{
    match reason {
        Reason::None => put_word(out, at, b"none "),
        Reason::Refusal(n) => put_refusal(out, at, n),
        Reason::NoClass => put_word(out, at, b"no-class "),
        Reason::ClassFilter => put_word(out, at, b"class-filter "),
        Reason::GroupRule => put_word(out, at, b"group-rule "),
        Reason::NothingToDo => put_word(out, at, b"nothing-to-do "),
    }
}

// The word of a reason, the value beside it, and the end of the line.
pub(crate) fn put_reasoned(out: &mut [u8], at: usize, reason: Reason, value: u64) -> usize
    requires { at + 35 ≤ length out.old }
    ensures { (result ≡ at + length (reasoned_text reason value)) × (Stored out.old at (reasoned_text reason value) out.new) }
{
    let p1 = put_reason(out, at, reason);
    let p2 = put_tens(out, p1, value, 20);
    put_octet(out, p2, b'\n');
    p2 + 1
}

fn put_why(out: &mut [u8], at: usize, number: u64, reason: Reason, value: u64) -> usize
    requires { at + 64 ≤ length out.old }
    ensures { (result ≡ at + length (why_text number reason value)) × (Stored out.old at (why_text number reason value) out.new) }
{
    let p1 = put_field(out, at, number, 20);
    put_reasoned(out, p1, reason, value)
}

// Writes the line behind the first `at` octets of the buffer and gives where it ends; where fewer than 64 are left, nothing and `at`.
pub fn write_why(out: &mut [u8], at: usize, number: u64, w: Why) -> usize
    ensures { up_to out.new result ≡ put_of (short (why_line number w)) (up_to out.old at) }
{
    if !has_room(out.len(), at, 64) {
        return at;
    }
    put_why(out, at, number, w.reason, w.value)
}
