// The line of an event, and the line that ends a damaged input.
ghost use Rattle.std.specs.Prelude.{◌≡◌, ◌+◌, ◌≤◌, length};
ghost use Rattle.octets.specs.Stored.{Stored};
ghost use Rattle.bench.specs.Line.{verdict_letter, ds_letter, front_of, back_of, line_of, stop_line};
ghost use Rattle.bench.specs.Output.{short, up_to, put_of};

use crate::text::{has_room, put_field, put_letter, put_octet, put_tens, put_word};
use table::rules::answer::Answer;

// A, D or -.
// By number here and below, as `Answer` has it: any other is -.
fn verdict_letter(verdict: u8) -> u8
    ensures { result ≡ verdict_letter verdict }
{
    match verdict {
        1 => b'A',
        2 => b'D',
        _ => b'-',
    }
}

// J, L or -.
fn ds_letter(ds: u8) -> u8
    ensures { result ≡ ds_letter ds }
{
    match ds {
        1 => b'J',
        2 => b'L',
        _ => b'-',
    }
}

// Event number, refusal, verdict, notice.
fn put_front(out: &mut [u8], at: usize, number: u64, a: Answer) -> usize
    requires { at + 64 ≤ length out.old }
    ensures { (result ≡ at + length (front_of number a)) × (Stored out.old at (front_of number a) out.new) }
{
    let p1 = put_field(out, at, number, 20);
    let p2 = put_field(out, p1, a.refusal as u64, 3);
    let p3 = put_letter(out, p2, verdict_letter(a.verdict));
    put_field(out, p3, a.notice as u64, 3)
}

// The notice's code, octets written, DS, state, and the line's end.
fn put_back(out: &mut [u8], at: usize, a: Answer) -> usize
    requires { at + 24 ≤ length out.old }
    ensures { (result ≡ at + length (back_of a)) × (Stored out.old at (back_of a) out.new) }
{
    let p1 = put_field(out, at, a.code as u64, 5);
    let p2 = put_field(out, p1, a.written as u64, 5);
    let p3 = put_letter(out, p2, ds_letter(a.ds));
    let p4 = put_tens(out, p3, a.state as u64, 3);
    put_octet(out, p4, b'\n');
    p4 + 1
}

// Writes an event's line behind the first `at` octets of the buffer and gives where it ends; where fewer than 64 are left, nothing and `at`.
pub fn write_line(out: &mut [u8], at: usize, number: u64, a: Answer) -> usize
    ensures { up_to out.new result ≡ put_of (short (line_of number a)) (up_to out.old at) }
{
    if !has_room(out.len(), at, 64) {
        return at;
    }
    let next = put_front(out, at, number, a);
    put_back(out, next, a)
}

// The same of the line `stop`.
pub fn write_stop(out: &mut [u8], at: usize) -> usize
    ensures { up_to out.new result ≡ put_of (short stop_line) (up_to out.old at) }
{
    if !has_room(out.len(), at, 64) {
        return at;
    }
    put_word(out, at, b"stop\n")
}
