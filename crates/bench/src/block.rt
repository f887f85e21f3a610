// A block of the month, as ten lines.
ghost use Rattle.std.specs.Prelude.{◌≡◌, ◌+◌, ◌*◌, ◌≤◌, length};
ghost use Rattle.octets.specs.Stored.{Stored};
ghost use Rattle.bench.specs.Block.{block_lines, event_lines, fraction_text, hold_lines, mean_line, mean_number, number_text, numbers_from, peer_lines, row_line, row_text};
ghost use Rattle.bench.specs.Output.{up_to, put_all, put_of};

use crate::text::{has_room, put_octet, put_tens, put_word};
use sums::block::{look, mean_hold};
use sums::fraction::Fraction;
use sums::total::Total;

// A blank, and a number or `over`.
fn put_number(out: &mut [u8], at: usize, t: Total) -> usize
    requires { at + 21 ≤ length out.old }
    ensures { (result ≡ at + length (number_text t)) × (Stored out.old at (number_text t) out.new) }
{
    match t {
        Some(n) => {
            put_octet(out, at, b' ');
            put_tens(out, at + 1, n, 20)
        }
        None => put_word(out, at, b" over"),
    }
}

// So many numbers of a block, from a place on. A recursion as `numbers_from` is: a `for` would need the same definition from the other end.
fn put_numbers(out: &mut [u8], at: usize, b: [Total; 23], first: usize, count: usize) -> usize
    requires count_in_bounds { at + 21 * count ≤ length out.old }
    requires count_bound { first + count ≤ 23 }
    ensures { (result ≡ at + length (numbers_from b first count)) × (Stored out.old at (numbers_from b first count) out.new) }
{
    if count == 0 {
        return at;
    }
    let next = put_number(out, at, look(b, first));
    put_numbers(out, next, b, first + 1, count - 1)
}

// A line: its word, its numbers and LF.
fn put_row(
    out: &mut [u8],
    at: usize,
    word: &[u8],
    b: [Total; 23],
    first: usize,
    count: usize,
) -> usize
    requires at_in_bounds { at + 256 ≤ length out.old }
    requires word_len_bound { length word.now ≤ 8 }
    requires count_bound { first + count ≤ 23 }
    requires count_bound_2 { count ≤ 9 }
    ensures { (result ≡ at + length (row_text word.now b first count)) × (Stored out.old at (row_text word.now b first count) out.new) }
{
    let p1 = put_word(out, at, word);
    let p2 = put_numbers(out, p1, b, first, count);
    put_octet(out, p2, b'\n');
    p2 + 1
}

// The same behind the first `at` octets of the buffer; where fewer than 256 are left, nothing.
fn write_row(
    out: &mut [u8],
    at: usize,
    word: &[u8],
    b: [Total; 23],
    first: usize,
    count: usize,
) -> usize
    requires word_len_bound { length word.now ≤ 8 }
    requires count_bound { first + count ≤ 23 }
    requires count_bound_2 { count ≤ 9 }
    ensures { up_to out.new result ≡ put_of (row_line word.now b first count) (up_to out.old at) }
{
    if !has_room(out.len(), at, 256) {
        return at;
    }
    put_row(out, at, word, b, first, count)
}

fn put_fraction(out: &mut [u8], at: usize, f: Fraction) -> usize
    requires { at + 41 ≤ length out.old }
    ensures { (result ≡ at + length (fraction_text f)) × (Stored out.old at (fraction_text f) out.new) }
{
    let p1 = put_tens(out, at, f.top, 20);
    put_octet(out, p1, b'/');
    put_tens(out, p1 + 1, f.bottom, 20)
}

fn put_mean(out: &mut [u8], at: usize, m: Option<Fraction>) -> usize
    requires { at + 41 ≤ length out.old }
    ensures { (result ≡ at + length (mean_number m)) × (Stored out.old at (mean_number m) out.new) }
{
    match m {
        Some(f) => put_fraction(out, at, f),
        None => put_word(out, at, b"over"),
    }
}

// The line of the mean, behind the first `at` octets of the buffer; where fewer than 256 are left, nothing.
fn write_mean(out: &mut [u8], at: usize, m: Option<Fraction>) -> usize
    ensures { up_to out.new result ≡ put_of (mean_line m) (up_to out.old at) }
{
    if !has_room(out.len(), at, 256) {
        return at;
    }
    let p1 = put_word(out, at, b"mean ");
    let p2 = put_mean(out, p1, m);
    put_octet(out, p2, b'\n');
    p2 + 1
}

fn write_events(out: &mut [u8], at: usize, b: [Total; 23]) -> usize
    ensures { up_to out.new result ≡ put_all (event_lines b) (up_to out.old at) }
{
    let p1 = write_row(out, at, b"events", b, 0, 1);
    let p2 = write_row(out, p1, b"refusals", b, 1, 9);
    write_row(out, p2, b"discards", b, 10, 3)
}

fn write_peers(out: &mut [u8], at: usize, b: [Total; 23]) -> usize
    ensures { up_to out.new result ≡ put_all (peer_lines b) (up_to out.old at) }
{
    let p1 = write_row(out, at, b"joins", b, 13, 1);
    let p2 = write_row(out, p1, b"leaves", b, 14, 1);
    write_row(out, p2, b"timeouts", b, 15, 5)
}

fn write_holds(out: &mut [u8], at: usize, b: [Total; 23]) -> usize
    ensures { up_to out.new result ≡ put_all (hold_lines b) (up_to out.old at) }
{
    let p1 = write_row(out, at, b"holds", b, 20, 1);
    let p2 = write_row(out, p1, b"longest", b, 21, 1);
    let p3 = write_row(out, p2, b"total", b, 22, 1);
    write_mean(out, p3, mean_hold(b))
}

// Writes the ten lines behind the first `at` octets of the buffer and gives where they end; a line that finds fewer than 256 octets is left out.
pub fn write_block(out: &mut [u8], at: usize, b: [Total; 23]) -> usize
    ensures { up_to out.new result ≡ put_all (block_lines b) (up_to out.old at) }
{
    let p1 = write_events(out, at, b);
    let p2 = write_peers(out, p1, b);
    write_holds(out, p2, b)
}
