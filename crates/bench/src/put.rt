// Bench records put into a buffer: a clock step, a frame.
ghost use Rattle.std.specs.Prelude.{◌≡◌, [], ◌∷◌, ◌+◌, ◌≤◌, length};
ghost use Rattle.octets.specs.Stored.{Stored};
ghost use Rattle.bench.specs.Import.{head_of, record_of, step, frame, rest_of, written_of};

use crate::text::{put_octet, put_word};

// The head of a record.
fn put_head(out: &mut [u8], at: usize, kind: u8, size: u16)
    requires { at + 5 ≤ length out.old }
    ensures { Stored out.old at (head_of kind size) out.new }
{
    put_octet(out, at, 0x0B);
    put_octet(out, at + 1, 0x03);
    put_octet(out, at + 2, kind);
    put_octet(out, at + 3, (size % 256) as u8);
    put_octet(out, at + 4, (size / 256 % 256) as u8);
}

// A clock step.
pub(crate) fn put_step(out: &mut [u8], at: usize, n: u16)
    requires { at + 7 ≤ length out.old }
    ensures { Stored out.old at (record_of (step n)) out.new }
{
    put_head(out, at, 3, 2);
    put_octet(out, at + 5, (n % 256) as u8);
    put_octet(out, at + 6, (n / 256 % 256) as u8);
}

// A frame, of at most 4,096 octets.
fn put_frame(out: &mut [u8], at: usize, octets: &[u8]) -> usize
    requires octets_in_bounds { at + 5 + length octets.now ≤ length out.old }
    requires octets_len_bound { length octets.now ≤ 4096 }
    ensures { (result ≡ at + length (record_of (frame octets.now))) × (Stored out.old at (record_of (frame octets.now)) out.new) }
{
    put_head(out, at, 2, octets.len() as u16);
    put_word(out, at + 5, octets)
}

// The clock step that is left, if any, and a frame.
pub(crate) fn put_rest(out: &mut [u8], at: usize, n: u16, octets: &[u8]) -> usize
    requires octets_in_bounds { at + 12 + length octets.now ≤ length out.old }
    requires octets_len_bound { length octets.now ≤ 4096 }
    ensures { (result ≡ at + length (written_of (rest_of n (frame octets.now ∷ [])))) × (Stored out.old at (written_of (rest_of n (frame octets.now ∷ []))) out.new) }
{
    if n == 0 {
        return put_frame(out, at, octets);
    }
    put_step(out, at, n);
    put_frame(out, at + 7, octets)
}
