// The answer to an event as it crosses to a host: numbers only, in 24 octets. Each stands at a multiple of its width, so a C struct of them
// has these octets on a little-endian host.
ghost use Rattle.std.specs.Prelude.{◌≡◌, ◌≤◌, length};
ghost use Rattle.octets.specs.Stored.{Stored};
ghost use Rattle.octets.specs.Answer.{answer_bytes, answer_written, value_written};

use crate::put::{put_octet, put_u16, put_u64};

// The numbers one behind the other. The state has eight octets, so that each of the 24 is written.
fn put_answer(
    out: &mut [u8],
    current: u64,
    code: u16,
    written: u16,
    refusal: u8,
    verdict: u8,
    notice: u8,
    ds: u8,
    state: u8,
)
    requires { 24 ≤ length out.old }
    ensures { Stored out.old 0 (answer_bytes current code written refusal verdict notice ds state) out.new }
{
    put_u64(&mut *out, 0, current);
    put_u16(&mut *out, 8, code);
    put_u16(&mut *out, 10, written);
    put_octet(&mut *out, 12, refusal);
    put_octet(&mut *out, 13, verdict);
    put_octet(&mut *out, 14, notice);
    put_octet(&mut *out, 15, ds);
    put_u64(out, 16, state as u64);
}

// Writes an answer at the front of the octets lent for it; where they are too few, nothing.
pub fn write_answer(
    out: &mut [u8],
    current: u64,
    code: u16,
    written: u16,
    refusal: u8,
    verdict: u8,
    notice: u8,
    ds: u8,
    state: u8,
)
    ensures { out.new ≡ answer_written out.old current code written refusal verdict notice ds state }
{
    if out.len() < 24 {
        return;
    }
    put_answer(
        out, current, code, written, refusal, verdict, notice, ds, state,
    );
}

// Writes the value that stands beside a reason at the front of the octets lent for it; where they are too few, nothing.
pub fn write_value(out: &mut [u8], value: u64)
    ensures { out.new ≡ value_written out.old value }
{
    if out.len() < 8 {
        return;
    }
    put_u64(out, 0, value);
}
