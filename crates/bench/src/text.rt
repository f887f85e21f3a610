// Text put into a buffer, one piece behind the other: octets, numbers in decimal and in hexadecimal.
ghost use Rattle.std.specs.Prelude.{◌≡◌, [], ◌∷◌, ◌+◌, ◌*◌, ◌≤◌, ◌<◌, leb, length};
ghost use Rattle.octets.specs.Stored.{Stored};
ghost use Rattle.octets.specs.Field.{octets};
ghost use Rattle.bench.specs.Text.{tens, field_of, letter_of, glyph_of, hex_octet, hex_of};

// Whether `room` octets fit behind the first `at` of `len`.
pub(crate) fn has_room(len: usize, at: usize, room: usize) -> bool
    ensures { result ≡ leb (at + room) len }
{
    if len < at {
        return false;
    }
    room <= len - at
}

pub(crate) fn put_octet(out: &mut [u8], at: usize, v: u8)
    requires { at + 1 ≤ length out.old }
    ensures { Stored out.old at (v ∷ []) out.new }
{
    out[at] = v;
}

// A number in decimal, of at most k digits; gives where it ends.
// By hand and not by `write!`: `tens` is of at most k digits, and each promise says which octets stand where.
pub(crate) fn put_tens(out: &mut [u8], at: usize, n: u64, k: usize) -> usize
    requires { at + k ≤ length out.old }
    ensures { (result ≡ at + length (tens k n)) × (Stored out.old at (tens k n) out.new) }
{
    if k == 0 {
        return at;
    }
    if n < 10 {
        put_octet(out, at, 48 + n as u8);
        return at + 1;
    }
    let next = put_tens(out, at, n / 10, k - 1);
    put_octet(out, next, 48 + (n % 10) as u8);
    next + 1
}

// A number of at most k digits and a blank.
pub(crate) fn put_field(out: &mut [u8], at: usize, n: u64, k: usize) -> usize
    requires { at + k + 1 ≤ length out.old }
    ensures { (result ≡ at + length (field_of k n)) × (Stored out.old at (field_of k n) out.new) }
{
    let next = put_tens(out, at, n, k);
    put_octet(out, next, b' ');
    next + 1
}

// A letter and a blank.
pub(crate) fn put_letter(out: &mut [u8], at: usize, letter: u8) -> usize
    requires { at + 2 ≤ length out.old }
    ensures { (result ≡ at + 2) × (Stored out.old at (letter_of letter) out.new) }
{
    put_octet(out, at, letter);
    put_octet(out, at + 1, b' ');
    at + 2
}

// A word, octet by octet.
pub(crate) fn put_word(out: &mut [u8], at: usize, word: &[u8]) -> usize
    requires { at + length word.now ≤ length out.old }
    ensures { (result ≡ at + length word.now) × (Stored out.old at word.now out.new) }
{
    let end = at + word.len();
    out[at..end].copy_from_slice(word);
    end
}

// A hexadecimal digit.
fn glyph(d: u8) -> u8
    requires { d < 16 }
    ensures { result ≡ glyph_of d }
{
    if d < 10 { 48 + d } else { 87 + d }
}

// An octet as two hexadecimal digits.
pub(crate) fn put_hex_octet(out: &mut [u8], at: usize, v: u8)
    requires { at + 2 ≤ length out.old }
    ensures { Stored out.old at (hex_octet v) out.new }
{
    put_octet(out, at, glyph(v / 16));
    put_octet(out, at + 1, glyph(v % 16));
}

// Octets in hexadecimal.
pub(crate) fn put_hex(out: &mut [u8], at: usize, octets: &[u8]) -> usize
    requires { at + 2 * length octets.now ≤ length out.old }
    ensures { (result ≡ at + 2 * length octets.now) × (Stored out.old at (hex_of octets.now) out.new) }
{
    for i in 0..octets.len() {
        put_hex_octet(out, at + 2 * i, octets[i]);
    }
    at + 2 * octets.len()
}

// An address as its six octets in hexadecimal, the first octet first.
pub(crate) fn put_hex_address(out: &mut [u8], at: usize, a: u64) -> usize
    requires { at + 12 ≤ length out.old }
    ensures { (result ≡ at + 12) × (Stored out.old at (hex_of (octets 6 a)) out.new) }
{
    let v = [
        (a % 256) as u8,
        (a / 256 % 256) as u8,
        (a / 256 / 256 % 256) as u8,
        (a / 256 / 256 / 256 % 256) as u8,
        (a / 256 / 256 / 256 / 256 % 256) as u8,
        (a / 256 / 256 / 256 / 256 / 256 % 256) as u8,
    ];
    put_hex(out, at, &v)
}
