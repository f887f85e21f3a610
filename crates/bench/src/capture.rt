// The fields of a capture: numbers of four octets in either byte order, the file's header and a packet's.
ghost use Rattle.std.specs.Prelude.{◌≡◌, true, false, ◌+◌, ◌≤◌, length};
ghost use Rattle.octets.specs.Field.{field};
ghost use Rattle.bench.specs.Capture.{number_in, big_of, numbered, linked, time_at, keeps_of};

// An octet that is there.
fn octet(xs: &[u8], at: usize) -> u8
    requires { at + 1 ≤ length xs.now }
    ensures { result ≡ field 1 at xs.now }
{
    xs[at]
}

// A number of four octets, with its highest octet first or last.
pub(crate) fn number_at(xs: &[u8], big: bool, at: usize) -> u32
    requires { at + 4 ≤ length xs.now }
    ensures { result ≡ number_in big at xs.now }
{
    let a = octet(xs, at) as u32;
    let b = octet(xs, at + 1) as u32;
    let c = octet(xs, at + 2) as u32;
    let d = octet(xs, at + 3) as u32;
    if big {
        16777216 * a + 65536 * b + 256 * c + d
    } else {
        a + 256 * b + 65536 * c + 16777216 * d
    }
}

// Whether the file's numbers have their highest octet first.
pub(crate) fn is_big(xs: &[u8]) -> bool
    requires { 24 ≤ length xs.now }
    ensures { result ≡ big_of xs.now }
{
    number_at(xs, true, 0) == 0xA1B2C3D4
}

// Whether the file begins with the number of a capture, in one order or the other.
pub(crate) fn is_numbered(xs: &[u8]) -> bool
    requires { 24 ≤ length xs.now }
    ensures { result ≡ numbered xs.now }
{
    is_big(xs) || number_at(xs, false, 0) == 0xA1B2C3D4
}

// Whether its link type is that of frames as they are.
pub(crate) fn is_linked(xs: &[u8]) -> bool
    requires { 24 ≤ length xs.now }
    ensures { result ≡ linked xs.now }
{
    number_at(xs, is_big(xs), 20) == 105
}

// A packet's time in microseconds.
pub(crate) fn time_at(xs: &[u8], big: bool) -> u64
    requires { 16 ≤ length xs.now }
    ensures { result ≡ time_at big xs.now }
{
    let seconds = number_at(xs, big, 0);
    let over = number_at(xs, big, 4);
    1000000 * (seconds as u64) + over as u64
}

// Whether a packet is kept, by how many octets were captured and how many it had.
pub(crate) fn is_kept(captured: u32, original: u32) -> bool
    ensures { result ≡ keeps_of captured original }
{
    original <= captured && captured <= 4096
}
