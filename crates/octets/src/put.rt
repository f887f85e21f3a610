// Octets stored in a buffer, one field behind the other.
ghost use Rattle.std.specs.Prelude.{[], ◌∷◌, ◌+◌, ◌≤◌, length};
ghost use Rattle.octets.specs.Stored.{Stored};
ghost use Rattle.octets.specs.Field.{octets};

pub(crate) fn put_octet(out: &mut [u8], at: usize, v: u8)
    requires { at + 1 ≤ length out.old }
    ensures { Stored out.old at (v ∷ []) out.new }
{
    out[at] = v;
}

// One function over the width, by `copy_from_slice`, was tried: for wasm32 the kit's clang makes no valid code of it, and a Cortex-M0+ took 56,662 octets for 39,950.
pub(crate) fn put_u16(out: &mut [u8], at: usize, v: u16)
    requires { at + 2 ≤ length out.old }
    ensures { Stored out.old at (octets 2 v) out.new }
{
    out[at] = (v % 256) as u8;
    out[at + 1] = (v / 256 % 256) as u8;
}

pub(crate) fn put_address(out: &mut [u8], at: usize, v: u64)
    requires { at + 6 ≤ length out.old }
    ensures { Stored out.old at (octets 6 v) out.new }
{
    out[at] = (v % 256) as u8;
    out[at + 1] = (v / 256 % 256) as u8;
    out[at + 2] = (v / 256 / 256 % 256) as u8;
    out[at + 3] = (v / 256 / 256 / 256 % 256) as u8;
    out[at + 4] = (v / 256 / 256 / 256 / 256 % 256) as u8;
    out[at + 5] = (v / 256 / 256 / 256 / 256 / 256 % 256) as u8;
}

pub(crate) fn put_u32(out: &mut [u8], at: usize, v: u32)
    requires { at + 4 ≤ length out.old }
    ensures { Stored out.old at (octets 4 v) out.new }
{
    out[at] = (v % 256) as u8;
    out[at + 1] = (v / 256 % 256) as u8;
    out[at + 2] = (v / 256 / 256 % 256) as u8;
    out[at + 3] = (v / 256 / 256 / 256 % 256) as u8;
}

pub(crate) fn put_u64(out: &mut [u8], at: usize, v: u64)
    requires { at + 8 ≤ length out.old }
    ensures { Stored out.old at (octets 8 v) out.new }
{
    put_address(&mut *out, at, v);
    out[at + 6] = (v / 256 / 256 / 256 / 256 / 256 / 256 % 256) as u8;
    out[at + 7] = (v / 256 / 256 / 256 / 256 / 256 / 256 / 256 % 256) as u8;
}
