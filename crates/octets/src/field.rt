// Fields of a frame at any position, little-endian. Octets that are not there read as absent: a field past the end is 0.
ghost use Rattle.std.specs.Prelude.{◌≡◌};
ghost use Rattle.octets.specs.Field.{field};

pub fn octet_at(s: &[u8], at: usize) -> u8
    ensures { result ≡ field 1 at s.now }
{
    if at < s.len() { s[at] } else { 0 }
}

// One function for each width, as in put.rt.
pub fn u16_at(s: &[u8], at: usize) -> u16
    ensures { result ≡ field 2 at s.now }
{
    if s.len() <= at {
        return 0;
    }
    octet_at(s, at) as u16 + 256 * (octet_at(s, at + 1) as u16)
}

pub fn u32_at(s: &[u8], at: usize) -> u32
    ensures { result ≡ field 4 at s.now }
{
    if s.len() <= at {
        return 0;
    }
    if s.len() - at <= 2 {
        return u16_at(s, at) as u32;
    }
    u16_at(s, at) as u32 + 65536 * (u16_at(s, at + 2) as u32)
}

pub fn address_at(s: &[u8], at: usize) -> u64
    ensures { result ≡ field 6 at s.now }
{
    if s.len() <= at {
        return 0;
    }
    if s.len() - at <= 4 {
        return u32_at(s, at) as u64;
    }
    u32_at(s, at) as u64 + 4294967296 * (u16_at(s, at + 4) as u64)
}
