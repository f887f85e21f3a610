// Addresses: six octets as one number, the first octet lowest.
ghost use Rattle.std.specs.Prelude.{◌≡◌};
ghost use Rattle.octets.specs.Address.{valid_of, group_of};

// Whether an address can name a peer: individual, not all zero, six octets.
#[tactic(auto, unfolding(crate::specs::Address::valid_of))]
pub fn valid(a: u64) -> bool
    ensures { result ≡ valid_of a }
{
    a != 0 && a <= 281474976710655 && a % 2 == 0
}

// Whether an address is a group's: the lowest bit of its first octet is 1.
pub fn group(a: u64) -> bool
    ensures { result ≡ group_of a }
{
    a % 2 == 1
}
