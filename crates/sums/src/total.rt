// A number of 64 bits, or `over` where it would pass them.
ghost use Rattle.std.specs.Prelude.{◌≡◌};
ghost use Rattle.sums.specs.Sums.{add_of, longer_of};

// None is `over`.
pub type Total = Option<u64>;

// The sum of both; over where it would pass 64 bits, or where one of them is.
pub fn add(a: Total, b: Total) -> Total
    ensures { result ≡ add_of a b }
{
    a?.checked_add(b?)
}

// The longer of both; over where one of them is.
pub fn longer(a: Total, b: Total) -> Total
    ensures { result ≡ longer_of a b }
{
    Some(a?.max(b?))
}
