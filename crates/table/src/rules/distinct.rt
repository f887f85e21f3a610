// Whether no address but 0 stands in two places.
ghost use Rattle.std.specs.Prelude.{◌≡◌};
ghost use Rattle.table.specs.Fit.{distinct_of};

pub fn distinct(addresses: &[u64]) -> bool
    ensures { result ≡ distinct_of addresses.now }
{
    for (i, a) in addresses.iter().enumerate() {
        if *a != 0 && addresses[i + 1..].contains(a) {
            return false;
        }
    }
    true
}
