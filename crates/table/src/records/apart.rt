// Whether no link is in two slots or a device's address, over records by value.
ghost use Rattle.std.specs.Prelude.{◌≡◌, ◌&&◌};
ghost use Rattle.table.specs.Fit.{alone_in, links_apart};
ghost use Rattle.table.specs.Places.{link_addresses_of};

use peer::record::Record;

// The links of all places, four slots for each.
fn links_of(t: [Record; 32]) -> [u64; 128]
    ensures { result ≡ link_addresses_of t }
{
    let mut links = [0; 128];
    for (k, link) in links.iter_mut().enumerate() {
        *link = t[k / 4].links.at(k % 4);
    }
    links
}

// Whether an address is no link, or neither a link behind nor among these addresses.
fn alone(l: u64, behind: &[u64], addresses: &[u64]) -> bool
    ensures { result ≡ (alone_in l behind.now && alone_in l addresses.now) }
{
    l == 0 || !behind.contains(&l) && !addresses.contains(&l)
}

// Whether each link is neither in a later slot nor among these addresses.
pub fn links_apart(t: [Record; 32], addresses: &[u64]) -> bool
    ensures { result ≡ links_apart (link_addresses_of t) addresses.now }
{
    let links = links_of(t);
    // Slot by slot, both at once: a link that is not apart ends the walk at its own slot.
    for k in 0..128 {
        if !alone(links[k], &links[k + 1..], addresses) {
            return false;
        }
    }
    true
}
