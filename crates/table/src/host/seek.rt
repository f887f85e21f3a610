// Where an address stands in a host's table.
ghost use Rattle.std.specs.Prelude.{◌≡◌, length};
ghost use Rattle.table.specs.Places.{first_from, has_link};
ghost use Rattle.table.specs.Rows.{linked_in, records_of};

use crate::host::rows::{find, look, peer_at};
use crate::rules::lookup::Lookup;
use octets::row::link_in;
use peer::record::Record;

// The walk over places and links ends at the first match.
// Nested loops left by a label: the form that document 01 names.
fn first_link(table: &[u8], address: u64) -> Option<usize>
    requires { length table.now ≡ 1536 }
    ensures { result ≡ first_from (has_link address) 0 (records_of table.now) }
{
    let mut found = None;
    'search: for i in 0..32 {
        for j in 0..4 {
            if link_in(table, 48 * i, j) == address {
                found = Some(i);
                break 'search;
            }
        }
    }
    found
}

// The octets of a table, and whether any record has links, by what is known without a look at them.
#[derive(Clone, Copy)]
pub(crate) struct Lent<'a> {
    pub octets: &'a [u8],
    pub linked: bool,
    ghost long: { length octets.now ≡ 1536 },
}

impl Lookup for Lent<'_> {
    ghost records = { λ x. records_of x.octets.now };

    ghost sound = { λ x. x.linked ≡ linked_in (records_of x.octets.now) };

    #[inline(always)]
    fn look(self, i: usize) -> Record {
        look(self.octets, i)
    }

    #[inline(always)]
    fn peer_at(self, at: Option<usize>, address: u64) -> Record {
        peer_at(self.octets, at, address)
    }

    #[inline(always)]
    fn find(self, address: u64) -> Option<usize> {
        find(self.octets, address)
    }

    #[inline(always)]
    fn find_link(self, address: u64) -> Option<usize> {
        // Looked up only where any place has links.
        if self.linked && address != 0 {
            first_link(self.octets, address)
        } else {
            None
        }
    }
}
