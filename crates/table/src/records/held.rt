// A table of thirty-two records, with the address at each place beside it: what a lookup by address goes over.
ghost use Rattle.std.specs.Prelude.{◌≡◌, ⊤};
ghost use Rattle.table.specs.Places.{addresses_of};

use crate::records::places::{find, find_link, look};
use crate::records::seat::peer_at;
use crate::rules::lookup::Lookup;
use peer::record::Record;

// Two fields: `find` is public over any addresses, and definitions take them beside the records.
#[derive(Clone, Copy)]
pub(crate) struct Held<'a> {
    pub table: &'a [Record; 32],
    pub addresses: &'a [u64],
    ghost listed: { addresses.now ≡ addresses_of table.now },
}

impl Lookup for Held<'_> {
    ghost records = { λ x. x.table.now };

    ghost sound = { λ x. ⊤ };

    fn look(self, i: usize) -> Record {
        look(*self.table, i)
    }

    fn peer_at(self, at: Option<usize>, address: u64) -> Record {
        peer_at(*self.table, at, address)
    }

    fn find(self, address: u64) -> Option<usize> {
        find(self.addresses, address)
    }

    fn find_link(self, address: u64) -> Option<usize> {
        find_link(*self.table, address)
    }
}
