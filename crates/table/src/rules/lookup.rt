// A table in which a peer is looked up, whichever way it is held: the rules ask no more of a table than this.
ghost use Rattle.std.specs.Prelude.{◌≡◌, List, None, get_or, ℕ};
ghost use Rattle.peer.specs.Record.{free_of};
ghost use Rattle.peer.specs.declared.record.Record.{Record as Peer};
ghost use Rattle.table.specs.Places.{addresses_of, find_link_of, find_of, on_found, seek_of};
ghost use Rattle.table.specs.Seat.{peer_of};

use peer::record::Record;

pub(crate) trait Lookup: Copy {
    // The records, place for place.
    ghost records: { Self → List Peer };

    // Whether what is said beside them is true of them.
    ghost sound: { Self → Type 0 };

    // The record at a place, or a free one where there is no such place.
    fn look(self, i: usize) -> Record
        ensures { result ≡ get_or (records self) i free_of };

    // The lowest place with an address. Of 0: the lowest free place.
    fn find(self, address: u64) -> Option<usize>
        ensures { result ≡ find_of (addresses_of (records self)) address };

    // The lowest place that has an address among its links. Of 0: none.
    fn find_link(self, address: u64) -> Option<usize>
        ensures { sound self → result ≡ find_link_of (records self) address };

    // The record of a peer, or a fresh one.
    fn peer_at(self, at: Option<usize>, address: u64) -> Record
        ensures { result ≡ peer_of (records self) at address };

    // The state of a peer: that of its record, or of a fresh one.
    final fn state_at(self, at: Option<usize>) -> u8
        ensures { (a : ℕ) → result ≡ (peer_of (Self.records self) at a).state }
    {
        match at {
            None => Record::STATE_1,
            Some(i) => self.look(i).state,
        }
    }

    // The lowest free place, looked up only for a peer that has no record.
    final fn vacancy(self, at: Option<usize>) -> Option<usize>
        ensures { result ≡ on_found at (find_of (addresses_of (Self.records self)) 0) (λ i. None) }
    {
        match at {
            Some(_) => None,
            None => self.find(0),
        }
    }

    // The place of a frame's Address 2: among the links first, then the devices.
    final fn seek(self, address: u64) -> Option<usize>
        ensures { Self.sound self → result ≡ seek_of (Self.records self) (addresses_of (Self.records self)) address }
    {
        match self.find_link(address) {
            Some(i) => Some(i),
            None => self.find(address),
        }
    }
}
