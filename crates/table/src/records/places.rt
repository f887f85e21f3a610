// Places of the table: find by address, look and store. Each is total: past the end nothing is found, seen or stored.
ghost use Rattle.std.specs.Prelude.{◌≡◌, map, get_or, set};
ghost use Rattle.peer.specs.Record.{free_of};
ghost use Rattle.peer.specs.Association.{parted_of};
ghost use Rattle.table.specs.Places.{find_link_of, find_of, first_from, has_link, seek_of};

use peer::association::parted;
use peer::record::Record;

// The lowest place with an address. Of 0: the lowest free place.
pub fn find(addresses: &[u64], address: u64) -> Option<usize>
    ensures { result ≡ find_of addresses.now address }
{
    addresses.iter().position(|b| *b == address)
}

// The walk over places and links ends at the first match.
// Nested loops left by a label: the form that document 01 names.
fn first_link(t: [Record; 32], address: u64) -> Option<usize>
    ensures { result ≡ first_from (has_link address) 0 t }
{
    let mut found = None;
    'search: for i in 0..32 {
        let p = t[i];
        let links = p.links;
        for j in 0..4 {
            if links.at(j) == address {
                found = Some(i);
                break 'search;
            }
        }
    }
    found
}

// The lowest place that has an address among its links. Of 0: none.
pub fn find_link(t: [Record; 32], address: u64) -> Option<usize>
    ensures { result ≡ find_link_of t address }
{
    if address == 0 {
        return None;
    }
    first_link(t, address)
}

// The place of a frame's Address 2: among the links first, then these addresses, whosever they are.
#[tactic(auto, unfolding(crate::specs::Places::seek_of))]
pub fn seek(t: [Record; 32], addresses: &[u64], address: u64) -> Option<usize>
    ensures { result ≡ seek_of t addresses.now address }
{
    match find_link(t, address) {
        Some(i) => Some(i),
        None => find(addresses, address),
    }
}

// The record at a place, or a free one where there is no such place.
pub fn look(t: [Record; 32], i: usize) -> Record
    ensures { result ≡ get_or t i free_of }
{
    if i < 32 { t[i] } else { Record::free() }
}

// The table with a record at a place, where there is such a place.
pub fn store(t: [Record; 32], i: usize, p: Record) -> [Record; 32]
    ensures { result ≡ set t i p }
{
    let mut next = t;
    if i < 32 {
        next[i] = p;
    }
    next
}

// The table with every record in State 3 or 4 in State 2.
pub fn part_all(t: [Record; 32]) -> [Record; 32]
    ensures { result ≡ map parted_of t }
{
    let mut next = t;
    // One by one: by `map` a call takes 7,448 instructions, so 1,651.
    for i in 0..32 {
        next[i] = parted(next[i]);
    }
    next
}
