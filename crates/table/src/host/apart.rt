// Whether no link is in two slots or a device's address, over the octets of a table.
ghost use Rattle.std.specs.Prelude.{◌≡◌, true, not, ◌&&◌, ◌||◌, length, drop, get_or, ℕ, ◌+◌, ◌*◌, ◌/◌, ◌%◌, ◌<◌};
ghost use Rattle.table.specs.Fit.{apart, links_apart};
ghost use Rattle.table.specs.Places.{addresses_of, all_of, link_addresses_of};
ghost use Rattle.table.specs.Rows.{records_of};

use octets::row::{address_in, link_in};

// The mark of an address, its last two octets added: addresses that differ in just one of these two have different marks.
// Not the walk of `records`: these rows are read in place and compared by marks. With each read into a record a call took 6,196 instructions.
pub(crate) fn mark(a: u64) -> usize
    ensures { result ≡ (a / 4294967296 + a / 1099511627776) % 256 }
{
    ((a / 4294967296 + a / 1099511627776) % 256) as usize
}

// A mark over the first octet of an address and its last two: a device may tell its links apart by either.
fn broad(a: u64) -> usize
    ensures { result ≡ (16 * (a % 256) + 2 * (a / 4294967296) + a / 1099511627776) % 256 }
{
    ((16 * (a % 256) + 2 * (a / 4294967296) + a / 1099511627776) % 256) as usize
}

// The link in a slot of the whole table, four slots for each place.
fn link_at(table: &[u8], k: usize) -> u64
    requires { k < 128 }
    ensures { result ≡ get_or (link_addresses_of (records_of table.now)) k 0 }
{
    link_in(table, 48 * (k / 4), k % 4)
}

// Whether no slot behind one has a link.
fn unlinked_behind(table: &[u8], a: u64, k: usize) -> bool
    requires { k < 128 }
    ensures { result ≡ all_of (apart a) (drop (k + 1) (link_addresses_of (records_of table.now))) }
{
    for i in k + 1..128 {
        if link_at(table, i) == a {
            return false;
        }
    }
    true
}

// Whether no place from one on has an address.
pub(crate) fn unused_from(table: &[u8], a: u64, from: usize) -> bool
    ensures { result ≡ all_of (apart a) (drop from (addresses_of (records_of table.now))) }
{
    for i in from..32 {
        if address_in(table, 48 * i) == a {
            return false;
        }
    }
    true
}

// Both, looked up only where it may be otherwise: none has the address if none has its mark.
fn alone(table: &[u8], a: u64, k: usize, marked: bool) -> bool
    requires { k < 128 }
    ensures { result ≡ (not marked || (all_of (apart a) (drop (k + 1) (link_addresses_of (records_of table.now))) && all_of (apart a) (addresses_of (records_of table.now)))) }
{
    !marked || unlinked_behind(table, a, k) && unused_from(table, a, 0)
}

// Sets the marks of all devices.
fn mark_devices(table: &[u8], marks: &mut [bool])
    requires { length marks.old ≡ 256 }
    ensures { (length marks.new ≡ 256) × ((i : ℕ) → i < 32 → get_or marks.new ((16 * (get_or (addresses_of (records_of table.now)) i 0 % 256) + 2 * (get_or (addresses_of (records_of table.now)) i 0 / 4294967296) + get_or (addresses_of (records_of table.now)) i 0 / 1099511627776) % 256) true ≡ true) }
{
    for i in 0..32 {
        marks[broad(address_in(table, 48 * i))] = true;
    }
}

// Whether each link is neither in a later slot nor a device's address: from the last slot to the first.
pub(crate) fn links_apart(table: &[u8]) -> bool
    ensures { result ≡ links_apart (link_addresses_of (records_of table.now)) (addresses_of (records_of table.now)) }
{
    let mut marks = [false; 256];
    mark_devices(table, &mut marks);
    for k in (0..128).rev() {
        let l = link_at(table, k);
        if l != 0 {
            let m = broad(l);
            if !alone(table, l, k, marks[m]) {
                return false;
            }
            marks[m] = true;
        }
    }
    true
}
