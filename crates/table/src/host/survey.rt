// One pass over the octets of a table, from the last place in use to the first: whether settings and table are well formed, and what a
// station's primitives ask of the whole table.
ghost use Rattle.std.specs.Prelude.{◌≡◌, true, false, not, ◌&&◌, ◌||◌, length, drop, get_or, ℕ, ◌+◌, ◌*◌, ◌-◌, ◌/◌, ◌%◌, ◌<◌, ◌≤◌};
ghost use Rattle.octets.specs.Links.{unlinked};
ghost use Rattle.octets.specs.Row.{blank_at, row_at};
ghost use Rattle.peer.specs.Fit.{links_fit, record_fits};
ghost use Rattle.peer.specs.Record.{associates, linked_of};
ghost use Rattle.peer.specs.Settings.{settings_fit};
ghost use Rattle.table.specs.Fit.{apart, links_apart, well_formed};
ghost use Rattle.table.specs.Others.{others_of};
ghost use Rattle.table.specs.Places.{addresses_of, all_of, link_addresses_of};
ghost use Rattle.table.specs.Rows.{linked_in, numbered_at, record_of, records_of, row_numbered};

use crate::host::apart::{links_apart, mark, unused_from};
use crate::host::standing::{all_links_standing, plain, row_standing};
use crate::rules::others::{Counts, counted, first_joined, nobody, others, sparse};
use octets::row::row_at;
use octets::vacant::{blank_at, blank_four, linkless_four};
use peer::record::Record;
use peer::refuse::Others;
use peer::settings::Settings;

// What the pass finds. Where all is not well formed, the rest says nothing.
// Not the walk of `records`: these rows are read in place. With each read into a record a call took 6,196 instructions (DECISIONS, Speed).
#[derive(Clone, Copy)]
pub struct Seen {
    pub well: bool,
    // What a station's primitives ask of the whole table.
    pub others: Others,
    // Whether any record has links.
    pub linked: bool,
}

fn ill() -> Seen
    ensures { result.well ≡ false }
{
    Seen {
        well: false,
        others: nobody(),
        linked: false,
    }
}

// Whether no place behind one has an address, looked up only where it may be otherwise: none has it if none has its mark.
fn alone(table: &[u8], a: u64, at: usize, marked: bool) -> bool
    requires { at < 32 }
    ensures { result ≡ (not marked || all_of (apart a) (drop (at + 1) (addresses_of (records_of table.now)))) }
{
    !marked || unused_from(table, a, at + 1)
}

// Whether the links of the table are well formed, looked at only where there are any.
fn links_well(s: Settings, table: &[u8], linked: bool) -> bool
    requires { (length table.now ≡ 1536) × (linked ≡ linked_in (records_of table.now)) }
    ensures { result ≡ (all_of (links_fit s) (records_of table.now) && links_apart (link_addresses_of (records_of table.now)) (addresses_of (records_of table.now))) }
{
    !linked || all_links_standing(s, table) && links_apart(table)
}

// How many places there are up to the last one in use, or up to three more: four are looked at in each turn.
fn used(table: &[u8]) -> usize
    requires { length table.now ≡ 1536 }
    ensures { (result ≤ 32) × (result % 4 ≡ 0) × ((i : ℕ) → result ≤ i → i < 32 → blank_at (48 * i) table.now ≡ true) }
{
    // Never so, by the contract. It tells the compiler the length: no row is tested for room.
    if table.len() != 1536 {
        return 0;
    }
    for i in (0..8).rev() {
        if !blank_four(table, 192 * i) {
            return 4 * i + 4;
        }
    }
    0
}

// Whether any place has links, of those up to the last one in use: four are looked at in each turn, and the last turn goes on without a jump.
fn any_linked(table: &[u8], n: usize) -> bool
    requires { (length table.now ≡ 1536) × (n ≤ 32) × (n % 4 ≡ 0) × ((i : ℕ) → n ≤ i → i < 32 → blank_at (48 * i) table.now ≡ true) }
    ensures { result ≡ linked_in (records_of table.now) }
{
    // As in `used`.
    if table.len() != 1536 {
        return false;
    }
    if n < 4 {
        return false;
    }
    // Never so: it tells the compiler that there are no more places.
    if 32 < n {
        return false;
    }
    // Four places a turn, and left at its end without a jump: with one step more 1,275 instructions a call became 1,247 (DECISIONS, Speed).
    let mut i = n - 4;
    while linkless_four(table, 48 * i) {
        if i < 4 {
            return false;
        }
        i -= 4;
    }
    true
}

// Whether any record has links.
pub(crate) fn linked_now(table: &[u8]) -> bool
    ensures { length table.now ≡ 1536 → result ≡ linked_in (records_of table.now) }
{
    if table.len() != 1536 {
        return false;
    }
    any_linked(table, used(table))
}

// Whether the place before one is a row of which no more is to be asked: a plain one, and no row behind it has its mark.
fn clear(s: Settings, table: &[u8], i: usize, marks: &[bool]) -> bool
    requires { (settings_fit s ≡ true) × (i ≤ 32) × (length marks.now ≡ 256) }
    ensures { result ≡ true → (0 < i) × ((row_numbered (row_at (48 * (i - 1)) table.now) && record_fits s (linked_of (record_of (row_at (48 * (i - 1)) table.now)) unlinked)) ≡ true) × (associates (record_of (row_at (48 * (i - 1)) table.now)) ≡ false) × (get_or marks.now (((row_at (48 * (i - 1)) table.now).address / 4294967296 + (row_at (48 * (i - 1)) table.now).address / 1099511627776) % 256) false ≡ false) }
{
    if i == 0 {
        return false;
    }
    let r = row_at(table, 48 * (i - 1));
    plain(s, r) && !marks[mark(r.address)]
}

// Whether settings and table are well formed, and what is counted of the table. A row is compared with those behind it only where one of
// them has its mark. The inner loop passes over the rows of which no more is to be asked: there the compiler makes one taken branch a row.
pub(crate) fn survey(s: Settings, table: &[u8]) -> Seen
    requires { length table.now ≡ 1536 }
    ensures { (result.well ≡ (numbered_at 32 0 table.now && well_formed s (records_of table.now))) × (result.well ≡ true → (result.others ≡ others_of s (records_of table.now)) × (result.linked ≡ linked_in (records_of table.now))) }
{
    // As in `used`.
    if table.len() != 1536 {
        return ill();
    }
    if !s.fit() {
        return ill();
    }
    let mut marks = [false; 256];
    let mut associated = 0;
    let mut joined = 0;
    let mut associating = 0;
    let n = used(table);
    // The inner loop lowers the same count: a `for` has its own, and is no plainer.
    let mut i = n;
    while 0 < i {
        // Never so: it tells the compiler that there are no more places.
        if 32 < i {
            return ill();
        }
        while clear(s, table, i, &marks) {
            i -= 1;
            let r = row_at(table, 48 * i);
            marks[mark(r.address)] = true;
            let on = Record::STATE_3 <= r.state;
            associated = first_joined(on, r.address, associated);
            joined = counted(joined, on);
        }
        if 0 < i {
            i -= 1;
            if blank_at(table, 48 * i) {} else {
                let r = row_at(table, 48 * i);
                let x = row_standing(s, r);
                if x.fit {} else {
                    return ill();
                }
                let m = mark(r.address);
                if alone(table, r.address, i, marks[m]) {} else {
                    return ill();
                }
                marks[m] = true;
                let on = Record::STATE_3 <= r.state;
                associated = first_joined(on, r.address, associated);
                joined = counted(joined, on);
                associating = counted(associating, x.associating);
            }
        }
    }
    let linked = any_linked(table, n);
    let crowd = Counts {
        joined,
        associating,
    };
    Seen {
        well: sparse(s, crowd) && links_well(s, table, linked),
        others: others(s, associated, crowd),
        linked,
    }
}
