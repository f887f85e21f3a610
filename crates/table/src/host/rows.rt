// The table as a host lends it: 32 rows of 48 octets.
ghost use Rattle.std.specs.Prelude.{◌≡◌, false, true, map, ltb, length, get_or, set, ℕ, ◌*◌, ◌≤◌};
ghost use Rattle.std.proofs.lemmas.List.Edits.{sets};
ghost use Rattle.octets.specs.Pick.{pick};
ghost use Rattle.octets.specs.Row.{head_in, row_in};
ghost use Rattle.peer.specs.Association.{parted_of};
ghost use Rattle.peer.specs.Record.{free_of};
ghost use Rattle.peer.specs.Tick.{tick_of};
ghost use Rattle.peer.specs.declared.settings.Settings.{Settings as Given};
ghost use Rattle.table.specs.Pass.{clocked_of, reports_of};
ghost use Rattle.table.specs.Places.{addresses_of, find_of};
ghost use Rattle.table.specs.Rows.{record_of, row_of, records_of, octets_of, is_table, links_over, row_numbered};
ghost use Rattle.table.specs.Seat.{met_of, peer_of};

use crate::rules::pass::put_report;
use crate::rules::seat::Change;
use octets::row::{Row, address_in, put_head, put_row, row_at};
use octets::vacant::blank_at;
use peer::association::parted;
use peer::exchange::{exchange_number, exchange_of};
use peer::query::{query_left, query_number, query_of};
use peer::record::Record;
use peer::settings::Settings;
use peer::tick::tick;

// No `From` here and below: neither type is this crate's, and the pages name both functions.
pub fn record_of(r: Row) -> Record
    ensures { result ≡ record_of r }
{
    let links = r.links;
    Record {
        address: r.address,
        state: r.state,
        exchange: exchange_of(r.exchange),
        left: r.left,
        hold: r.hold,
        query: query_of(r.query, r.remaining),
        identifier: r.identifier,
        links,
    }
}

pub fn row_of(p: Record) -> Row
    ensures { result ≡ row_of p }
{
    let e = p.exchange;
    let q = p.query;
    let links = p.links;
    Row {
        address: p.address,
        hold: p.hold,
        left: p.left,
        state: p.state,
        exchange: exchange_number(e),
        identifier: p.identifier,
        remaining: query_left(q),
        query: query_number(q) as u32,
        links,
    }
}

// The record at a place, or a free one where there is no such place.
pub fn look(table: &[u8], i: usize) -> Record
    ensures { result ≡ get_or (records_of table.now) i free_of }
{
    if i < 32 {
        record_of(row_at(table, 48 * i))
    } else {
        Record::free()
    }
}

// Stores a record at a place, where there is such a place.
pub fn store(table: &mut [u8], i: usize, p: Record)
    ensures { table.new ≡ pick (ltb i 32) (row_in (48 * i) (row_of p) table.old) table.old }
{
    if i < 32 {
        put_row(table, 48 * i, row_of(p));
    }
}

// The same but for its links, which are those at that place already.
fn store_head(table: &mut [u8], i: usize, p: Record)
    ensures { table.new ≡ pick (ltb i 32) (head_in (48 * i) (row_of p) table.old) table.old }
{
    if i < 32 {
        put_head(table, 48 * i, row_of(p));
    }
}

// Stores a record at a place, with its links only where these were named.
fn put(table: &mut [u8], i: usize, p: Record, linking: bool)
    ensures { table.new ≡ pick linking (pick (ltb i 32) (row_in (48 * i) (row_of p) table.old) table.old) (pick (ltb i 32) (head_in (48 * i) (row_of p) table.old) table.old) }
{
    if linking {
        store(table, i, p);
        return;
    }
    store_head(table, i, p);
}

// The lowest place with an address. Of 0: the lowest free place.
// Put where it is called, it costs fewer instructions than a call: what was found needs no flag then.
#[inline(always)]
pub(crate) fn find(table: &[u8], address: u64) -> Option<usize>
    requires { length table.now ≡ 1536 }
    ensures { result ≡ find_of (addresses_of (records_of table.now)) address }
{
    // Never so, by the contract. It tells the compiler the length: no row is tested for room.
    if table.len() != 1536 {
        return None;
    }
    for i in 0..32 {
        if address_in(table, 48 * i) == address {
            return Some(i);
        }
    }
    None
}

// The record of a peer, or a fresh one.
#[tactic(auto, unfolding(crate::specs::Seat::peer_of))]
pub fn peer_at(table: &[u8], at: Option<usize>, address: u64) -> Record
    ensures { result ≡ peer_of (records_of table.now) at address }
{
    match at {
        None => Record::fresh(address),
        Some(i) => look(table, i),
    }
}

// Every record in State 3 or 4 goes to State 2.
fn part_all(table: &mut [u8])
    requires { length table.old ≡ 1536 }
    ensures { table.new ≡ octets_of (map parted_of (records_of table.old)) }
{
    for i in 0..32 {
        // A free place stays free.
        if blank_at(&*table, 48 * i) {
            continue;
        }
        let p = look(&*table, i);
        let q = parted(p);
        store_head(&mut *table, i, q);
    }
}

// Stores a record at a place, and parts any other where it is so.
fn stored(table: &mut [u8], i: usize, p: Record, sole: bool, linking: bool)
    requires { length table.old ≡ 1536 }
    ensures { is_table table.old ≡ true → (linking ≡ false → links_over (set (pick sole (map parted_of (records_of table.old)) (records_of table.old)) i p) ≡ links_over (records_of table.old)) → table.new ≡ octets_of (set (pick sole (map parted_of (records_of table.old)) (records_of table.old)) i p) }
{
    if sole {
        part_all(&mut *table);
        put(table, i, p, linking);
        return;
    }
    put(table, i, p, linking);
}

// A table with a change. Where it names no links, none may change.
pub(crate) fn met(table: &mut [u8], c: Change, linking: bool)
    ensures { is_table table.old ≡ true → (linking ≡ false → links_over (met_of (records_of table.old) c).table ≡ links_over (records_of table.old)) → table.new ≡ octets_of (met_of (records_of table.old) c).table }
{
    if table.len() != 1536 {
        return;
    }
    let place = c.place;
    match place {
        None => {}
        Some(i) => {
            let p = c.peer;
            stored(table, i, p, c.sole, linking);
        }
    }
}

// Whether a row waits for nothing, and is not to be freed: no time, no hold, no query, and not State 1. A clock step leaves it as it is.
fn resting(r: Row) -> bool
    ensures { result ≡ true → (row_numbered r ≡ true) × ((s : Given) (d : ℕ) → tick_of s (record_of r) d ≡ record { peer = record_of r; report = 0 }) }
{
    // Test by test: as one chain of `&&` the check did not prove it.
    if r.hold != 0 {
        return false;
    }
    if r.left != 0 {
        return false;
    }
    if r.state == Record::STATE_1 {
        return false;
    }
    if r.query != 0 {
        return false;
    }
    if r.remaining != 0 {
        return false;
    }
    r.exchange <= 9
}

// A clock step at each place in turn: every time falls, and what ended is reported. Gives how many octets of reports were written.
pub(crate) fn clock(s: Settings, table: &mut [u8], d: u16, out: &mut [u8]) -> u16
    requires { (length table.old ≡ 1536) × (256 ≤ length out.old) }
    ensures { (result ≡ (clocked_of s (records_of table.old) d).written) × (table.new ≡ octets_of (clocked_of s (records_of table.old) d).table) × (out.new ≡ sets out.old 0 (reports_of s d 0 (records_of table.old))) }
{
    let mut n = 0;
    for i in 0..32 {
        // Nor does a free place wait for anything. The row is read anew where it does: its links are not read before.
        if !resting(row_at(&*table, 48 * i)) {
            let p = look(&*table, i);
            let q = tick(s, p, d);
            n = put_report(&mut *out, n, i as u8, q.report, p.address);
            let after = q.peer;
            store_head(&mut *table, i, after);
        }
    }
    n as u16
}
