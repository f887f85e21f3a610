// Whether a row is well formed by itself, and its links: tested by its numbers, without making a record of it.
ghost use Rattle.std.specs.Prelude.{◌≡◌, true, false, not, ◌&&◌, eqb, leb, ltb, length, ◌+◌, ◌≤◌};
ghost use Rattle.octets.specs.Pick.{pick};
ghost use Rattle.octets.specs.Links.{unlinked};
ghost use Rattle.octets.specs.Row.{row_at};
ghost use Rattle.peer.specs.Fit.{exchange_fits, links_fit, query_fits, record_fits};
ghost use Rattle.peer.specs.Query.{query_of};
ghost use Rattle.peer.specs.Record.{associates, exchange_of, linked_of, under_way};
ghost use Rattle.peer.specs.Settings.{role_answers, role_asks, settings_fit};
ghost use Rattle.table.specs.Places.{all_of};
ghost use Rattle.table.specs.Rows.{query_numbered, record_of, records_of, row_numbered};

use octets::address::valid;
use octets::row::{Row, row_at};
use octets::vacant::linkless_at;
use peer::fit::{highest, hold_fits, links_stand};
use peer::record::Record;
use peer::settings::{Settings, answers, asks, associates};

// Whether a row is well formed by itself, and whether it has a (re)association under way.
#[derive(Clone, Copy)]
pub struct Standing {
    pub fit: bool,
    pub associating: bool,
}

// No (re)association.
fn alone(fit: bool) -> Standing
    ensures { result ≡ record { fit = fit; associating = false } }
{
    Standing {
        fit,
        associating: false,
    }
}

// Whether an exchange is for a role, and has a time exactly if it was sent: from number 7 on.
fn timing(role: u8, e: u8, left: u16) -> bool
    ensures { result ≡ pick (ltb e 7) (role_answers role && eqb left 0) (role_asks role && not (eqb left 0)) }
{
    if e < 7 {
        answers(role) && left == 0
    } else {
        asks(role) && left != 0
    }
}

// An exchange, by its number, at a role: none; asked or awaiting, without a time, where requests are answered; sent, with one, where they are
// made. A (re)association stands from State 2 on, where there is one.
// By the row's numbers: no record is made of it (S14), and `exchange_of` gives the contract.
fn exchange_standing(role: u8, e: u8, state: u8, left: u16) -> Standing
    ensures { (result.fit ≡ (leb e 9 && exchange_fits (exchange_of e) role state left)) × (result.fit ≡ true → result.associating ≡ leb 2 (under_way (exchange_of e))) }
{
    // Most rows end here.
    if e == 0 {
        return alone(left == 0);
    }
    if !timing(role, e, left) {
        return alone(false);
    }
    if e == 1 {
        return alone(true);
    }
    if e == 7 {
        return alone(true);
    }
    if !associates(role) {
        return alone(false);
    }
    if state < Record::STATE_2 {
        return alone(false);
    }
    if 9 < e {
        return alone(false);
    }
    Standing {
        fit: e != 4,
        associating: true,
    }
}

// A query, by its number and what is left of it: none in any row; else at an access point in State 4, and what runs has time left.
fn query_standing(s: Settings, state: u8, query: u32, remaining: u16) -> bool
    ensures { result ≡ (query_numbered query remaining && query_fits s state (query_of query remaining)) }
{
    // One test for most rows.
    if query as u64 + remaining as u64 == 0 {
        return true;
    }
    if s.role != Settings::AP {
        return false;
    }
    if state != Record::STATE_4 {
        return false;
    }
    if query == 3 {
        return remaining == 0;
    }
    if query == 0 {
        return false;
    }
    if 3 < query {
        return false;
    }
    if remaining == 0 {
        return false;
    }
    remaining <= s.maximum
}

// A row that is not free, as if it had no links.
pub(crate) fn row_standing(s: Settings, r: Row) -> Standing
    requires { settings_fit s ≡ true }
    ensures { (result.fit ≡ (row_numbered r && record_fits s (linked_of (record_of r) unlinked))) × (result.fit ≡ true → result.associating ≡ associates (record_of r)) }
{
    if r.state < Record::STATE_1 {
        return alone(false);
    }
    if highest(s.role) < r.state {
        return alone(false);
    }
    if r.address == s.own {
        return alone(false);
    }
    if !valid(r.address) {
        return alone(false);
    }
    if !query_standing(s, r.state, r.query, r.remaining) {
        return alone(false);
    }
    if !hold_fits(s.role, r.hold) {
        return alone(false);
    }
    exchange_standing(s.role, r.exchange, r.state, r.left)
}

// Whether a row is well formed, as if it had no links, and has neither an exchange nor a query nor a hold: most rows. The tests that other rows fail
// come first.
pub(crate) fn plain(s: Settings, r: Row) -> bool
    requires { settings_fit s ≡ true }
    ensures { result ≡ true → ((row_numbered r && record_fits s (linked_of (record_of r) unlinked)) ≡ true) × (associates (record_of r) ≡ false) }
{
    // Test by test: as one chain of `&&` the check did not prove it.
    if r.exchange != 0 {
        return false;
    }
    if r.left != 0 {
        return false;
    }
    if r.state < Record::STATE_1 {
        return false;
    }
    if highest(s.role) < r.state {
        return false;
    }
    if r.query != 0 {
        return false;
    }
    if r.remaining != 0 {
        return false;
    }
    if r.address == s.own {
        return false;
    }
    if !valid(r.address) {
        return false;
    }
    r.hold == 0
}

// The links of a row: none, or at an access point.
fn links_standing(s: Settings, table: &[u8], at: usize) -> bool
    requires { at + 48 ≤ length table.now }
    ensures { result ≡ links_fit s (record_of (row_at at table.now)) }
{
    if linkless_at(table, at) {
        return true;
    }
    if s.role != Settings::AP {
        return false;
    }
    let r = row_at(table, at);
    links_stand(s.own, r.address, r.links)
}

// The links of all rows.
pub(crate) fn all_links_standing(s: Settings, table: &[u8]) -> bool
    requires { length table.now ≡ 1536 }
    ensures { result ≡ all_of (links_fit s) (records_of table.now) }
{
    for i in 0..32 {
        if !links_standing(s, table, 48 * i) {
            return false;
        }
    }
    true
}
