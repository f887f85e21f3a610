// A primitive's rules: the order of refusals, and what the table has of its peer.
ghost use Rattle.std.specs.Prelude.{◌≡◌, List};
ghost use Rattle.peer.specs.declared.record.Record.{Record as Peer};
ghost use Rattle.table.specs.Seat.{aid_of, met_of};
ghost use Rattle.table.specs.Refusals.{first_of};
ghost use Rattle.table.specs.Ask.{asked_at, asked_by, may_ask, no_place, refusals_at};
ghost use Rattle.table.specs.Others.{others_of};
ghost use Rattle.table.specs.Places.{addresses_of};

use crate::rules::lookup::Lookup;
use crate::rules::seat::{Change, refused, turn_in};
use octets::address::valid;
use peer::record::Record;
use peer::refuse::{Others, code_allowed, conflict, held, mismatch, role_allowed};
use peer::settings::Settings;

// Whether number, address and code may be asked at all: else refusal 3.
fn may_ask(s: Settings, primitive: u8, address: u64, code: u16) -> bool
    ensures { result ≡ may_ask s primitive address code }
{
    if !code_allowed(primitive, code) {
        return false;
    }
    address != s.own && valid(address)
}

// Whether a new record is needed and no place is free: refusal 6.
fn no_place(free: Option<usize>, at: Option<usize>, primitive: u8) -> bool
    ensures { result ≡ no_place at free primitive }
{
    if primitive != 1 {
        return false;
    }
    at.is_none() && free.is_none()
}

// The AID of a place; 0 of none.
fn aid(at: Option<usize>) -> u16
    ensures { result ≡ aid_of at }
{
    match at {
        Some(i) if i < 32 => i as u16 + 1,
        _ => 0,
    }
}

// The first refusal that applies, of those after 1 and 2; 0 where none does.
// A number, 0 for none, as `first_of` gives it: `asked_by` and `ask_why` go by it, and `Answer` hands it to C.
pub(crate) fn refusal(
    s: Settings,
    free: Option<usize>,
    at: Option<usize>,
    link: Option<usize>,
    p: Record,
    o: Others,
    primitive: u8,
    address: u64,
    code: u16,
) -> u8
    ensures { result ≡ first_of (refusals_at s p o at free link primitive address code) }
{
    if !may_ask(s, primitive, address, code) {
        return 3;
    }
    if link.is_some() {
        return 3; // 02, K11: primitives name the device
    }
    if !role_allowed(primitive, s.role) {
        return 5;
    }
    if conflict(p, o, primitive) {
        return 9;
    }
    if mismatch(p, o, primitive) {
        return 7;
    }
    if held(p, primitive) {
        return 8;
    }
    if no_place(free, at, primitive) {
        return 6;
    }
    0
}

// A primitive to a peer that was found at a place, or nowhere, with the lowest free place, and where its address is a link's.
pub(crate) fn asked_at(
    s: Settings,
    free: Option<usize>,
    at: Option<usize>,
    link: Option<usize>,
    p: Record,
    o: Others,
    primitive: u8,
    address: u64,
    code: u16,
) -> Change
    ensures { (t : List Peer) → met_of t result ≡ asked_by s t p o at free link primitive address code }
{
    let n = refusal(s, free, at, link, p, o, primitive, address, code);
    if n != 0 {
        return refused(n);
    }
    let turn = peer::ask::ask(s, aid(at), p, o, primitive, code).towards(p.spoken_at());
    // The other turn is not needed: without a free place refusal 6 came first.
    turn_in(free, at, turn, turn)
}

// A primitive, over a table and what it asks of the whole of it.
pub(crate) fn asked_in<T: Lookup>(
    s: Settings,
    t: T,
    o: Others,
    primitive: u8,
    address: u64,
    code: u16,
) -> Change
    ensures { T.sound t → o ≡ others_of s (T.records t) → met_of (T.records t) result ≡ asked_at s (T.records t) (addresses_of (T.records t)) primitive address code }
{
    let at = t.find(address);
    asked_at(
        s,
        t.vacancy(at),
        at,
        t.find_link(address),
        t.peer_at(at, address),
        o,
        primitive,
        address,
        code,
    )
}
