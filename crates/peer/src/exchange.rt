// The exchange under way with a peer, and the numbers of exchanges and of their kinds.
ghost use Rattle.std.specs.Prelude.{◌≡◌};
ghost use Rattle.peer.specs.Record.{asked_of, awaiting_of, exchange_number, exchange_of, is_associating, kind_of, sent_of, under_way};

use octets::heard::Kind;

// The exchange under way.
// The enum that document 01 names: none, asked, awaiting or sent, each with a kind inside.
#[derive(Clone, Copy, PartialEq, Eq)]
pub enum Exchange {
    None,
    // A request was heard, and is to be answered (AP).
    Asked(Kind),
    // A response was sent, and is not yet acknowledged (AP).
    Awaiting(Kind),
    // A request was sent (station).
    Sent(Kind),
}

// The numbers of the kinds: `asked`, `awaiting`, `sent` and `under_way` promise them, 0 for none, and a clock step reports them.
pub const AUTHENTICATION: u8 = 1;

pub const ASSOCIATION: u8 = 2;

pub const REASSOCIATION: u8 = 3;

// The number of a kind. `From<Kind> for u8` can't stand here: neither type is this crate's.
pub fn kind_number(k: Kind) -> u8
    ensures { result ≡ kind_of k }
{
    match k {
        Kind::Authentication => AUTHENTICATION,
        Kind::Association => ASSOCIATION,
        Kind::Reassociation => REASSOCIATION,
    }
}

// The number of the kind that is asked, or 0.
// This and the next two are three functions: each is public, and `specs/Record.antt` names each.
pub fn asked(e: Exchange) -> u8
    ensures { result ≡ asked_of e }
{
    match e {
        Exchange::Asked(k) => kind_number(k),
        _ => 0,
    }
}

// The number of the kind whose response is not yet acknowledged, or 0.
pub fn awaiting(e: Exchange) -> u8
    ensures { result ≡ awaiting_of e }
{
    match e {
        Exchange::Awaiting(k) => kind_number(k),
        _ => 0,
    }
}

// The number of the kind that was sent, or 0.
pub fn sent(e: Exchange) -> u8
    ensures { result ≡ sent_of e }
{
    match e {
        Exchange::Sent(k) => kind_number(k),
        _ => 0,
    }
}

// The number of the kind of the exchange under way, or 0.
pub fn under_way(e: Exchange) -> u8
    ensures { result ≡ under_way e }
{
    match e {
        Exchange::None => 0,
        Exchange::Asked(k) | Exchange::Awaiting(k) | Exchange::Sent(k) => kind_number(k),
    }
}

// This and `exchange_of` are no `From`: the pages and the specs name both, and a `From<u8>` would hide that a number of no exchange gives none.
// The number of an exchange, as it is shown: 0 none, 1 to 3 asked, 4 to 6 awaiting acknowledgement, 7 to 9 sent, each by its kind.
pub fn exchange_number(e: Exchange) -> u8
    ensures { result ≡ exchange_number e }
{
    match e {
        Exchange::None => 0,
        Exchange::Asked(k) => kind_number(k),
        Exchange::Awaiting(k) => 3 + kind_number(k),
        Exchange::Sent(k) => 6 + kind_number(k),
    }
}

// The exchange of a number; none where it is no exchange's.
#[tactic(auto, unfolding(crate::specs::Record::exchange_of))]
pub fn exchange_of(number: u8) -> Exchange
    ensures { result ≡ exchange_of number }
{
    match number {
        1 => Exchange::Asked(Kind::Authentication),
        2 => Exchange::Asked(Kind::Association),
        3 => Exchange::Asked(Kind::Reassociation),
        4 => Exchange::Awaiting(Kind::Authentication),
        5 => Exchange::Awaiting(Kind::Association),
        6 => Exchange::Awaiting(Kind::Reassociation),
        7 => Exchange::Sent(Kind::Authentication),
        8 => Exchange::Sent(Kind::Association),
        9 => Exchange::Sent(Kind::Reassociation),
        _ => Exchange::None,
    }
}

// Whether a kind is association or reassociation.
pub fn associating(k: Kind) -> bool
    ensures { result ≡ is_associating k }
{
    k != Kind::Authentication
}
