// Whether a record is well formed by itself.
ghost use Rattle.std.specs.Prelude.{◌≡◌};
ghost use Rattle.peer.specs.Fit.{asked_fits, awaiting_fits, exchange_fits, highest_state, hold_fits, links_fit, links_stand, place_fits, query_allowed, query_fits, query_stands, record_fits, running_fits, sent_fits, slot_fits, stands};

use crate::exchange::{Exchange, associating};
use crate::query::Query;
use crate::record::Record;
use crate::settings::{Settings, answers, asks, associates};
use octets::address::valid;
use octets::heard::Kind;
use octets::links::Links;

// Whether a kind of exchange may stand at a role in a state.
#[tactic(auto, unfolding(crate::specs::Fit::stands))]
fn standing(k: Kind, role: u8, state: u8) -> bool
    ensures { result ≡ stands k role state }
{
    !associating(k) || (associates(role) && Record::STATE_2 <= state)
}

#[tactic(auto, unfolding(crate::specs::Fit::asked_fits))]
fn asked_fits(k: Kind, role: u8, state: u8, left: u16) -> bool
    ensures { result ≡ asked_fits k role state left }
{
    answers(role) && left == 0 && standing(k, role, state)
}

#[tactic(auto, unfolding(crate::specs::Fit::awaiting_fits))]
fn awaiting_fits(k: Kind, role: u8, state: u8, left: u16) -> bool
    ensures { result ≡ awaiting_fits k role state left }
{
    associating(k) && asked_fits(k, role, state, left)
}

#[tactic(auto, unfolding(crate::specs::Fit::sent_fits, crate::specs::Settings::time_fits))]
fn sent_fits(k: Kind, role: u8, state: u8, left: u16) -> bool
    ensures { result ≡ sent_fits k role state left }
{
    asks(role) && left != 0 && standing(k, role, state)
}

// Whether a hold fits the role.
#[tactic(auto, unfolding(crate::specs::Fit::hold_fits))]
pub fn hold_fits(role: u8, hold: u32) -> bool
    ensures { result ≡ hold_fits role hold }
{
    asks(role) || hold == 0
}

// Whether an exchange fits the role, the state and the time left.
// Role, state and time left one by one: this is public and takes them so.
pub fn exchange_fits(e: Exchange, role: u8, state: u8, left: u16) -> bool
    ensures { result ≡ exchange_fits e role state left }
{
    match e {
        Exchange::None => left == 0,
        Exchange::Asked(k) => asked_fits(k, role, state, left),
        Exchange::Awaiting(k) => awaiting_fits(k, role, state, left),
        Exchange::Sent(k) => sent_fits(k, role, state, left),
    }
}

// Whether a query or its mark may stand in a state.
#[tactic(auto, unfolding(crate::specs::Fit::query_stands))]
fn query_stands(s: Settings, state: u8) -> bool
    ensures { result ≡ query_stands s state }
{
    s.role == Settings::AP && state == Record::STATE_4
}

#[tactic(auto, unfolding(crate::specs::Fit::running_fits))]
fn running_fits(s: Settings, state: u8, left: u16) -> bool
    ensures { result ≡ running_fits s state left }
{
    left != 0 && left <= s.maximum && query_stands(s, state)
}

// Whether a query fits the settings and the state.
fn query_fits(s: Settings, state: u8, q: Query) -> bool
    ensures { result ≡ query_fits s state q }
{
    match q {
        Query::None => true,
        Query::Running { left, .. } => running_fits(s, state, left),
        Query::TimedOut => query_stands(s, state),
    }
}

// Whether a record's query fits; its identifier may be any.
#[tactic(auto, unfolding(crate::specs::Fit::query_allowed))]
fn query_allowed(s: Settings, p: Record) -> bool
    ensures { result ≡ query_allowed s p }
{
    query_fits(s, p.state, p.query)
}

// Whether a slot has no link, or a valid one that is not our own, behind an address.
#[tactic(auto, unfolding(crate::specs::Fit::slot_fits))]
fn slot_fits(own: u64, before: u64, link: u64) -> bool
    ensures { result ≡ slot_fits own before link }
{
    link == 0 || (before != 0 && link != own && valid(link))
}

// Whether links are addresses that may stand at a device, and fill the slots from the first on.
#[tactic(auto, unfolding(crate::specs::Fit::links_stand))]
pub fn links_stand(own: u64, address: u64, links: Links) -> bool
    ensures { result ≡ links_stand own address links }
{
    slot_fits(own, address, links.one)
        && slot_fits(own, links.one, links.two)
        && slot_fits(own, links.two, links.three)
        && slot_fits(own, links.three, links.four)
}

// Whether a record's links fit: none, or at an AP.
#[tactic(auto, unfolding(crate::specs::Fit::links_fit))]
fn links_fit(s: Settings, p: Record) -> bool
    ensures { result ≡ links_fit s p }
{
    p.links.is_none() || (s.role == Settings::AP && links_stand(s.own, p.address, p.links))
}

// The highest state there is at a role.
#[tactic(auto, unfolding(crate::specs::Fit::highest_state))]
pub fn highest(role: u8) -> u8
    ensures { result ≡ highest_state role }
{
    if associates(role) {
        Record::STATE_4
    } else {
        Record::STATE_2
    }
}

// Whether a record that is no free place is well formed by itself.
#[tactic(auto, unfolding(crate::specs::Fit::record_fits))]
fn record_fits(s: Settings, p: Record) -> bool
    ensures { result ≡ record_fits s p }
{
    Record::STATE_1 <= p.state
        && p.state <= highest(s.role)
        && p.address != s.own
        && valid(p.address)
        && hold_fits(s.role, p.hold)
        && exchange_fits(p.exchange, s.role, p.state, p.left)
        && query_allowed(s, p)
        && links_fit(s, p)
}

// Whether a place is free or its record well formed by itself.
#[tactic(auto, unfolding(crate::specs::Fit::place_fits))]
pub fn place_fits(s: Settings, p: Record) -> bool
    ensures { result ≡ place_fits s p }
{
    p.is_free() || record_fits(s, p)
}
