// What a frame from one peer does: the class filter, the group rule, then what is heard.
ghost use Rattle.std.specs.Prelude.{◌≡◌};
ghost use Rattle.octets.specs.Sort.{class_by};
ghost use Rattle.peer.specs.Hear.{act_of, group_heard, hear_of, is_exchange, is_query};

use crate::association::{request_heard, response_heard};
use crate::authentication::authentication_heard;
use crate::challenge::{query_request_heard, query_response_heard};
use crate::farewell::{deauthentication_heard, disassociation_heard};
use crate::filter::barred;
use crate::record::Record;
use crate::settings::Settings;
use crate::turn::{Turn, replied, still};
use crate::verdict::passes_by;
use octets::heard::Heard;
use octets::sort::{Sort, class_by};

// Whether what is heard is part of an exchange: management subtypes 0 to 3 and 11.
pub(crate) fn is_exchange(h: Heard) -> bool
    ensures { result ≡ is_exchange h }
{
    matches!(
        h,
        Heard::Authentication { .. } | Heard::Request { .. } | Heard::Response { .. }
    )
}

pub(crate) fn is_query(h: Heard) -> bool
    ensures { result ≡ is_query h }
{
    matches!(h, Heard::QueryRequest(_) | Heard::QueryResponse(_))
}

// What a frame does that passed the filter and the group rule.
fn act(s: Settings, p: Record, h: Heard) -> Turn
    ensures { result ≡ act_of s p h }
{
    match h {
        Heard::Other => still(s, p, Turn::ADMIT),
        Heard::Authentication {
            algorithm,
            transaction,
            status,
        } => authentication_heard(s, p, algorithm, transaction, status),
        Heard::Deauthentication(reason) => deauthentication_heard(s, p, reason),
        Heard::Disassociation(reason) => disassociation_heard(s, p, reason),
        Heard::Request { kind, current } => request_heard(s, p, kind, current),
        Heard::Response {
            kind,
            status,
            aid,
            comeback,
        } => response_heard(s, p, kind, status, aid, comeback),
        Heard::QueryRequest(identifier) => query_request_heard(s, p, identifier),
        Heard::QueryResponse(identifier) => query_response_heard(s, p, identifier),
    }
}

// The group rule.
#[tactic(auto, unfolding(crate::specs::Hear::group_heard))]
fn group_heard(s: Settings, p: Record, h: Heard) -> Turn
    ensures { result ≡ group_heard s p h }
{
    if is_exchange(h) {
        return still(s, p, Turn::DISCARD);
    }
    if is_query(h) {
        return still(s, p, Turn::ADMIT);
    }
    act(s, p, h)
}

// What a frame from a peer makes of it.
#[tactic(auto, unfolding(crate::specs::Hear::hear_of, crate::specs::Hear::group_heard))]
pub fn hear(s: Settings, p: Record, sort: Sort, group: bool, h: Heard) -> Turn
    ensures { result ≡ hear_of s p (class_by sort) group h }
{
    if !passes_by(s.role, sort, p.state) {
        return replied(s, p, Turn::DISCARD, barred(s, p, class_by(sort), group, h));
    }
    // Most frames end here, data and beacons, and the compiler need not call `act` for them.
    if matches!(h, Heard::Other) {
        return still(s, p, Turn::ADMIT);
    }
    if group {
        group_heard(s, p, h)
    } else {
        act(s, p, h)
    }
}
