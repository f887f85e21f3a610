// A request from a peer that is joined already may be forged: an SA Query asks the peer itself before the request passes.
ghost use Rattle.std.specs.Prelude.{◌≡◌};
ghost use Rattle.peer.specs.Challenge.{challenged_of, inquired_of, is_challenged, passed_of, query_request_heard, query_response_heard, querying_of};

use crate::codes::STATUS_LATER;
use crate::query::{
    Query, is_running, is_timed_out, query_left, running, sent_query, stepped, unmarked,
};
use crate::record::Record;
use crate::reply::{later, query};
use crate::settings::Settings;
use crate::turn::{Told, Turn, replied, still};
use octets::frame::Frame;
use octets::heard::Kind;

// Whether a request that an AP hears is met by a query.
#[tactic(auto, unfolding(crate::specs::Challenge::is_challenged))]
pub fn is_challenged(s: Settings, p: Record) -> bool
    ensures { result ≡ is_challenged s p }
{
    s.edition == 2 && s.protection == 1 && p.state == Record::STATE_4 && p.query != Query::TimedOut
}

// The record with a query that runs.
#[tactic(auto, unfolding(crate::specs::Challenge::querying_of))]
fn querying(s: Settings, p: Record) -> Record
    ensures { result ≡ querying_of s p }
{
    p.queried(running(s, p.query), stepped(p.query, p.identifier))
}

// The request is turned away for the time that is left of the query.
#[tactic(auto, unfolding(crate::specs::Challenge::challenged_of))]
pub fn challenged(s: Settings, p: Record, kind: Kind) -> Turn
    ensures { result ≡ challenged_of s p kind }
{
    let time = query_left(running(s, p.query)) as u32;
    let reply = later(s, p.address, kind, STATUS_LATER, time);
    Turn::of(s, p, querying(s, p), Turn::ADMIT, Told::nothing(), reply)
}

// The record as a request that passes leaves it: without the mark.
#[tactic(auto, unfolding(crate::specs::Challenge::passed_of))]
pub fn passed(p: Record) -> Record
    ensures { result ≡ passed_of p }
{
    p.queried(unmarked(p.query), p.identifier)
}

// A query to us: it is answered, in either role.
#[tactic(auto, unfolding(crate::specs::Challenge::query_request_heard))]
pub fn query_request_heard(s: Settings, p: Record, identifier: u16) -> Turn
    ensures { result ≡ query_request_heard s p identifier }
{
    if p.state == Record::STATE_4 {
        let reply = query(s, p.address, Frame::QUERY_RESPONSE, identifier);
        return replied(s, p, Turn::ADMIT, reply);
    }
    still(s, p, Turn::ADMIT)
}

// The answer to a query of ours: it ends the query whose identifier it has.
#[tactic(auto, unfolding(crate::specs::Challenge::query_response_heard))]
pub fn query_response_heard(s: Settings, p: Record, identifier: u16) -> Turn
    ensures { result ≡ query_response_heard s p identifier }
{
    if p.state != Record::STATE_4 {
        return still(s, p, Turn::ADMIT);
    }
    if !is_running(p.query) || identifier != p.identifier {
        return still(s, p, Turn::ADMIT);
    }
    let after = p.queried(Query::None, p.identifier);
    Turn::of(s, p, after, Turn::ADMIT, Told::nothing(), None)
}

// Primitive 11: the request of a query that is due.
#[tactic(auto, unfolding(crate::specs::Challenge::inquired_of))]
pub fn inquired(s: Settings, p: Record) -> Turn
    ensures { result ≡ inquired_of s p }
{
    let after = p.queried(sent_query(p.query), p.identifier);
    let reply = query(s, p.address, Frame::QUERY_REQUEST, p.identifier);
    Turn::of(s, p, after, Turn::NONE, Told::nothing(), reply)
}
