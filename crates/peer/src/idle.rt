// Whether a frame that passed the filter has anything to do: the group rule, then what is named for it.
ghost use Rattle.std.specs.Prelude.{◌≡◌};
ghost use Rattle.peer.specs.Idle.{acts_of, authentication_acts, group_barred, idle_of, query_response_acts, response_acts};

use crate::codes::LAST_AID;
use crate::exchange::Exchange;
use crate::hear::{is_exchange, is_query};
use crate::query::is_running;
use crate::record::Record;
use crate::settings::{Settings, answers};
use octets::heard::{Heard, Kind};

// An authentication: asked of a role that answers, or the answer to one that was sent.
#[tactic(auto, unfolding(crate::specs::Idle::authentication_acts))]
fn authentication_acts(s: Settings, p: Record, algorithm: u16, transaction: u16) -> bool
    ensures { result ≡ authentication_acts s p algorithm transaction }
{
    if transaction == 1 {
        return answers(s.role);
    }
    transaction == 2 && algorithm == 0 && p.exchange == Exchange::Sent(Kind::Authentication)
}

// A response to the request that was sent, unless it is a success with a bad AID.
#[tactic(auto, unfolding(crate::specs::Idle::response_acts))]
fn response_acts(p: Record, kind: Kind, status: u16, aid: u16) -> bool
    ensures { result ≡ response_acts p kind status aid }
{
    p.exchange == Exchange::Sent(kind) && (status != 0 || (aid != 0 && aid <= LAST_AID))
}

// The answer to the query that runs.
#[tactic(auto, unfolding(crate::specs::Idle::query_response_acts))]
fn query_response_acts(p: Record, identifier: u16) -> bool
    ensures { result ≡ query_response_acts p identifier }
{
    p.state == Record::STATE_4 && is_running(p.query) && identifier == p.identifier
}

fn acts(s: Settings, p: Record, h: Heard) -> bool
    ensures { result ≡ acts_of s p h }
{
    match h {
        Heard::Other => false,
        Heard::Authentication {
            algorithm,
            transaction,
            ..
        } => authentication_acts(s, p, algorithm, transaction),
        Heard::Deauthentication(_) => Record::STATE_2 <= p.state,
        Heard::Disassociation(_) => Record::STATE_3 <= p.state,
        Heard::Request { .. } => s.role == Settings::AP,
        Heard::Response {
            kind,
            status,
            aid,
            ..
        } => response_acts(p, kind, status, aid),
        Heard::QueryRequest(_) => p.state == Record::STATE_4,
        Heard::QueryResponse(identifier) => query_response_acts(p, identifier),
    }
}

// Whether the group rule stops what is heard.
#[tactic(auto, unfolding(crate::specs::Idle::group_barred))]
pub fn group_barred(group: bool, h: Heard) -> bool
    ensures { result ≡ group_barred group h }
{
    group && is_exchange(h)
}

// Whether there is nothing to do for a frame that the filter and the group rule let through.
#[tactic(auto, unfolding(crate::specs::Idle::idle_of))]
pub fn idle(s: Settings, p: Record, group: bool, h: Heard) -> bool
    ensures { result ≡ idle_of s p group h }
{
    !acts(s, p, h) || (group && is_query(h))
}
