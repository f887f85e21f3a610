// Authentication, heard by a role that answers it and by one that asked for it.
ghost use Rattle.std.specs.Prelude.{◌≡◌};
ghost use Rattle.peer.specs.Authentication.{answered_move, authentication_answered, authentication_asked, authentication_heard, full_of, requested_of};

use crate::codes::{STATUS_ALGORITHM, STATUS_FULL};
use crate::exchange::Exchange;
use crate::moves::Move;
use crate::record::Record;
use crate::reply::authentication;
use crate::settings::{Settings, answers};
use crate::turn::{Told, Turn, begun, ended, indication, replied, still};
use octets::heard::Kind;

// A request of a kind is asked, in place of any exchange.
#[tactic(auto, unfolding(crate::specs::Authentication::requested_of))]
pub fn requested(s: Settings, p: Record, kind: Kind, current: u64) -> Turn
    ensures { result ≡ requested_of s p kind current }
{
    let told = Told {
        notice: indication(kind),
        code: 0,
        current,
    };
    let q = begun(p, Exchange::Asked(kind), 0);
    Turn::of(s, p, q, Turn::ADMIT, told, None)
}

// The move that the status of an authentication makes.
#[tactic(auto, unfolding(crate::specs::Authentication::answered_move))]
pub fn answered_move(status: u16) -> Move
    ensures { result ≡ answered_move status }
{
    if status == 0 {
        Move::Authenticate
    } else {
        Move::Keep
    }
}

#[tactic(auto, unfolding(crate::specs::Authentication::authentication_asked))]
fn authentication_asked(s: Settings, p: Record, algorithm: u16) -> Turn
    ensures { result ≡ authentication_asked s p algorithm }
{
    if algorithm != 0 {
        return replied(
            s,
            p,
            Turn::ADMIT,
            authentication(s, p.address, algorithm, 2, STATUS_ALGORITHM),
        );
    }
    requested(s, p, Kind::Authentication, 0)
}

// An authentication request that would need a record where no place is free.
#[tactic(auto, unfolding(crate::specs::Authentication::full_of))]
pub fn full(s: Settings, p: Record) -> Turn
    ensures { result ≡ full_of s p }
{
    replied(
        s,
        p,
        Turn::ADMIT,
        authentication(s, p.address, 0, 2, STATUS_FULL),
    )
}

#[tactic(auto, unfolding(crate::specs::Authentication::authentication_answered))]
fn authentication_answered(
    s: Settings,
    p: Record,
    algorithm: u16,
    transaction: u16,
    status: u16,
) -> Turn
    ensures { result ≡ authentication_answered s p algorithm transaction status }
{
    let sent = Exchange::Sent(Kind::Authentication);
    if algorithm != 0 || transaction != 2 || p.exchange != sent {
        return still(s, p, Turn::ADMIT);
    }
    let q = ended(s, p, answered_move(status), p.hold);
    let told = Told::of(Told::AUTHENTICATION_CONFIRM, status);
    Turn::of(s, p, q, Turn::ADMIT, told, None)
}

// Three fields one by one: this is public, and its definition takes them so.
#[tactic(auto, unfolding(crate::specs::Authentication::authentication_heard))]
pub fn authentication_heard(
    s: Settings,
    p: Record,
    algorithm: u16,
    transaction: u16,
    status: u16,
) -> Turn
    ensures { result ≡ authentication_heard s p algorithm transaction status }
{
    if transaction == 1 && answers(s.role) {
        authentication_asked(s, p, algorithm)
    } else {
        authentication_answered(s, p, algorithm, transaction, status)
    }
}
