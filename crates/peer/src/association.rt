// (Re)association: the request heard at an AP, the response heard at a station.
ghost use Rattle.std.specs.Prelude.{◌≡◌};
ghost use Rattle.peer.specs.Association.{accepted_of, comeback_hold, parted_of, rejected_of, request_heard, response_heard};

use crate::authentication::requested;
use crate::challenge::{challenged, is_challenged, passed};
use crate::codes::LAST_AID;
use crate::exchange::Exchange;
use crate::moves::{Move, moved};
use crate::record::Record;
use crate::settings::Settings;
use crate::turn::{Told, Turn, confirm, ended, still};
use octets::heard::Kind;

#[tactic(auto, unfolding(crate::specs::Association::request_heard))]
pub fn request_heard(s: Settings, p: Record, kind: Kind, current: u64) -> Turn
    ensures { result ≡ request_heard s p kind current }
{
    if s.role != Settings::AP {
        return still(s, p, Turn::ADMIT);
    }
    if is_challenged(s, p) {
        return challenged(s, p, kind);
    }
    requested(s, passed(p), kind, current)
}

// The hold that a rejection sets. A comeback of 0 is a hold of 0.
pub fn comeback_hold(c: Option<u32>) -> u32
    ensures { result ≡ comeback_hold c }
{
    c.unwrap_or(Record::HOLD)
}

// A (re)association succeeded, where the AID is one.
#[tactic(auto, unfolding(crate::specs::Association::accepted_of))]
fn accepted(s: Settings, p: Record, kind: Kind, aid: u16) -> Turn
    ensures { result ≡ accepted_of s p kind aid }
{
    if aid == 0 || LAST_AID < aid {
        return still(s, p, Turn::ADMIT);
    }
    let told = Told::of(confirm(kind), 0);
    let q = ended(s, p, Move::Join, p.hold);
    Turn::of(s, p, q, Turn::ADMIT, told, None).solely()
}

// A (re)association was rejected.
#[tactic(auto, unfolding(crate::specs::Association::rejected_of))]
fn rejected(s: Settings, p: Record, kind: Kind, status: u16, c: Option<u32>) -> Turn
    ensures { result ≡ rejected_of s p kind status c }
{
    let notice = confirm(kind);
    let hold = comeback_hold(c);
    let q = ended(s, p, Move::Drop, hold);
    Turn::of(s, p, q, Turn::ADMIT, Told::of(notice, status), None)
}

#[tactic(auto, unfolding(crate::specs::Association::response_heard))]
pub fn response_heard(
    s: Settings,
    p: Record,
    kind: Kind,
    status: u16,
    aid: u16,
    c: Option<u32>,
) -> Turn
    ensures { result ≡ response_heard s p kind status aid c }
{
    if p.exchange != Exchange::Sent(kind) {
        return still(s, p, Turn::ADMIT);
    }
    if status == 0 {
        accepted(s, p, kind, aid)
    } else {
        rejected(s, p, kind, status, c)
    }
}

// Another record when a station has joined here: State 3 or 4 goes to State 2, and the rest stays.
#[tactic(auto, unfolding(crate::specs::Association::parted_of))]
pub fn parted(p: Record) -> Record
    ensures { result ≡ parted_of p }
{
    if p.state < Record::STATE_3 {
        return p;
    }
    let state = moved(0, p.state, Move::Drop);
    p.changed(state, p.exchange, p.left, p.hold)
}
