// What a primitive from our own side does at one peer, where nothing refuses it.
ghost use Rattle.std.specs.Prelude.{◌≡◌};
ghost use Rattle.peer.specs.Ask.{answer_of, ask_of, associate_of, awaited_of, deauthenticate_of, declined_move, declined_of, disassociate_of, failed_of, reassociate_of, report_of, reported_move, respond_of, secure_of, started_of, timeout_of};

use crate::authentication::answered_move;
use crate::challenge::inquired;
use crate::codes::STATUS_REFUSED;
use crate::exchange::Exchange;
use crate::moves::{Move, moved};
use crate::record::Record;
use crate::refuse::Others;
use crate::reply::{authentication, deauthentication, disassociation, request, response};
use crate::settings::Settings;
use crate::turn::{Told, Turn, begun, confirm, ended};
use octets::heard::Kind;

// The timeout of an exchange of a kind.
fn timeout(s: Settings, k: Kind) -> u16
    ensures { result ≡ timeout_of s k }
{
    match k {
        Kind::Authentication => s.authentication,
        Kind::Association => s.association,
        Kind::Reassociation => s.association,
    }
}

// A request is sent, and its exchange starts at its timeout.
#[tactic(auto, unfolding(crate::specs::Ask::started_of))]
fn started(s: Settings, p: Record, k: Kind, current: u64) -> Turn
    ensures { result ≡ started_of s p k current }
{
    let q = begun(p, Exchange::Sent(k), timeout(s, k));
    let reply = request(s, p.address, k, current);
    Turn::of(s, p, q, Turn::NONE, Told::nothing(), reply)
}

// 2, AUTHENTICATE.response.
#[tactic(auto, unfolding(crate::specs::Ask::answer_of))]
fn answer(s: Settings, p: Record, status: u16) -> Turn
    ensures { result ≡ answer_of s p status }
{
    let q = ended(s, p, answered_move(status), p.hold);
    let reply = authentication(s, p.address, 0, 2, status);
    Turn::of(s, p, q, Turn::NONE, Told::nothing(), reply)
}

// 3, DEAUTHENTICATE.request. Two turns, as one of a reply chosen before took 6 % more instructions of a primitive.
#[tactic(auto, unfolding(crate::specs::Ask::deauthenticate_of))]
fn deauthenticate(s: Settings, p: Record, reason: u16) -> Turn
    ensures { result ≡ deauthenticate_of s p reason }
{
    let q = ended(s, p, Move::Deauthenticate, p.hold);
    let told = Told::of(Told::DEAUTHENTICATION_CONFIRM, reason);
    if p.state < Record::STATE_2 {
        return Turn::of(s, p, q, Turn::NONE, told, None);
    }
    Turn::of(
        s,
        p,
        q,
        Turn::NONE,
        told,
        deauthentication(s, p.address, reason),
    )
}

// A (re)association that can't be asked: confirm with status 1.
#[tactic(auto, unfolding(crate::specs::Ask::failed_of))]
fn failed(s: Settings, p: Record, k: Kind) -> Turn
    ensures { result ≡ failed_of s p k }
{
    Turn::of(
        s,
        p,
        p,
        Turn::NONE,
        Told::of(confirm(k), STATUS_REFUSED),
        None,
    )
}

// 4, ASSOCIATE.request.
#[tactic(auto, unfolding(crate::specs::Ask::associate_of))]
fn associate(s: Settings, p: Record) -> Turn
    ensures { result ≡ associate_of s p }
{
    if p.state == Record::STATE_1 {
        failed(s, p, Kind::Association)
    } else {
        started(s, p, Kind::Association, 0)
    }
}

// 5, REASSOCIATE.request.
#[tactic(auto, unfolding(crate::specs::Ask::reassociate_of))]
fn reassociate(s: Settings, p: Record, o: Others) -> Turn
    ensures { result ≡ reassociate_of s p o }
{
    if o.associated == 0 || p.state == Record::STATE_1 {
        failed(s, p, Kind::Reassociation)
    } else {
        started(s, p, Kind::Reassociation, o.associated)
    }
}

// 6, DISASSOCIATE.request.
#[tactic(auto, unfolding(crate::specs::Ask::disassociate_of))]
fn disassociate(s: Settings, p: Record, reason: u16) -> Turn
    ensures { result ≡ disassociate_of s p reason }
{
    let told = Told::of(Told::DISASSOCIATION_CONFIRM, reason);
    if p.state < Record::STATE_3 {
        return Turn::of(s, p, p, Turn::NONE, told, None);
    }
    let q = ended(s, p, Move::Drop, p.hold);
    Turn::of(
        s,
        p,
        q,
        Turn::NONE,
        told,
        disassociation(s, p.address, reason),
    )
}

// 7 and 8, success: the response is sent, and awaits its acknowledgement.
#[tactic(auto, unfolding(crate::specs::Ask::awaited_of))]
fn awaited(s: Settings, p: Record, k: Kind, aid: u16) -> Turn
    ensures { result ≡ awaited_of s p k aid }
{
    let q = begun(p, Exchange::Awaiting(k), 0);
    Turn::of(
        s,
        p,
        q,
        Turn::NONE,
        Told::nothing(),
        response(s, p.address, k, 0, aid),
    )
}

// Where a rejection of ours leads: the editions' two rules.
#[tactic(auto, unfolding(crate::specs::Ask::declined_move))]
fn declined_move(s: Settings) -> Move
    ensures { result ≡ declined_move s }
{
    if s.edition == 1 {
        return Move::Drop;
    }
    if s.protection == 1 {
        return Move::Keep;
    }
    Move::Lower
}

// 7 and 8, another status.
#[tactic(auto, unfolding(crate::specs::Ask::declined_of))]
fn declined(s: Settings, p: Record, k: Kind, status: u16) -> Turn
    ensures { result ≡ declined_of s p k status }
{
    let q = ended(s, p, declined_move(s), p.hold);
    Turn::of(
        s,
        p,
        q,
        Turn::NONE,
        Told::nothing(),
        response(s, p.address, k, status, 0),
    )
}

// 7, ASSOCIATE.response, and 8, REASSOCIATE.response.
#[tactic(auto, unfolding(crate::specs::Ask::respond_of))]
fn respond(s: Settings, aid: u16, p: Record, k: Kind, status: u16) -> Turn
    ensures { result ≡ respond_of s aid p k status }
{
    if status == 0 {
        awaited(s, p, k, aid)
    } else {
        declined(s, p, k, status)
    }
}

// 9, SETPROTECTION.
#[tactic(auto, unfolding(crate::specs::Ask::secure_of))]
fn secure(s: Settings, p: Record) -> Turn
    ensures { result ≡ secure_of s p }
{
    let state = moved(s.rsna, p.state, Move::Secure);
    let q = p.changed(state, p.exchange, p.left, p.hold);
    Turn::of(s, p, q, Turn::NONE, Told::nothing(), None)
}

#[tactic(auto, unfolding(crate::specs::Ask::reported_move))]
fn reported_move(code: u16) -> Move
    ensures { result ≡ reported_move code }
{
    if code == 1 { Move::Join } else { Move::Keep }
}

// 10, the transmit report: whether the response was acknowledged.
#[tactic(auto, unfolding(crate::specs::Ask::report_of))]
fn report(s: Settings, p: Record, code: u16) -> Turn
    ensures { result ≡ report_of s p code }
{
    let q = ended(s, p, reported_move(code), p.hold);
    Turn::of(s, p, q, Turn::NONE, Told::nothing(), None)
}

// What a primitive that nothing refuses makes of a peer. `aid` is the AID that the peer would be given.
// By the primitive's number, as `ask_of` is: the function promises for any.
#[tactic(auto, unfolding(crate::specs::Ask::ask_of))]
pub fn ask(s: Settings, aid: u16, p: Record, o: Others, primitive: u8, code: u16) -> Turn
    ensures { result ≡ ask_of s aid p o primitive code }
{
    match primitive {
        1 => started(s, p, Kind::Authentication, 0),
        2 => answer(s, p, code),
        3 => deauthenticate(s, p, code),
        4 => associate(s, p),
        5 => reassociate(s, p, o),
        6 => disassociate(s, p, code),
        7 => respond(s, aid, p, Kind::Association, code),
        8 => respond(s, aid, p, Kind::Reassociation, code),
        9 => secure(s, p),
        10 => report(s, p, code),
        // 11: another number was refused before.
        _ => inquired(s, p),
    }
}
