// What a clock step does at one record: the times fall, an exchange may end, and the place may be free again.
ghost use Rattle.std.specs.Prelude.{◌≡◌, ◌-◌};
ghost use Rattle.peer.specs.Tick.{expired_move, freed_of, queried_timed, reported_of, tick_of, timed_of};

use crate::exchange::{AUTHENTICATION, Exchange, under_way};
use crate::moves::Move;
use crate::query::{query_report, query_timed};
use crate::record::Record;
use crate::settings::Settings;
use crate::turn::ended;

// A record after a clock step, and the kind of its report, or 0: the exchange that timed out, or what the step makes of a query. A number, as the
// definitions have it and a report's octet.
#[derive(Clone, Copy)]
pub struct Ticked {
    pub peer: Record,
    pub report: u8,
}

// A hold less a step, and not below 0.
fn lowered_hold(n: u32, d: u16) -> u32
    ensures { result ≡ n - d }
{
    n.saturating_sub(d as u32)
}

// The move that a timeout of a kind makes.
// By the kind's number, as `expired_move` of `specs/Tick.antt` is.
#[tactic(auto, unfolding(crate::specs::Tick::expired_move))]
fn expired_move(kind: u8) -> Move
    ensures { result ≡ expired_move kind }
{
    if kind == AUTHENTICATION {
        Move::Keep
    } else {
        Move::Drop
    }
}

// The times fall, and an exchange whose time falls to 0 from above ends.
#[tactic(auto, unfolding(crate::specs::Tick::timed_of))]
fn timed(s: Settings, p: Record, d: u16) -> Ticked
    ensures { result ≡ timed_of s p d }
{
    let hold = lowered_hold(p.hold, d);
    if p.left == 0 || d < p.left {
        return Ticked {
            peer: p.changed(p.state, p.exchange, p.left.saturating_sub(d), hold),
            report: 0,
        };
    }
    let kind = under_way(p.exchange);
    Ticked {
        peer: ended(s, p, expired_move(kind), hold),
        report: kind,
    }
}

// A record in State 1 with no exchange, no hold and no links is freed.
#[tactic(auto, unfolding(crate::specs::Tick::freed_of))]
fn freed(p: Record) -> Record
    ensures { result ≡ freed_of p }
{
    if p.state == Record::STATE_1
        && p.hold == 0
        && p.exchange == Exchange::None
        && p.links.is_none()
    {
        Record::free()
    } else {
        p
    }
}

// What is left of a query falls too.
#[tactic(auto, unfolding(crate::specs::Tick::queried_timed))]
fn queried_timed(s: Settings, p: Record, d: u16) -> Record
    ensures { result ≡ queried_timed s p d }
{
    p.queried(query_timed(s, p.query, d), p.identifier)
}

// One report a record: an exchange's, or a query's.
#[tactic(auto, unfolding(crate::specs::Tick::reported_of))]
fn reported(s: Settings, t: Ticked, d: u16) -> u8
    ensures { result ≡ reported_of s t d }
{
    if t.report == 0 {
        query_report(s, t.peer.query, d)
    } else {
        t.report
    }
}

// A clock step of d TU at one record.
#[tactic(auto, unfolding(crate::specs::Tick::tick_of))]
pub fn tick(s: Settings, p: Record, d: u16) -> Ticked
    ensures { result ≡ tick_of s p d }
{
    let t = timed(s, p, d);
    Ticked {
        peer: freed(queried_timed(s, t.peer, d)),
        report: reported(s, t, d),
    }
}
