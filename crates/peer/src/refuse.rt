// What refuses a primitive at one peer: codes, roles, exchanges and states, holds. The order of refusals is the table's.
ghost use Rattle.std.specs.Prelude.{◌≡◌};
ghost use Rattle.peer.specs.Refuse.{code_allowed, conflict_of, held_of, join_conflict, joined_elsewhere, mismatch_of, role_allowed};

use crate::exchange::Exchange;
use crate::query::is_due;
use crate::record::Record;
use crate::settings::{Settings, answers, asks, associates};
use octets::heard::Kind;

// What a station knows of its whole table: the address of the one in State 3 or 4, or 0, which is no peer's; whether any (re)association is under way.
// 0 and no Option: `reassociate_of`, `joined_elsewhere` and `others_of` are about the number.
#[derive(Clone, Copy)]
pub struct Others {
    pub associated: u64,
    pub busy: bool,
}

// The primitives are numbers: any may come in, and what is none is refused here. Arms that give the same stand apart, here and below: joined by `|`, a
// refusal took half as many instructions again.
// Whether there is a primitive of a number, and it allows a code.
#[tactic(auto, unfolding(crate::specs::Refuse::code_allowed))]
pub fn code_allowed(primitive: u8, code: u16) -> bool
    ensures { result ≡ code_allowed primitive code }
{
    match primitive {
        1 => code == 0,
        2 => true,
        3 => code != 0,
        4 => code == 0,
        5 => code == 0,
        6 => code != 0,
        7 => true,
        8 => true,
        9 => code == 0,
        10 => code <= 1,
        11 => code == 0,
        _ => false,
    }
}

// Whether a primitive is for a role.
#[tactic(auto, unfolding(crate::specs::Refuse::role_allowed))]
pub fn role_allowed(primitive: u8, role: u8) -> bool
    ensures { result ≡ role_allowed primitive role }
{
    match primitive {
        1 => asks(role),
        2 => answers(role),
        4 => role == Settings::STATION,
        5 => role == Settings::STATION,
        6 => associates(role),
        7 => role == Settings::AP,
        8 => role == Settings::AP,
        9 => associates(role),
        10 => role == Settings::AP,
        11 => role == Settings::AP,
        _ => true,
    }
}

// Whether an exchange under way is in the way of a (re)association.
#[tactic(auto, unfolding(crate::specs::Refuse::join_conflict))]
fn join_conflict(p: Record, o: Others) -> bool
    ensures { result ≡ join_conflict p o }
{
    p.exchange != Exchange::None || o.busy
}

// Whether an exchange under way is in the way of a primitive: refusal 9.
#[tactic(auto, unfolding(crate::specs::Refuse::conflict_of))]
pub fn conflict(p: Record, o: Others, primitive: u8) -> bool
    ensures { result ≡ conflict_of p o primitive }
{
    match primitive {
        1 => p.exchange != Exchange::None,
        4 => join_conflict(p, o),
        5 => join_conflict(p, o),
        _ => false,
    }
}

// Whether another record than this one is in State 3 or 4.
#[tactic(auto, unfolding(crate::specs::Refuse::joined_elsewhere))]
fn joined_elsewhere(p: Record, o: Others) -> bool
    ensures { result ≡ joined_elsewhere p o }
{
    o.associated != 0 && o.associated != p.address
}

// Whether a primitive finds no matching exchange or state: refusal 7.
#[tactic(auto, unfolding(crate::specs::Refuse::mismatch_of))]
pub fn mismatch(p: Record, o: Others, primitive: u8) -> bool
    ensures { result ≡ mismatch_of p o primitive }
{
    match primitive {
        2 => p.exchange != Exchange::Asked(Kind::Authentication),
        4 => joined_elsewhere(p, o),
        7 => p.exchange != Exchange::Asked(Kind::Association),
        8 => p.exchange != Exchange::Asked(Kind::Reassociation),
        9 => p.state < Record::STATE_3,
        10 => !matches!(p.exchange, Exchange::Awaiting(_)),
        11 => !is_due(p.query),
        _ => false,
    }
}

// Whether the hold on the peer is in the way of a primitive: refusal 8.
#[tactic(auto, unfolding(crate::specs::Refuse::held_of))]
pub fn held(p: Record, primitive: u8) -> bool
    ensures { result ≡ held_of p primitive }
{
    match primitive {
        4 => 0 < p.hold,
        5 => 0 < p.hold,
        _ => false,
    }
}
