// What one event makes of one peer, as a value: the record after it, what is told, and what is said.
ghost use Rattle.std.specs.Prelude.{◌≡◌};
ghost use Rattle.peer.specs.Turn.{begun_of, confirm_of, ended_of, indication_of, linking_of, nothing_told, replied_of, sole_of, still_of, told_of, towards_of, turn_of};

use crate::exchange::Exchange;
use crate::moves::{Move, ds, moved};
use crate::record::Record;
use crate::reply::{Reply, directed};
use crate::settings::Settings;
use octets::heard::Kind;
use octets::links::Links;

// The notice that a request of a kind was heard.
pub fn indication(k: Kind) -> u8
    ensures { result ≡ indication_of k }
{
    match k {
        Kind::Authentication => Told::AUTHENTICATION_INDICATION,
        Kind::Association => Told::ASSOCIATION_INDICATION,
        Kind::Reassociation => Told::REASSOCIATION_INDICATION,
    }
}

// The notice that an exchange of a kind came to its end.
pub fn confirm(k: Kind) -> u8
    ensures { result ≡ confirm_of k }
{
    match k {
        Kind::Authentication => Told::AUTHENTICATION_CONFIRM,
        Kind::Association => Told::ASSOCIATION_CONFIRM,
        Kind::Reassociation => Told::REASSOCIATION_CONFIRM,
    }
}

// What our own side is told: a notice with its code, and the current AP of a reassociation's indication.
// Notice 0 is none: `nothing_told` is all 0, and `Answer` hands all three to C.
#[derive(Clone, Copy)]
pub struct Told {
    pub notice: u8,
    pub code: u16,
    pub current: u64,
}

impl Told {
    // The notices are numbers: `Told::of` takes any, and `Answer` hands them to a host.
    pub const AUTHENTICATION_INDICATION: u8 = 1;

    pub const AUTHENTICATION_CONFIRM: u8 = 2;

    pub const DEAUTHENTICATION_INDICATION: u8 = 3;

    pub const DEAUTHENTICATION_CONFIRM: u8 = 4;

    pub const ASSOCIATION_INDICATION: u8 = 5;

    pub const ASSOCIATION_CONFIRM: u8 = 6;

    pub const REASSOCIATION_INDICATION: u8 = 7;

    pub const REASSOCIATION_CONFIRM: u8 = 8;

    pub const DISASSOCIATION_INDICATION: u8 = 9;

    pub const DISASSOCIATION_CONFIRM: u8 = 10;

    pub fn nothing() -> Told
        ensures { result ≡ nothing_told }
    {
        Told {
            notice: 0,
            code: 0,
            current: 0,
        }
    }

    pub fn of(notice: u8, code: u16) -> Told
        ensures { result ≡ told_of notice code }
    {
        Told {
            notice,
            code,
            current: 0,
        }
    }
}

// What one event makes of one peer.
#[derive(Clone, Copy)]
pub struct Turn {
    pub peer: Record,
    pub told: Told,
    pub verdict: u8,
    pub ds: u8,
    // Any other record in State 3 or 4 goes to State 2.
    pub sole: bool,
    pub reply: Reply,
}

impl Turn {
    // Verdicts: numbers, as `Turn::of`, `replied` and `still` take any, and `Answer` hands them to a host.
    pub const NONE: u8 = 0;

    pub const ADMIT: u8 = 1;

    pub const DISCARD: u8 = 2;

    // A record goes from `before` to `after`.
    #[tactic(auto, unfolding(crate::specs::Turn::turn_of))]
    pub fn of(
        s: Settings,
        before: Record,
        after: Record,
        verdict: u8,
        told: Told,
        reply: Reply,
    ) -> Turn
        ensures { result ≡ turn_of s before after verdict told reply }
    {
        Turn {
            peer: after,
            told,
            verdict,
            ds: ds(s.role, before.state, after.state),
            sole: false,
            reply,
        }
    }

    // The same, and no other record stays in State 3 or 4.
    #[tactic(auto, unfolding(crate::specs::Turn::sole_of))]
    pub fn solely(self) -> Turn
        ensures { result ≡ sole_of self }
    {
        Turn { sole: true, ..self }
    }

    // The same, with what is said sent to an address of the peer.
    #[tactic(auto, unfolding(crate::specs::Turn::towards_of))]
    pub fn towards(self, address: u64) -> Turn
        ensures { result ≡ towards_of address self }
    {
        Turn {
            reply: directed(self.reply, address),
            ..self
        }
    }
}

// The record after a move that ends the exchange, with a hold.
#[tactic(auto, unfolding(crate::specs::Turn::ended_of))]
pub fn ended(s: Settings, p: Record, m: Move, hold: u32) -> Record
    ensures { result ≡ ended_of s p m hold }
{
    let state = moved(s.rsna, p.state, m);
    p.changed(state, Exchange::None, 0, hold)
}

// The record with an exchange begun, in place of any other; its state and its hold stay.
#[tactic(auto, unfolding(crate::specs::Turn::begun_of))]
pub fn begun(p: Record, e: Exchange, left: u16) -> Record
    ensures { result ≡ begun_of p e left }
{
    p.changed(p.state, e, left, p.hold)
}

// The record stays; what is said is a reply.
#[tactic(auto, unfolding(crate::specs::Turn::replied_of))]
pub fn replied(s: Settings, p: Record, verdict: u8, reply: Reply) -> Turn
    ensures { result ≡ replied_of s p verdict reply }
{
    Turn::of(s, p, p, verdict, Told::nothing(), reply)
}

// Nothing happens.
#[tactic(auto, unfolding(crate::specs::Turn::still_of))]
pub fn still(s: Settings, p: Record, verdict: u8) -> Turn
    ensures { result ≡ still_of s p verdict }
{
    replied(s, p, verdict, None)
}

// A device's links are named: all else stays.
#[tactic(auto, unfolding(crate::specs::Turn::linking_of))]
pub fn linking(s: Settings, p: Record, links: Links) -> Turn
    ensures { result ≡ linking_of s p links }
{
    Turn::of(s, p, p.linked(links), Turn::NONE, Told::nothing(), None)
}
