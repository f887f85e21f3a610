// The class filter: which frames pass in which state, and what is said to those that do not.
ghost use Rattle.std.specs.Prelude.{◌≡◌};
ghost use Rattle.peer.specs.Filter.{barred_of, filtered_of, passes_of, request_barred};

use crate::codes::{REASON_CLASS_2, REASON_CLASS_3, STATUS_REFUSED};
use crate::record::Record;
use crate::reply::{Reply, deauthentication, disassociation, response};
use crate::settings::{Settings, associates};
use octets::class::FrameClass;
use octets::heard::{Heard, Kind};

// Whether a frame of a class passes in a state.
pub fn passes(role: u8, class: FrameClass, state: u8) -> bool
    ensures { result ≡ passes_of role class state }
{
    match class {
        FrameClass::None => false,
        FrameClass::One => true,
        FrameClass::Two => associates(role) && Record::STATE_2 <= state,
        FrameClass::Three => associates(role) && Record::STATE_3 <= state,
    }
}

// What a frame that its class keeps out is answered.
fn filtered(s: Settings, p: Record, class: FrameClass) -> Reply
    ensures { result ≡ filtered_of s p class }
{
    match class {
        FrameClass::None | FrameClass::One => None,
        FrameClass::Two => deauthentication(s, p.address, REASON_CLASS_2),
        FrameClass::Three => {
            if p.state == Record::STATE_1 {
                deauthentication(s, p.address, REASON_CLASS_3)
            } else {
                disassociation(s, p.address, REASON_CLASS_3)
            }
        }
    }
}

// The exception: an AP answers a (re)association request that is kept out.
#[tactic(auto, unfolding(crate::specs::Filter::request_barred))]
fn request_barred(s: Settings, p: Record, class: FrameClass, kind: Kind) -> Reply
    ensures { result ≡ request_barred s p class kind }
{
    if s.role == Settings::AP {
        response(s, p.address, kind, STATUS_REFUSED, 0)
    } else {
        filtered(s, p, class)
    }
}

// What a frame that is kept out is answered; to a group address, and where nobody associates, nothing.
#[tactic(auto, unfolding(crate::specs::Filter::barred_of))]
pub fn barred(s: Settings, p: Record, class: FrameClass, group: bool, h: Heard) -> Reply
    ensures { result ≡ barred_of s p class group h }
{
    if group || !associates(s.role) {
        return None;
    }
    match h {
        Heard::Request { kind, .. } => request_barred(s, p, class, kind),
        _ => filtered(s, p, class),
    }
}
