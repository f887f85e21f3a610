// Deauthentication and disassociation, heard at any role.
ghost use Rattle.std.specs.Prelude.{◌≡◌};
ghost use Rattle.peer.specs.Farewell.{deauthentication_heard, disassociation_heard, dropped_hold};

use crate::moves::Move;
use crate::record::Record;
use crate::settings::Settings;
use crate::turn::{Told, Turn, ended, still};

#[tactic(auto, unfolding(crate::specs::Farewell::deauthentication_heard))]
pub fn deauthentication_heard(s: Settings, p: Record, reason: u16) -> Turn
    ensures { result ≡ deauthentication_heard s p reason }
{
    if p.state < Record::STATE_2 {
        return still(s, p, Turn::ADMIT);
    }
    let q = ended(s, p, Move::Deauthenticate, p.hold);
    Turn::of(
        s,
        p,
        q,
        Turn::ADMIT,
        Told::of(Told::DEAUTHENTICATION_INDICATION, reason),
        None,
    )
}

// The hold after a disassociation was received.
#[tactic(auto, unfolding(crate::specs::Farewell::dropped_hold))]
fn dropped_hold(role: u8, hold: u32) -> u32
    ensures { result ≡ dropped_hold role hold }
{
    if role == Settings::STATION {
        Record::HOLD
    } else {
        hold
    }
}

#[tactic(auto, unfolding(crate::specs::Farewell::disassociation_heard))]
pub fn disassociation_heard(s: Settings, p: Record, reason: u16) -> Turn
    ensures { result ≡ disassociation_heard s p reason }
{
    if p.state < Record::STATE_3 {
        return still(s, p, Turn::ADMIT);
    }
    let hold = dropped_hold(s.role, p.hold);
    let q = ended(s, p, Move::Drop, hold);
    Turn::of(
        s,
        p,
        q,
        Turn::ADMIT,
        Told::of(Told::DISASSOCIATION_INDICATION, reason),
        None,
    )
}
