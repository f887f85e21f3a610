// The moves of a state: one function owns them all. And what the distribution system is told of them.
ghost use Rattle.std.specs.Prelude.{◌≡◌};
ghost use Rattle.peer.specs.Moves.{ds_of, moved_of};

use crate::record::Record;
use crate::settings::Settings;

// All moves of a state.
#[derive(Clone, Copy)]
pub enum Move {
    Keep,
    // An authentication succeeded.
    Authenticate,
    // A deauthentication, ours or the peer's.
    Deauthenticate,
    // A disassociation, a rejection, a (re)association timed out, or a move to another AP.
    Drop,
    // A rejection of ours, by the second edition without protection.
    Lower,
    // A (re)association succeeded.
    Join,
    // The keys are in place.
    Secure,
}

// The state after a move.
pub fn moved(rsna: u8, state: u8, m: Move) -> u8
    ensures { result ≡ moved_of rsna state m }
{
    match m {
        Move::Keep => state,
        Move::Authenticate => {
            if state == Record::STATE_1 {
                Record::STATE_2
            } else {
                state
            }
        }
        Move::Deauthenticate => Record::STATE_1,
        Move::Drop => Record::STATE_2,
        Move::Lower => {
            if state == Record::STATE_4 {
                Record::STATE_3
            } else {
                state // States 1 to 3 stay.
            }
        }
        Move::Join => {
            if rsna == 1 {
                Record::STATE_3
            } else {
                Record::STATE_4
            }
        }
        Move::Secure => {
            if state == Record::STATE_3 {
                Record::STATE_4
            } else {
                state
            }
        }
    }
}

// What the distribution system is told: numbers, as `ds` promises one and `Answer` hands it to a host.
pub const DS_NONE: u8 = 0;

pub const DS_JOINED: u8 = 1;

pub const DS_LEFT: u8 = 2;

// What it is told when a state goes from one to another.
#[tactic(auto, unfolding(crate::specs::Moves::ds_of))]
pub fn ds(role: u8, before: u8, after: u8) -> u8
    ensures { result ≡ ds_of role before after }
{
    if role != Settings::AP {
        return DS_NONE;
    }
    match (Record::STATE_3 <= before, Record::STATE_3 <= after) {
        (false, true) => DS_JOINED,
        (true, false) => DS_LEFT,
        _ => DS_NONE,
    }
}
