// A frame's rules, by what the table has of its peer.
ghost use Rattle.std.specs.Prelude.{◌≡◌, List};
ghost use Rattle.octets.specs.Sort.{class_by};
ghost use Rattle.peer.specs.Authentication.{full_of};
ghost use Rattle.peer.specs.Hear.{hear_of};
ghost use Rattle.peer.specs.Turn.{towards_of};
ghost use Rattle.peer.specs.declared.record.Record.{Record as Peer};
ghost use Rattle.table.specs.Places.{addresses_of, on_found};
ghost use Rattle.table.specs.Receive.{heard_at};
ghost use Rattle.table.specs.Seat.{met_of, turn_in};

use crate::rules::answer::Answer;
use crate::rules::common::quiet;
use crate::rules::lookup::Lookup;
use crate::rules::read::Reading;
use crate::rules::seat::{Change, refused, settled, turn_in};
use octets::heard::Heard;
use octets::sort::Sort;
use peer::authentication::full;
use peer::hear::hear;
use peer::record::Record;
use peer::settings::Settings;
use peer::turn::Turn;

// A frame from an address of a peer that was found at a place, or nowhere, with the lowest free place. A reply goes to that address.
pub(crate) fn heard_from(
    s: Settings,
    free: Option<usize>,
    at: Option<usize>,
    p: Record,
    from: u64,
    group: bool,
    sort: Sort,
    h: Heard,
) -> Change
    ensures { (t : List Peer) → met_of t result ≡ turn_in t at free (towards_of from (hear_of s p (class_by sort) group h)) (towards_of from (full_of s p)) }
{
    turn_in(
        free,
        at,
        hear(s, p, sort, group, h).towards(from),
        full(s, p).towards(from),
    )
}

// The state to show: 0 of a peer that has no record.
fn shown(at: Option<usize>, state: u8) -> u8
    ensures { result ≡ on_found at 0 (λ i. state) }
{
    match at {
        None => 0,
        Some(_) => state,
    }
}

// A frame that was read.
pub(crate) fn heard_at<T: Lookup>(s: Settings, t: T, r: Reading) -> Change
    ensures { T.sound t → met_of (T.records t) result ≡ heard_at s (T.records t) (addresses_of (T.records t)) r }
{
    match r {
        Reading::Refused(n) => refused(n),
        Reading::Discarded => settled(Answer::verdict(Turn::DISCARD)),
        Reading::Admitted => settled(Answer::verdict(Turn::ADMIT)),
        Reading::From {
            peer,
            group,
            sort,
            heard,
        } => {
            let at = t.seek(peer);
            let state = t.state_at(at);
            // Most frames are admitted, and that is all.
            if quiet(s.role, sort, state, heard) {
                return settled(Answer::admitted(shown(at, state)));
            }
            heard_from(
                s,
                t.vacancy(at),
                at,
                t.peer_at(at, peer),
                peer,
                group,
                sort,
                heard,
            )
        }
    }
}
