// Why an event came to what it did, over a table of 1536 octets as a host lends it. Nothing is changed.
ghost use Rattle.std.specs.Prelude.{◌≡◌, ℕ, ◌≤◌};
ghost use Rattle.table.specs.Lent.{room_of};
ghost use Rattle.table.specs.Run.{Knows};
ghost use Rattle.table.specs.Why.{host_why};

use crate::host::others::others_for;
use crate::host::run::{Known, checked};
use crate::host::seek::Lent;
use crate::rules::event::{Event, room};
use crate::rules::why::{Reason, Why, why_at};
use peer::settings::Settings;

// Why an event comes to what it does, by what is known of settings and table, with room in the buffer.
pub fn known_why(table: &[u8], s: Settings, k: Known, e: Event, frame: &[u8]) -> Why
    ensures { (n : ℕ) → Knows s table.now k.well k.linked → room_of e ≤ n → result ≡ host_why table.now s e frame.now n }
{
    if !k.well {
        return Why::plain(Reason::Refusal(2));
    }
    if table.len() != 1536 {
        return Why::plain(Reason::Refusal(2));
    }
    let o = others_for(s, table, e);
    let lent = Lent {
        octets: table,
        linked: k.linked,
    };
    why_at(s, lent, o, e, frame)
}

// The same of an event that is lent a buffer of `lent` octets; settings and table are checked.
pub fn why(table: &[u8], s: Settings, e: Event, frame: &[u8], lent: usize) -> Why
    ensures { result ≡ host_why table.now s e frame.now lent }
{
    if lent < room(e) {
        return Why::plain(Reason::Refusal(1));
    }
    let k = checked(s, table);
    known_why(table, s, k, e, frame)
}
