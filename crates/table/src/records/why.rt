// Why an event came to what it did, over records by value. Nothing is changed.
ghost use Rattle.std.specs.Prelude.{◌≡◌};
ghost use Rattle.table.specs.Why.{why_of};

use crate::records::fit::{survey, well};
use crate::records::held::Held;
use crate::rules::event::{Event, room};
use crate::rules::others::others;
use crate::rules::why::{Reason, Why, why_at};
use peer::record::Record;
use peer::settings::Settings;

// Why an event, lent a buffer of `lent` octets, comes to what it does.
pub fn why(s: Settings, t: [Record; 32], e: Event, frame: &[u8], lent: usize) -> Why
    ensures { result ≡ why_of s t e frame.now lent }
{
    if lent < room(e) {
        return Why::plain(Reason::Refusal(1));
    }
    let v = survey(s, t);
    let addresses = v.addresses;
    if !well(s, t, v.fit, v.crowd, &addresses) {
        return Why::plain(Reason::Refusal(2));
    }
    let o = others(s, v.associated, v.crowd);
    let held = Held {
        table: &t,
        addresses: &addresses,
    };
    why_at(s, held, o, e, frame)
}
