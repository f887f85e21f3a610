// What an event other than a clock step makes of a table, by the rules alone.
ghost use Rattle.std.specs.Prelude.{◌≡◌, true};
ghost use Rattle.table.specs.Others.{others_of};
ghost use Rattle.table.specs.Ruled.{asking, change_of};
ghost use Rattle.table.specs.Seat.{met_of};

use crate::rules::ask::asked_in;
use crate::rules::event::Event;
use crate::rules::link::named_at;
use crate::rules::lookup::Lookup;
use crate::rules::read::read;
use crate::rules::receive::heard_at;
use crate::rules::seat::{Change, refused};
use peer::refuse::Others;
use peer::settings::{Settings, associates};

// `o` is what a primitive asks of the whole table; the octets of a frame, or of links, are lent beside the event. One change for all: the compiler
// then makes it in one place.
pub(crate) fn change<T: Lookup>(s: Settings, t: T, o: Others, e: Event, octets: &[u8]) -> Change
    ensures { T.sound t → (asking e ≡ true → o ≡ others_of s (T.records t)) → met_of (T.records t) result ≡ change_of s (T.records t) e octets.now }
{
    match e {
        Event::Frame => heard_at(s, t, read(s.own, associates(s.role), octets)),
        Event::Ask {
            primitive,
            address,
            code,
        } => asked_in(s, t, o, primitive, address, code),
        Event::Links => named_at(s, t, octets),
        Event::Clock(_) => refused(0),
    }
}
