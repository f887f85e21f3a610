// One event played on thirty-two records by value, by the rules alone: settings and table are not checked.
ghost use Rattle.std.specs.Prelude.{◌≡◌, true, length};
ghost use Rattle.table.specs.Others.{others_of};
ghost use Rattle.table.specs.Places.{addresses_of};
ghost use Rattle.table.specs.Ruled.{asking, change_of, ruled_in, ruled_of};
ghost use Rattle.table.specs.Seat.{met_of};

use crate::records::held::Held;
use crate::records::pass::ticked;
use crate::records::seat::{finish, met};
use crate::rules::answer::{Answer, Stepped};
use crate::rules::event::{Event, room, step_in, ticks};
use crate::rules::others::{Counts, counted, first_joined, nobody, others};
use crate::rules::play::change;
use crate::rules::seat::Change;
use peer::record::Record;
use peer::refuse::Others;
use peer::settings::{Settings, answers};

// The address at each place.
// One by one: by `map` of the array a survey took 3,860 instructions more.
pub(crate) fn addresses_of(t: [Record; 32]) -> [u64; 32]
    ensures { result ≡ addresses_of t }
{
    let mut addresses = [0u64; 32];
    for i in (0..32).rev() {
        addresses[i] = t[i].address;
    }
    addresses
}

// What a station's primitives ask of the whole table; no other role looks at it.
fn others_of(s: Settings, t: [Record; 32]) -> Others
    ensures { result ≡ others_of s t }
{
    if answers(s.role) {
        return nobody();
    }
    let mut associated = 0;
    let mut joined = 0;
    let mut associating = 0;
    for i in (0..32).rev() {
        let p = t[i];
        let on = p.is_joined();
        associated = first_joined(on, p.address, associated);
        joined = counted(joined, on);
        associating = counted(associating, p.is_associating());
    }
    let crowd = Counts {
        joined,
        associating,
    };
    others(s, associated, crowd)
}

// The same for an event: only a primitive asks it.
fn others_for(s: Settings, t: [Record; 32], e: Event) -> Others
    ensures { asking e ≡ true → result ≡ others_of s t }
{
    match e {
        Event::Ask { .. } => others_of(s, t),
        _ => nobody(),
    }
}

// What an event other than a clock step makes of the table.
fn changed(s: Settings, t: [Record; 32], e: Event, frame: &[u8]) -> Change
    ensures { met_of t result ≡ change_of s t e frame.now }
{
    let addresses = addresses_of(t);
    let held = Held {
        table: &t,
        addresses: &addresses,
    };
    change(s, held, others_for(s, t, e), e, frame)
}

// An event: the table after it, the answer, and what it writes into the buffer. The octets of a frame, or of links, are lent beside it.
pub fn play(s: Settings, t: [Record; 32], e: Event, frame: &[u8], out: &mut [u8]) -> Stepped
    ensures { (result ≡ ruled_of s t e frame.now (length out.old)) × (out.new ≡ ruled_in s t e frame.now out.old) }
{
    if out.len() < room(e) {
        return Stepped {
            table: t,
            answer: Answer::refusal(1),
        };
    }
    if ticks(e) {
        return ticked(s, t, step_in(e), out);
    }
    let c = changed(s, t, e, frame);
    finish(met(t, c), out)
}
