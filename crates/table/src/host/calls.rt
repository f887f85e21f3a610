// The calls over a table of 1536 octets, as a host lends it; settings and answer by value.
ghost use Rattle.std.specs.Prelude.{◌≡◌, []};
ghost use Rattle.table.specs.Host.{host_answer, host_table, host_in};
ghost use Rattle.table.specs.declared.rules.event.Event.TheVariants as event;

use crate::host::play::play;
use crate::host::survey::survey;
use crate::rules::answer::Answer;
use crate::rules::event::{Event, room};
use peer::settings::Settings;

// An event, with every refusal: what the single calls are. Settings and table are checked, then it is played.
pub fn call(table: &mut [u8], s: Settings, e: Event, octets: &[u8], out: &mut [u8]) -> Answer
    ensures { (result ≡ host_answer table.old s e octets.now out.old) × (table.new ≡ host_table table.old s e octets.now out.old) × (out.new ≡ host_in table.old s e octets.now out.old) }
{
    if out.len() < room(e) {
        return Answer::refusal(1);
    }
    if table.len() != 1536 {
        return Answer::refusal(2);
    }
    let v = survey(s, &*table);
    if !v.well {
        return Answer::refusal(2);
    }
    play(table, s, v.linked, v.others, e, octets, out)
}

// A received frame.
pub fn receive(table: &mut [u8], s: Settings, frame: &[u8], out: &mut [u8]) -> Answer
    ensures { (result ≡ host_answer table.old s event.Frame frame.now out.old) × (table.new ≡ host_table table.old s event.Frame frame.now out.old) × (out.new ≡ host_in table.old s event.Frame frame.now out.old) }
{
    call(table, s, Event::Frame, frame, out)
}

// A primitive from our own side.
pub fn ask(
    table: &mut [u8],
    s: Settings,
    primitive: u8,
    address: u64,
    code: u16,
    out: &mut [u8],
) -> Answer
    ensures { (result ≡ host_answer table.old s (event.Ask primitive address code) [] out.old) × (table.new ≡ host_table table.old s (event.Ask primitive address code) [] out.old) × (out.new ≡ host_in table.old s (event.Ask primitive address code) [] out.old) }
{
    let e = Event::Ask {
        primitive,
        address,
        code,
    };
    call(table, s, e, b"", out)
}

// A clock step in TU.
pub fn pass(table: &mut [u8], s: Settings, step: u16, out: &mut [u8]) -> Answer
    ensures { (result ≡ host_answer table.old s (event.Clock step) [] out.old) × (table.new ≡ host_table table.old s (event.Clock step) [] out.old) × (out.new ≡ host_in table.old s (event.Clock step) [] out.old) }
{
    call(table, s, Event::Clock(step), b"", out)
}
