// One event over records by value: a frame, a primitive, a device's links or a clock step.
ghost use Rattle.std.specs.Prelude.{◌≡◌, length};
ghost use Rattle.table.specs.Step.{step_of, step_in};

use crate::records::ask::ask;
use crate::records::link::link;
use crate::records::pass::pass;
use crate::records::receive::receive;
use crate::rules::answer::Stepped;
use crate::rules::event::Event;
use peer::record::Record;
use peer::settings::Settings;

// An event: the table after it, the answer, and what it writes into the buffer.
pub fn step(s: Settings, t: [Record; 32], e: Event, frame: &[u8], out: &mut [u8]) -> Stepped
    ensures { (result ≡ step_of s t e frame.now (length out.old)) × (out.new ≡ step_in s t e frame.now out.old) }
{
    match e {
        Event::Frame => receive(s, t, frame, out),
        Event::Ask {
            primitive,
            address,
            code,
        } => ask(s, t, primitive, address, code, out),
        Event::Links => link(s, t, frame, out),
        Event::Clock(d) => pass(s, t, d, out),
    }
}
