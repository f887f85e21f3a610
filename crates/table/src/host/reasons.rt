// The boundary to C, why an event came to what it did: four calls with numbers and slices alone, as in boundary.rt. Crate `table_c` exports them, and
// `include/peer_table.h` declares them.
// `room` is the length of the buffer that the event would be lent. The result is the reason's number; its value goes to the first eight octets of
// `value`, where there are so many. Nothing else is written.
ghost use Rattle.std.specs.Prelude.{◌≡◌, []};
ghost use Rattle.octets.specs.Answer.{value_written};
ghost use Rattle.table.specs.Why.{reason_number, why_crossed, why_crossed_of};
ghost use Rattle.table.specs.declared.rules.event.Event.TheVariants as event;

use crate::host::settings::settings_in;
use crate::host::why::why;
use crate::rules::event::Event;
use crate::rules::why::{Why, reason_number};
use octets::answer::write_value;

// Writes the value into the octets lent for it, and gives the reason's number.
fn explained(w: Why, value: &mut [u8]) -> u64
    ensures { (result ≡ reason_number w.reason) × (value.new ≡ value_written value.old w.value) }
{
    let reason = w.reason;
    write_value(value, w.value);
    reason_number(reason) as u64
}

// Of a received frame.
pub fn peer_why_receive_octets(
    table: &[u8],
    settings: &[u8],
    frame: &[u8],
    room: u64,
    value: &mut [u8],
) -> u64
    ensures { why_crossed result value.new ≡ why_crossed_of table.now settings.now event.Frame frame.now room value.old }
{
    let w = why(
        table,
        settings_in(settings),
        Event::Frame,
        frame,
        room as usize,
    );
    explained(w, value)
}

// Of a primitive from our own side.
pub fn peer_why_ask_octets(
    table: &[u8],
    settings: &[u8],
    primitive: u8,
    address: u64,
    code: u16,
    room: u64,
    value: &mut [u8],
) -> u64
    ensures { why_crossed result value.new ≡ why_crossed_of table.now settings.now (event.Ask primitive address code) [] room value.old }
{
    let e = Event::Ask {
        primitive,
        address,
        code,
    };
    let w = why(table, settings_in(settings), e, b"", room as usize);
    explained(w, value)
}

// Of links named for a device.
pub fn peer_why_links_octets(
    table: &[u8],
    settings: &[u8],
    named: &[u8],
    room: u64,
    value: &mut [u8],
) -> u64
    ensures { why_crossed result value.new ≡ why_crossed_of table.now settings.now event.Links named.now room value.old }
{
    let w = why(
        table,
        settings_in(settings),
        Event::Links,
        named,
        room as usize,
    );
    explained(w, value)
}

// Of a clock step.
pub fn peer_why_pass_octets(
    table: &[u8],
    settings: &[u8],
    step: u16,
    room: u64,
    value: &mut [u8],
) -> u64
    ensures { why_crossed result value.new ≡ why_crossed_of table.now settings.now (event.Clock step) [] room value.old }
{
    let w = why(
        table,
        settings_in(settings),
        Event::Clock(step),
        b"",
        room as usize,
    );
    explained(w, value)
}
