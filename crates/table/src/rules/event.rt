// An event, as it is handed to the table: what its call needs of the buffer, and whether it is a clock step.
ghost use Rattle.std.specs.Prelude.{◌≡◌};
ghost use Rattle.table.specs.Lent.{room_of};
ghost use Rattle.table.specs.Ruled.{ticking, tu_of};

use octets::frame::Frame;

// The octets stand beside an event and a primitive may be any number (S16): `step_of`, `host_answer` and `why_at` take them so.
#[derive(Clone, Copy)]
pub enum Event {
    // A frame, whose octets are lent beside the event.
    Frame,
    Ask {
        primitive: u8,
        address: u64,
        code: u16,
    },
    // The links of a device, primitive 12: its address, their count, and they, in octets lent beside the event.
    Links,
    // A clock step in TU.
    Clock(u16),
}

// The least output buffer of an event.
pub(crate) fn room(e: Event) -> usize
    ensures { result ≡ room_of e }
{
    match e {
        Event::Clock(_) => 256,
        _ => Frame::LONGEST,
    }
}

// Whether an event is a clock step, and of how many TU.
pub(crate) fn ticks(e: Event) -> bool
    ensures { result ≡ ticking e }
{
    matches!(e, Event::Clock(_))
}

pub(crate) fn step_in(e: Event) -> u16
    ensures { result ≡ tu_of e }
{
    match e {
        Event::Clock(d) => d,
        _ => 0,
    }
}
