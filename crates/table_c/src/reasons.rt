// Why an event came to what it did: four calls, as `table::host::reasons` has them.
ghost use Rattle.std.specs.Prelude.{◌≡◌, []};
ghost use Rattle.table.specs.Why.{why_crossed, why_crossed_of};
ghost use Rattle.table.specs.declared.rules.event.Event.TheVariants as event;

use table::host::reasons;

// Of a received frame.
#[unsafe(no_mangle)]
pub extern "C" fn peer_why_receive_octets(
    table: &[u8],
    settings: &[u8],
    frame: &[u8],
    room: u64,
    value: &mut [u8],
) -> u64
    ensures { why_crossed result value.new ≡ why_crossed_of table.now settings.now event.Frame frame.now room value.old }
{
    reasons::peer_why_receive_octets(table, settings, frame, room, value)
}

// Of a primitive from our own side.
#[unsafe(no_mangle)]
pub extern "C" fn peer_why_ask_octets(
    table: &[u8],
    settings: &[u8],
    primitive: u8,
    address: u64,
    code: u16,
    room: u64,
    value: &mut [u8],
) -> u64
    ensures { why_crossed result value.new ≡ why_crossed_of table.now settings.now (event.Ask primitive address code) [] room value.old }
{
    reasons::peer_why_ask_octets(table, settings, primitive, address, code, room, value)
}

// Of links named for a device.
#[unsafe(no_mangle)]
pub extern "C" fn peer_why_links_octets(
    table: &[u8],
    settings: &[u8],
    named: &[u8],
    room: u64,
    value: &mut [u8],
) -> u64
    ensures { why_crossed result value.new ≡ why_crossed_of table.now settings.now event.Links named.now room value.old }
{
    reasons::peer_why_links_octets(table, settings, named, room, value)
}

// Of a clock step.
#[unsafe(no_mangle)]
pub extern "C" fn peer_why_pass_octets(
    table: &[u8],
    settings: &[u8],
    step: u16,
    room: u64,
    value: &mut [u8],
) -> u64
    ensures { why_crossed result value.new ≡ why_crossed_of table.now settings.now (event.Clock step) [] room value.old }
{
    reasons::peer_why_pass_octets(table, settings, step, room, value)
}
