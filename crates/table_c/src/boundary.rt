// The four calls and many of them in one, as `table::host::boundary` has them.
ghost use Rattle.std.specs.Prelude.{◌≡◌, []};
ghost use Rattle.table.specs.Boundary.{crossed, crossed_of, settings_in};
ghost use Rattle.table.specs.Run.{ran_of};
ghost use Rattle.table.specs.declared.rules.event.Event.TheVariants as event;

use table::host::boundary;

// A received frame.
#[unsafe(no_mangle)]
pub extern "C" fn peer_receive_octets(
    table: &mut [u8],
    settings: &[u8],
    frame: &[u8],
    out: &mut [u8],
    answer: &mut [u8],
) -> u64
    ensures { crossed result table.new out.new answer.new ≡ crossed_of table.old settings.now event.Frame frame.now out.old answer.old }
{
    boundary::peer_receive_octets(table, settings, frame, out, answer)
}

// A primitive from our own side.
#[unsafe(no_mangle)]
pub extern "C" fn peer_ask_octets(
    table: &mut [u8],
    settings: &[u8],
    primitive: u8,
    address: u64,
    code: u16,
    out: &mut [u8],
    answer: &mut [u8],
) -> u64
    ensures { crossed result table.new out.new answer.new ≡ crossed_of table.old settings.now (event.Ask primitive address code) [] out.old answer.old }
{
    boundary::peer_ask_octets(table, settings, primitive, address, code, out, answer)
}

// The links of a device: its address, their count, and they, six octets each.
#[unsafe(no_mangle)]
pub extern "C" fn peer_links_octets(
    table: &mut [u8],
    settings: &[u8],
    named: &[u8],
    out: &mut [u8],
    answer: &mut [u8],
) -> u64
    ensures { crossed result table.new out.new answer.new ≡ crossed_of table.old settings.now event.Links named.now out.old answer.old }
{
    boundary::peer_links_octets(table, settings, named, out, answer)
}

// A clock step in TU.
#[unsafe(no_mangle)]
pub extern "C" fn peer_pass_octets(
    table: &mut [u8],
    settings: &[u8],
    step: u16,
    out: &mut [u8],
    answer: &mut [u8],
) -> u64
    ensures { crossed result table.new out.new answer.new ≡ crossed_of table.old settings.now (event.Clock step) [] out.old answer.old }
{
    boundary::peer_pass_octets(table, settings, step, out, answer)
}

// Many events: records of a bench input, one behind the other.
#[unsafe(no_mangle)]
pub extern "C" fn peer_run_octets(
    table: &mut [u8],
    settings: &[u8],
    records: &[u8],
    out: &mut [u8],
    answers: &mut [u8],
) -> u64
    ensures { crossed result table.new out.new answers.new ≡ ran_of table.old (settings_in settings.now) records.now out.old answers.old }
{
    boundary::peer_run_octets(table, settings, records, out, answers)
}
