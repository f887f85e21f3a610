// The program's table: 1,536 octets, as a host lends them. One event, played on them in place, and why; and their records.
ghost use Rattle.std.specs.Prelude.{◌≡◌, get_or, length, ◌≤◌};
ghost use Rattle.peer.specs.Record.{free_of};
ghost use Rattle.peer.specs.Settings.{settings_fit};
ghost use Rattle.table.specs.Host.{host_answer, host_table, host_in};
ghost use Rattle.table.specs.Lent.{room_of};
ghost use Rattle.table.specs.Rows.{records_of};
ghost use Rattle.table.specs.Run.{Sound};
ghost use Rattle.table.specs.Why.{host_why};
ghost use Rattle.bench.specs.Play.{zeros};

use peer::record::Record;
use peer::settings::Settings;
use std::array;
use table::host::rows::look;
use table::host::run::{known_call, trusted};
use table::host::why::known_why;
use table::rules::answer::Answer;
use table::rules::event::Event;
use table::rules::why::Why;

// One event, without a check: the octets are a table that is well formed if the settings fit, and `fit` says whether they do.
pub(crate) fn play_on_in(
    table: &mut [u8],
    s: Settings,
    fit: bool,
    e: Event,
    frame: &[u8],
    out: &mut [u8],
) -> Answer
    ensures { fit ≡ settings_fit s → Sound s table.old → room_of e ≤ length out.old → (result ≡ host_answer table.old s e frame.now out.old) × (table.new ≡ host_table table.old s e frame.now out.old) × (out.new ≡ host_in table.old s e frame.now out.old) }
{
    let k = trusted(fit, &*table);
    known_call(table, s, k, e, frame, out)
}

// The same with a scratch of 256 zero octets.
pub fn play_on(table: &mut [u8], s: Settings, fit: bool, e: Event, frame: &[u8]) -> Answer
    ensures { fit ≡ settings_fit s → Sound s table.old → (result ≡ host_answer table.old s e frame.now zeros) × (table.new ≡ host_table table.old s e frame.now zeros) }
{
    let mut scratch = [0u8; 256];
    play_on_in(table, s, fit, e, frame, &mut scratch)
}

// Why it comes to what it does, in the same way.
pub(crate) fn why_on(table: &[u8], s: Settings, fit: bool, e: Event, frame: &[u8]) -> Why
    ensures { fit ≡ settings_fit s → Sound s table.now → result ≡ host_why table.now s e frame.now 256 }
{
    let k = trusted(fit, table);
    known_why(table, s, k, e, frame)
}

// The records of a table.
pub fn records_in(table: &[u8]) -> [Record; 32]
    ensures { result ≡ records_of table.now }
{
    array::from_fn(
        |i: usize| -> Record
            ensures { result ≡ get_or (records_of table.entry.now) i free_of }
        { look(table, i) },
    )
}

// A table's own octets, as an array.
pub(crate) fn octets_in(table: &[u8]) -> [u8; 1536]
    ensures { length table.now ≡ 1536 → result ≡ table.now }
{
    let mut t = [0u8; 1536];
    if table.len() == 1536 {
        t.copy_from_slice(table);
    }
    t
}
