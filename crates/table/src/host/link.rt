// The links of a device named, over a table of 1536 octets as a host lends it.
ghost use Rattle.std.specs.Prelude.{◌≡◌};
ghost use Rattle.table.specs.Host.{host_answer, host_table, host_in};
ghost use Rattle.table.specs.declared.rules.event.Event.TheVariants as event;

use crate::host::calls::call;
use crate::rules::answer::Answer;
use crate::rules::event::Event;
use peer::settings::Settings;

// The links of a device.
pub fn link(table: &mut [u8], s: Settings, named: &[u8], out: &mut [u8]) -> Answer
    ensures { (result ≡ host_answer table.old s event.Links named.now out.old) × (table.new ≡ host_table table.old s event.Links named.now out.old) × (out.new ≡ host_in table.old s event.Links named.now out.old) }
{
    call(table, s, Event::Links, named, out)
}
