// The links of a device named, over records by value.
ghost use Rattle.std.specs.Prelude.{◌≡◌, length};
ghost use Rattle.table.specs.Answer.{said_in, stepped_of};
ghost use Rattle.table.specs.Link.{linked_of};
ghost use Rattle.table.specs.Seat.{met_of};

use crate::records::fit::{survey, well};
use crate::records::held::Held;
use crate::records::seat::{finish, met};
use crate::rules::answer::Stepped;
use crate::rules::link::named_at;
use crate::rules::seat::{Change, refused};
use octets::frame::Frame;
use peer::record::Record;
use peer::settings::Settings;

fn linked(s: Settings, t: [Record; 32], named: &[u8], room: usize) -> Change
    ensures { met_of t result ≡ linked_of s t named.now room }
{
    if room < Frame::LONGEST {
        return refused(1);
    }
    let v = survey(s, t);
    let addresses = v.addresses;
    if !well(s, t, v.fit, v.crowd, &addresses) {
        return refused(2);
    }
    let held = Held {
        table: &t,
        addresses: &addresses,
    };
    named_at(s, held, named)
}

// The links of a device: the table after it and the answer. Nothing is written.
pub fn link(s: Settings, t: [Record; 32], named: &[u8], out: &mut [u8]) -> Stepped
    ensures { (result ≡ stepped_of (linked_of s t named.now (length out.old)) (length out.old)) × (out.new ≡ said_in (linked_of s t named.now (length out.old)).reply out.old) }
{
    let c = linked(s, t, named, out.len());
    finish(met(t, c), out)
}
