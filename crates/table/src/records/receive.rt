// A received frame, over records by value.
ghost use Rattle.std.specs.Prelude.{◌≡◌, length};
ghost use Rattle.table.specs.Seat.{met_of};
ghost use Rattle.table.specs.Answer.{said_in, stepped_of};
ghost use Rattle.table.specs.Receive.{received_of};

use crate::records::fit::{survey, well};
use crate::records::held::Held;
use crate::records::seat::{finish, met};
use crate::rules::answer::Stepped;
use crate::rules::read::read;
use crate::rules::receive::heard_at;
use crate::rules::seat::{Change, refused};
use octets::frame::Frame;
use peer::record::Record;
use peer::settings::{Settings, associates};

fn received(s: Settings, t: [Record; 32], frame: &[u8], room: usize) -> Change
    ensures { met_of t result ≡ received_of s t frame.now room }
{
    if room < Frame::LONGEST {
        return refused(1);
    }
    let v = survey(s, t);
    let addresses = v.addresses;
    if !well(s, t, v.fit, v.crowd, &addresses) {
        return refused(2);
    }
    let held = Held {
        table: &t,
        addresses: &addresses,
    };
    heard_at(s, held, read(s.own, associates(s.role), frame))
}

// A received frame: the table after it, the answer, and the reply in the buffer.
pub fn receive(s: Settings, t: [Record; 32], frame: &[u8], out: &mut [u8]) -> Stepped
    ensures { (result ≡ stepped_of (received_of s t frame.now (length out.old)) (length out.old)) × (out.new ≡ said_in (received_of s t frame.now (length out.old)).reply out.old) }
{
    let c = received(s, t, frame, out.len());
    finish(met(t, c), out)
}
