// A primitive from our own side, over records by value.
ghost use Rattle.std.specs.Prelude.{◌≡◌, length};
ghost use Rattle.table.specs.Answer.{said_in, stepped_of};
ghost use Rattle.table.specs.Seat.{met_of};
ghost use Rattle.table.specs.Ask.{asked_of};

use crate::records::fit::{survey, well};
use crate::records::held::Held;
use crate::records::seat::{finish, met};
use crate::rules::answer::Stepped;
use crate::rules::ask::asked_in;
use crate::rules::others::others;
use crate::rules::seat::{Change, refused};
use octets::frame::Frame;
use peer::record::Record;
use peer::settings::Settings;

fn asked(
    s: Settings,
    t: [Record; 32],
    primitive: u8,
    address: u64,
    code: u16,
    room: usize,
) -> Change
    ensures { met_of t result ≡ asked_of s t primitive address code room }
{
    if room < Frame::LONGEST {
        return refused(1);
    }
    let v = survey(s, t);
    let addresses = v.addresses;
    if !well(s, t, v.fit, v.crowd, &addresses) {
        return refused(2);
    }
    let o = others(s, v.associated, v.crowd);
    let held = Held {
        table: &t,
        addresses: &addresses,
    };
    asked_in(s, held, o, primitive, address, code)
}

// A primitive: the table after it, the answer, and the frame in the buffer.
pub fn ask(
    s: Settings,
    t: [Record; 32],
    primitive: u8,
    address: u64,
    code: u16,
    out: &mut [u8],
) -> Stepped
    ensures { (result ≡ stepped_of (asked_of s t primitive address code (length out.old)) (length out.old)) × (out.new ≡ said_in (asked_of s t primitive address code (length out.old)).reply out.old) }
{
    let c = asked(s, t, primitive, address, code, out.len());
    finish(met(t, c), out)
}
