// Why an event came to what it did: the first rule that decided, and a value beside it.
ghost use Rattle.std.specs.Prelude.{◌≡◌, true};
ghost use Rattle.table.specs.Others.{others_of};
ghost use Rattle.table.specs.Places.{addresses_of};
ghost use Rattle.table.specs.Ruled.{asking};
ghost use Rattle.table.specs.Why.{ask_why, beside, frame_why, plain, reason_number, why_asked, why_at, why_from, why_linked, why_passed, why_read};

use crate::rules::event::Event;
use crate::rules::link::{count_in, device_in, may_link};
use crate::rules::lookup::Lookup;
use crate::rules::read::{Reading, read};
use octets::class::FrameClass;
use octets::heard::Heard;
use octets::sort::class_by;
use peer::filter::passes;
use peer::idle::{group_barred, idle};
use peer::record::Record;
use peer::refuse::Others;
use peer::settings::{Settings, associates};

// None and a refusal as `reason_number` has them: 0, and n for any n.
#[derive(Clone, Copy)]
pub enum Reason {
    // Something was done; of a primitive, links and a clock step: it was not refused.
    None,
    // The number of the refusal.
    Refusal(u8),
    NoClass,
    ClassFilter,
    GroupRule,
    // Admitted, and no rule names anything to do.
    NothingToDo,
}

#[derive(Clone, Copy)]
pub struct Why {
    pub reason: Reason,
    // The frame's length, the peer's state or the hold left, by the reason; else 0.
    // Beside the reason: `why_crossed_of` and `value_written` are of the two, and so they cross to C.
    pub value: u64,
}

// Each reason as a number, as it crosses to a host.
// No `From<Reason>`: pages and `specs/Why.antt` name this.
pub fn reason_number(r: Reason) -> u8
    ensures { result ≡ reason_number r }
{
    match r {
        Reason::None => 0,
        Reason::Refusal(n) => n,
        Reason::NoClass => 10,
        Reason::ClassFilter => 11,
        Reason::GroupRule => 12,
        Reason::NothingToDo => 13,
    }
}

impl Why {
    // A reason with nothing beside it.
    pub fn plain(reason: Reason) -> Why
        ensures { result ≡ plain reason }
    {
        Why { reason, value: 0 }
    }

    pub fn beside(reason: Reason, value: u64) -> Why
        ensures { result ≡ beside reason value }
    {
        Why { reason, value }
    }
}

// A frame's refusal.
// By number here and below, 0 for done: the definitions go by `first_of`.
pub(crate) fn frame_why(refusal: u8, length: u64) -> Why
    ensures { result ≡ frame_why refusal length }
{
    if refusal == 3 {
        return Why::beside(Reason::Refusal(refusal), length);
    }
    Why::plain(Reason::Refusal(refusal))
}

// A primitive's refusal, 0 where it is done, by its own peer.
pub(crate) fn ask_why(refusal: u8, p: Record) -> Why
    ensures { result ≡ ask_why refusal p }
{
    if refusal == 0 {
        return Why::plain(Reason::None);
    }
    if refusal == 7 {
        return Why::beside(Reason::Refusal(refusal), p.state as u64);
    }
    if refusal == 8 {
        return Why::beside(Reason::Refusal(refusal), p.hold as u64);
    }
    Why::plain(Reason::Refusal(refusal))
}

// A frame from a peer.
pub(crate) fn why_from(s: Settings, p: Record, class: FrameClass, group: bool, h: Heard) -> Why
    ensures { result ≡ why_from s p class group h }
{
    if !passes(s.role, class, p.state) {
        return Why::beside(Reason::ClassFilter, p.state as u64);
    }
    if group_barred(group, h) {
        return Why::plain(Reason::GroupRule);
    }
    if idle(s, p, group, h) {
        return Why::plain(Reason::NothingToDo);
    }
    Why::plain(Reason::None)
}

// A clock step.
pub(crate) fn why_passed(step: u16) -> Why
    ensures { result ≡ why_passed step }
{
    if step == 0 {
        return Why::plain(Reason::Refusal(3));
    }
    Why::plain(Reason::None)
}

// A frame that was read; it has `long` octets.
fn why_read<T: Lookup>(s: Settings, t: T, long: u64, r: Reading) -> Why
    ensures { T.sound t → result ≡ why_read s (T.records t) (addresses_of (T.records t)) long r }
{
    match r {
        Reading::Refused(n) => frame_why(n, long),
        Reading::Discarded => Why::plain(Reason::NoClass),
        Reading::Admitted => Why::plain(Reason::NothingToDo),
        Reading::From {
            peer,
            group,
            sort,
            heard,
        } => {
            let at = t.seek(peer);
            why_from(s, t.peer_at(at, peer), class_by(sort), group, heard)
        }
    }
}

// A primitive, by what it asks of the whole table.
fn why_asked<T: Lookup>(s: Settings, t: T, o: Others, primitive: u8, address: u64, code: u16) -> Why
    ensures { T.sound t → o ≡ others_of s (T.records t) → result ≡ why_asked s (T.records t) (addresses_of (T.records t)) primitive address code }
{
    let at = t.find(address);
    let p = t.peer_at(at, address);
    let n = crate::rules::ask::refusal(
        s,
        t.vacancy(at),
        at,
        t.find_link(address),
        p,
        o,
        primitive,
        address,
        code,
    );
    ask_why(n, p)
}

// Links named.
fn why_linked<T: Lookup>(s: Settings, t: T, named: &[u8]) -> Why
    ensures { T.sound t → result ≡ why_linked s (T.records t) (addresses_of (T.records t)) named.now }
{
    let device = device_in(named);
    let at = t.find(device);
    let p = t.peer_at(at, device);
    let n = crate::rules::link::refusal(
        s,
        t.vacancy(at),
        at,
        p,
        may_link(s, t, at, named),
        count_in(named),
    );
    ask_why(n, p)
}

// Once refusals 1 and 2 do not apply.
pub(crate) fn why_at<T: Lookup>(s: Settings, t: T, o: Others, e: Event, frame: &[u8]) -> Why
    ensures { T.sound t → (asking e ≡ true → o ≡ others_of s (T.records t)) → result ≡ why_at s (T.records t) (addresses_of (T.records t)) e frame.now }
{
    match e {
        Event::Frame => why_read(
            s,
            t,
            frame.len() as u64,
            read(s.own, associates(s.role), frame),
        ),
        Event::Ask {
            primitive,
            address,
            code,
        } => why_asked(s, t, o, primitive, address, code),
        Event::Links => why_linked(s, t, frame),
        Event::Clock(d) => why_passed(d),
    }
}
