// What is counted of an event (02, K12), as 25 octets in the output buffer: 21 numbers of one octet, and the hold's four.
ghost use Rattle.std.specs.Prelude.{◌≡◌, ◌∷◌, ◌+◌, ◌≤◌, length, take};
ghost use Rattle.octets.specs.Field.{octets};
ghost use Rattle.octets.specs.Stored.{Stored};
ghost use Rattle.bench.specs.Facts.{answer_numbers, facts_of, frame_sets, hold_of, hold_set, is_parted, is_rejected, one, ones_from, reported_by, reports_in, sets_hold, timeout_numbers};
ghost use Rattle.bench.specs.Output.{short, up_to, put_of};

use crate::text::{has_room, put_octet, put_word};
use octets::element::first_comeback;
use peer::association::comeback_hold;
use peer::record::Record;
use peer::settings::Settings;
use peer::turn::Told;
use table::rules::answer::Answer;
use table::rules::event::Event;

// 1 where it is so, else 0.
fn one(b: bool) -> u8
    ensures { (result ≡ one b) × (result ≤ 1) }
{
    if b { 1 } else { 0 }
}

// n octets, for the values from k on: 1 for v, else 0.
// A recursion, as `ones_from` is.
fn put_ones(out: &mut [u8], at: usize, k: u8, n: usize, v: u8) -> usize
    requires { (at + n ≤ length out.old) × (k + n ≤ 255) }
    ensures { (result ≡ at + n) × (Stored out.old at (ones_from k n v) out.new) }
{
    if n == 0 {
        return at;
    }
    put_octet(out, at, one(v == k));
    put_ones(out, at + 1, k + 1, n - 1, v)
}

// The event itself, its refusal, the rule that dropped it, the word to the distribution system.
fn put_answer(out: &mut [u8], at: usize, a: Answer, dropped: u8) -> usize
    requires { at + 15 ≤ length out.old }
    ensures { (result ≡ at + 15) × (Stored out.old at (answer_numbers a dropped) out.new) }
{
    put_octet(out, at, 1);
    let p1 = put_ones(out, at + 1, 1, 9, a.refusal);
    let p2 = put_ones(out, p1, 10, 3, dropped);
    put_ones(out, p2, 1, 2, a.ds)
}

// How many of a clock step's reports are of a kind: the second octet of each eight.
fn reported(reports: &[u8], kind: u8) -> u8
    requires { length reports.now ≤ 256 }
    ensures { result ≡ reports_in kind 1 reports.now }
{
    // By hand: of what `skip(1).step_by(8)` gives the proof learns too little to count it.
    let mut count: u8 = 0;
    let mut i = 1;
    while i < reports.len() {
        count += one(reports[i] == kind);
        i += 8;
    }
    count
}

fn put_timeouts(out: &mut [u8], at: usize, reports: &[u8]) -> usize
    requires { (at + 5 ≤ length out.old) × (length reports.now ≤ 256) }
    ensures { (result ≡ at + 5) × (Stored out.old at (timeout_numbers reports.now) out.new) }
{
    let v = [
        reported(reports, 1),
        reported(reports, 2),
        reported(reports, 3),
        reported(reports, 4),
        reported(reports, 5),
    ];
    put_word(out, at, &v)
}

// Whether a hold was set, and the hold.
// Flag and hold: `facts_of` takes both, and each is counted by itself.
fn put_hold(out: &mut [u8], at: usize, set: bool, hold: u32) -> usize
    requires { at + 5 ≤ length out.old }
    ensures { (result ≡ at + 5) × (Stored out.old at (one set ∷ octets 4 hold) out.new) }
{
    let v = [
        one(set),
        (hold % 256) as u8,
        (hold / 256 % 256) as u8,
        (hold / 256 / 256 % 256) as u8,
        (hold / 256 / 256 / 256 % 256) as u8,
    ];
    put_word(out, at, &v)
}

fn put_facts(
    out: &mut [u8],
    at: usize,
    a: Answer,
    dropped: u8,
    reports: &[u8],
    set: bool,
    hold: u32,
) -> usize
    requires { (at + 25 ≤ length out.old) × (length reports.now ≤ 256) }
    ensures { (result ≡ at + 25) × (Stored out.old at (facts_of a dropped reports.now set hold) out.new) }
{
    let p1 = put_answer(out, at, a, dropped);
    let p2 = put_timeouts(out, p1, reports);
    put_hold(out, p2, set, hold)
}

// Writes them behind the first `at` octets of the buffer and gives where they end; where fewer than 64 are left, nothing and `at`.
pub(crate) fn write_facts(
    out: &mut [u8],
    at: usize,
    a: Answer,
    dropped: u8,
    reports: &[u8],
    set: bool,
    hold: u32,
) -> usize
    requires { length reports.now ≤ 256 }
    ensures { up_to out.new result ≡ put_of (short (facts_of a dropped reports.now set hold)) (up_to out.old at) }
{
    if !has_room(out.len(), at, 64) {
        return at;
    }
    put_facts(out, at, a, dropped, reports, set, hold)
}

// The first n octets, or all where there are fewer.
pub(crate) fn first(s: &[u8], n: usize) -> &[u8]
    ensures { result.now ≡ take n s.now }
{
    if n <= s.len() { &s[..n] } else { s }
}

// The octets that a clock step wrote; of another event none.
pub(crate) fn reported_by(e: Event, written: u16, scratch: &[u8]) -> &[u8]
    ensures { result.now ≡ reported_by e written scratch.now }
{
    match e {
        Event::Clock(_) => first(scratch, written as usize),
        _ => &scratch[..0],
    }
}

// A confirm of a (re)association with a status other than 0.
fn is_rejected(a: Answer) -> bool
    ensures { result ≡ is_rejected a }
{
    a.code != 0
        && (a.notice == Told::ASSOCIATION_CONFIRM || a.notice == Told::REASSOCIATION_CONFIRM)
}

// The indication of a disassociation.
fn is_parted(a: Answer) -> bool
    ensures { result ≡ is_parted a }
{
    a.notice == Told::DISASSOCIATION_INDICATION
}

// Whether a frame set a hold.
fn frame_sets(role: u8, a: Answer) -> bool
    ensures { result ≡ frame_sets role a }
{
    role == Settings::STATION && (is_rejected(a) || is_parted(a))
}

// Whether an event set a hold.
pub(crate) fn sets_hold(role: u8, e: Event, a: Answer) -> bool
    ensures { result ≡ sets_hold role e a }
{
    match e {
        Event::Frame => frame_sets(role, a),
        _ => false,
    }
}

// The hold that a frame sets: a comeback of 0 is a hold of 0.
fn hold_set(frame: &[u8], a: Answer) -> u32
    ensures { result ≡ hold_set frame.now a }
{
    if is_parted(a) {
        return Record::HOLD;
    }
    comeback_hold(first_comeback(frame))
}

// The same, and 0 where none was set.
pub(crate) fn hold_of(set: bool, frame: &[u8], a: Answer) -> u32
    ensures { result ≡ hold_of set frame.now a }
{
    if set { hold_set(frame, a) } else { 0 }
}
