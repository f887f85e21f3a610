// Many events in one call. Settings and table are checked once, at the start: each event keeps them well formed.
ghost use Rattle.std.specs.Prelude.{◌≡◌, true, false, List, ltb, drop, length, take as front, ℕ, ◌/◌, ◌≤◌};
ghost use Rattle.octets.specs.Field.{all_octets};
ghost use Rattle.octets.specs.Pick.{pick};
ghost use Rattle.peer.specs.Settings.{settings_fit};
ghost use Rattle.peer.specs.declared.settings.Settings.{Settings as Chosen};
ghost use Rattle.table.specs.Boundary.{crossed};
ghost use Rattle.table.specs.Host.{host_answer, host_table, host_in};
ghost use Rattle.table.specs.Lent.{room_of};
ghost use Rattle.table.specs.Run.{Goes, Knows, Sound, called_with, gone, gone_of, ran_of, stayed};

use crate::host::boundary::told;
use crate::host::input::{Taken, body, record_length, take};
use crate::host::others::others_for;
use crate::host::play::play;
use crate::host::survey::{linked_now, survey};
use crate::rules::answer::Answer;
use crate::rules::event::{Event, room};
use peer::settings::Settings;

// What is known of settings and table: whether they are well formed and, if so, whether any record has links.
// Two flags: `Knows` is of both, and five functions promise or ask it.
#[derive(Clone, Copy)]
pub struct Known {
    pub well: bool,
    pub linked: bool,
}

// What one event of a run takes of the records, and writes; and what is known behind it. No record is taken where its size is 0.
#[derive(Clone, Copy)]
struct Passed {
    size: usize,
    written: usize,
    known: Known,
}

// The check.
pub fn checked(s: Settings, table: &[u8]) -> Known
    ensures { Knows s table.now result.well result.linked }
{
    if table.len() != 1536 {
        return Known {
            well: false,
            linked: false,
        };
    }
    let v = survey(s, table);
    Known {
        well: v.well,
        linked: v.linked,
    }
}

// What is known without the check of a table that is well formed if the settings fit; whether they do was looked at before.
pub fn trusted(fit: bool, table: &[u8]) -> Known
    ensures { (s : Chosen) → fit ≡ settings_fit s → Sound s table.now → Knows s table.now result.well result.linked }
{
    Known {
        well: fit,
        linked: linked_now(table),
    }
}

// What is known behind an event: links are looked for again only behind one that names them.
pub fn known_after(table: &[u8], k: Known, e: Event) -> Known
    ensures { (s : Chosen) (xs fs l : List ℕ) → all_octets xs ≡ true → all_octets fs ≡ true → Knows s xs k.well k.linked → table.now ≡ host_table xs s e fs l → Knows s table.now result.well result.linked }
{
    match e {
        Event::Frame => k,
        Event::Ask { .. } => k,
        Event::Links => Known {
            well: k.well,
            linked: linked_now(table),
        },
        Event::Clock(_) => k,
    }
}

// The single call, by what is known, with room in the buffer.
pub fn known_call(
    table: &mut [u8],
    s: Settings,
    k: Known,
    e: Event,
    octets: &[u8],
    out: &mut [u8],
) -> Answer
    ensures { Knows s table.old k.well k.linked → room_of e ≤ length out.old → (result ≡ host_answer table.old s e octets.now out.old) × (table.new ≡ host_table table.old s e octets.now out.old) × (out.new ≡ host_in table.old s e octets.now out.old) }
{
    if !k.well {
        return Answer::refusal(2);
    }
    let o = others_for(s, &*table, e);
    play(table, s, k.linked, o, e, octets, out)
}

fn stop(k: Known) -> Passed
    ensures { (result.size ≡ 0) × (result.written ≡ 0) × (result.known ≡ k) }
{
    Passed {
        size: 0,
        written: 0,
        known: k,
    }
}

// The event of the first record, where the buffer has room.
fn next(
    table: &mut [u8],
    s: Settings,
    k: Known,
    e: Event,
    records: &[u8],
    out: &mut [u8],
    answers: &mut [u8],
) -> Passed
    requires { Knows s table.old k.well k.linked }
    ensures { (gone result.size result.written table.new out.new answers.new ≡ pick (ltb (length out.old) (room_of e)) (stayed table.old out.old answers.old) (called_with s table.old records.now out.old answers.old e)) × Knows s table.new result.known.well result.known.linked }
{
    if out.len() < room(e) {
        return stop(k);
    }
    let a = known_call(&mut *table, s, k, e, body(records), &mut *out);
    told(a, answers);
    Passed {
        size: record_length(records),
        written: a.written as usize,
        known: known_after(&*table, k, e),
    }
}

// What stands at the front of the records.
fn turn(
    table: &mut [u8],
    s: Settings,
    k: Known,
    records: &[u8],
    out: &mut [u8],
    answers: &mut [u8],
) -> Passed
    requires { Knows s table.old k.well k.linked }
    ensures { (gone result.size result.written table.new out.new answers.new ≡ gone_of s table.old records.now out.old answers.old) × Knows s table.new result.known.well result.known.linked }
{
    match take(records, false) {
        Taken::Cut => stop(k),
        Taken::Fault => stop(k),
        Taken::First(_) => stop(k),
        Taken::Next(e) => next(table, s, k, e, records, out, answers),
    }
}

// The same on what is left of records, buffer and answers.
fn turn_at(
    table: &mut [u8],
    s: Settings,
    k: Known,
    records: &[u8],
    from: usize,
    out: &mut [u8],
    at: usize,
    answers: &mut [u8],
    place: usize,
) -> Passed
    requires { (Knows s table.old k.well k.linked) × (from ≤ length records.now) × (at ≤ length out.old) × (place ≤ length answers.old) }
    ensures { Goes (gone_of s table.old (drop from records.now) (drop at out.old) (drop place answers.old)) result.size result.written table.new (front at out.old) out.new (front place answers.old) answers.new × Knows s table.new result.known.well result.known.linked }
{
    turn(
        table,
        s,
        k,
        &records[from..],
        &mut out[at..],
        &mut answers[place..],
    )
}

// How many answers of 24 octets there is room for: 16 bits at a time, from the highest, with what is over handed on. So the numbers divided have 32 bits: not
// every processor divides longer ones.
fn answers_in(n: usize) -> usize
    ensures { result ≡ n / 24 }
{
    let a = (n / 281474976710656) as u32;
    let b = a % 24 * 65536 + (n / 4294967296 % 65536) as u32;
    let c = b % 24 * 65536 + (n / 65536 % 65536) as u32;
    let d = c % 24 * 65536 + (n % 65536) as u32;
    ((a / 24 * 65536 + b / 24) as usize * 65536 + (c / 24) as usize) * 65536 + (d / 24) as usize
}

// Events one behind the other, as long as there are records, room in the buffer and 24 octets for an answer. Gives how many were played.
pub fn run(table: &mut [u8], s: Settings, records: &[u8], out: &mut [u8], answers: &mut [u8]) -> u64
    ensures { crossed result table.new out.new answers.new ≡ ran_of table.old s records.now out.old answers.old }
{
    let most = answers_in(answers.len());
    let mut k = checked(s, &*table);
    let mut from = 0;
    let mut at = 0;
    for n in 0..most {
        let p = turn_at(
            &mut *table,
            s,
            k,
            records,
            from,
            &mut *out,
            at,
            &mut *answers,
            24 * n,
        );
        if p.size == 0 {
            return n as u64;
        }
        k = p.known;
        from += p.size;
        at += p.written;
    }
    most as u64
}
