// One event played on the 1,536 octets of a table by the rules alone: settings and table are not checked, and no octet is copied.
ghost use Rattle.std.specs.Prelude.{◌≡◌, true, false, ◌||◌, length, ◌≤◌};
ghost use Rattle.table.specs.Answer.{count_answer, said_in, said_length};
ghost use Rattle.table.specs.Lent.{room_of};
ghost use Rattle.table.specs.Others.{others_of};
ghost use Rattle.table.specs.Rows.{is_table, linked_in, links_over, octets_of, records_of};
ghost use Rattle.table.specs.Ruled.{asking, naming, new_at, ruled_in, ruled_of, ticked_in, ticked_of, ticking};
ghost use Rattle.table.specs.Seat.{met_of};

use crate::host::rows::{clock, look, met};
use crate::host::seek::Lent;
use crate::rules::answer::Answer;
use crate::rules::event::{Event, room, step_in, ticks};
use crate::rules::play::change;
use crate::rules::seat::{Change, answered};
use peer::refuse::Others;
use peer::settings::Settings;

// Whether a change may be one of links: where they are named, and at a free place, whose row is put there whole.
fn links_too(table: &[u8], c: Change, naming: bool) -> bool
    ensures { result ≡ (naming || new_at (records_of table.now) c.place) }
{
    if naming {
        return true;
    }
    match c.place {
        None => false,
        Some(i) => look(table, i).address == 0,
    }
}

// A change made: the table with it, and what is said.
fn made(table: &mut [u8], c: Change, naming: bool, out: &mut [u8]) -> Answer
    ensures { (result ≡ count_answer c.answer (said_length c.reply (length out.old))) × (out.new ≡ said_in c.reply out.old) × (is_table table.old ≡ true → ((naming || new_at (records_of table.old) c.place) ≡ false → links_over (met_of (records_of table.old) c).table ≡ links_over (records_of table.old)) → table.new ≡ octets_of (met_of (records_of table.old) c).table) }
{
    let linking = links_too(&*table, c, naming);
    met(table, c, linking);
    answered(c.answer, c.reply, out)
}

// A clock step in TU.
fn ticked(table: &mut [u8], s: Settings, step: u16, out: &mut [u8]) -> Answer
    requires { (length table.old ≡ 1536) × (256 ≤ length out.old) }
    ensures { (result ≡ (ticked_of s (records_of table.old) step).answer) × (is_table table.old ≡ true → table.new ≡ octets_of (ticked_of s (records_of table.old) step).table) × (out.new ≡ ticked_in s (records_of table.old) step out.old) }
{
    if step == 0 {
        return Answer::refusal(3);
    }
    let written = clock(s, table, step, out);
    Answer::refusal(0).count(written)
}

// Whether an event names links.
fn names_links(e: Event) -> bool
    ensures { result ≡ naming e }
{
    match e {
        Event::Links => true,
        _ => false,
    }
}

// An event that is no clock step: its change made.
fn changed(
    table: &mut [u8],
    s: Settings,
    linked: bool,
    o: Others,
    e: Event,
    octets: &[u8],
    out: &mut [u8],
) -> Answer
    requires { length table.old ≡ 1536 }
    ensures { is_table table.old ≡ true → linked ≡ linked_in (records_of table.old) → (asking e ≡ true → o ≡ others_of s (records_of table.old)) → ticking e ≡ false → room_of e ≤ length out.old → (result ≡ (ruled_of s (records_of table.old) e octets.now (length out.old)).answer) × (table.new ≡ octets_of (ruled_of s (records_of table.old) e octets.now (length out.old)).table) × (out.new ≡ ruled_in s (records_of table.old) e octets.now out.old) }
{
    let lent = Lent {
        octets: &*table,
        linked,
    };
    let c = change(s, lent, o, e, octets);
    made(table, c, names_links(e), out)
}

// An event. `linked` says whether any record has links, and `o` what a primitive asks of the whole table; the octets of a frame, or of links,
// are lent beside it.
// Both are handed on: a play that counts others itself took 1,836 instructions at joins, so 1,574 (DECISIONS, Speed).
pub fn play(
    table: &mut [u8],
    s: Settings,
    linked: bool,
    o: Others,
    e: Event,
    octets: &[u8],
    out: &mut [u8],
) -> Answer
    ensures { is_table table.old ≡ true → linked ≡ linked_in (records_of table.old) → (asking e ≡ true → o ≡ others_of s (records_of table.old)) → (result ≡ (ruled_of s (records_of table.old) e octets.now (length out.old)).answer) × (table.new ≡ octets_of (ruled_of s (records_of table.old) e octets.now (length out.old)).table) × (out.new ≡ ruled_in s (records_of table.old) e octets.now out.old) }
{
    if out.len() < room(e) {
        return Answer::refusal(1);
    }
    if table.len() != 1536 {
        return Answer::refusal(2);
    }
    if ticks(e) {
        return ticked(table, s, step_in(e), out);
    }
    changed(table, s, linked, o, e, octets, out)
}
