// An event, played on the table's octets without a check and printed: one function for each way to print it. Each gives where the next line goes.
ghost use Rattle.std.specs.Prelude.{◌≡◌};
ghost use Rattle.peer.specs.Settings.{settings_fit};
ghost use Rattle.table.specs.Host.{host_answer, host_in, host_table};
ghost use Rattle.table.specs.Rows.{records_of};
ghost use Rattle.table.specs.Run.{Sound};
ghost use Rattle.table.specs.Why.{host_why, reason_number, why_of};
ghost use Rattle.bench.specs.Changes.{changes_lines};
ghost use Rattle.bench.specs.Facts.{dropped_by, facts_of, on_counts};
ghost use Rattle.bench.specs.Line.{line_of};
ghost use Rattle.bench.specs.Output.{put_all, put_of, short, up_to};
ghost use Rattle.bench.specs.Play.{zeros};
ghost use Rattle.bench.specs.Run.{played_of, scratch_of};
ghost use Rattle.bench.specs.Trace.{trace_lines};
ghost use Rattle.bench.specs.Turn.{Ready};
ghost use Rattle.bench.specs.Why.{why_line};

use crate::changes::changed;
use crate::facts::{hold_of, reported_by, sets_hold, write_facts};
use crate::lent::lent_play;
use crate::line::write_line;
use crate::rows::{octets_in, play_on, play_on_in, records_in, why_on};
use crate::run::Run;
use crate::show::traced;
use crate::why::write_why;
use peer::settings::Settings;
use peer::turn::Turn;
use table::rules::event::Event;
use table::rules::why::reason_number;

// The line of an event.
pub(crate) fn plain(
    table: &mut [u8],
    output: &mut [u8],
    r: Run,
    number: u64,
    e: Event,
    frame: &[u8],
) -> usize
    ensures { Ready r table.old → (table.new ≡ host_table table.old r.settings e frame.now zeros) × (up_to output.new result ≡ put_of (short (line_of number (host_answer table.old r.settings e frame.now zeros))) (up_to output.old r.out)) }
{
    let answer = play_on(table, r.settings, r.fit, e, frame);
    write_line(output, r.out, number, answer)
}

// The same, with what a trace shows behind it. The lines come from the records lent, the table from the octets: two ways to hold it.
pub(crate) fn traced_event(
    table: &mut [u8],
    output: &mut [u8],
    r: Run,
    number: u64,
    e: Event,
    frame: &[u8],
) -> usize
    ensures { Ready r table.old → (table.new ≡ host_table table.old r.settings e frame.now zeros) × (up_to output.new result ≡ put_all (trace_lines (played_of r (records_of table.old) e frame.now).answer (scratch_of r (records_of table.old) e frame.now) (played_of r (records_of table.old) e frame.now).table) (put_of (short (line_of number (played_of r (records_of table.old) e frame.now).answer)) (up_to output.old r.out))) }
{
    let p = lent_play(r.settings, r.fit, records_in(&*table), e, frame);
    play_on(table, r.settings, r.fit, e, frame);
    let at = write_line(&mut *output, r.out, number, p.answer);
    traced(output, at, p.answer, p.scratch, p.table)
}

// The same, with what changed behind it, and why.
pub(crate) fn changed_event(
    table: &mut [u8],
    output: &mut [u8],
    r: Run,
    number: u64,
    e: Event,
    frame: &[u8],
) -> usize
    ensures { Ready r table.old → (table.new ≡ host_table table.old r.settings e frame.now zeros) × (up_to output.new result ≡ put_all (changes_lines (played_of r (records_of table.old) e frame.now).answer (scratch_of r (records_of table.old) e frame.now) (why_of r.settings (records_of table.old) e frame.now 256) (records_of table.old) (played_of r (records_of table.old) e frame.now).table) (put_of (short (line_of number (played_of r (records_of table.old) e frame.now).answer)) (up_to output.old r.out))) }
{
    let mut scratch = [0u8; 256];
    let s = r.settings;
    let before = octets_in(&*table);
    let w = why_on(&*table, s, r.fit, e, frame);
    let answer = play_on_in(&mut *table, s, r.fit, e, frame, &mut scratch);
    let after = octets_in(&*table);
    let at = write_line(&mut *output, r.out, number, answer);
    changed(output, at, answer, scratch, w, &before, &after)
}

// Why it came to what it did, in place of its line (02, K4).
pub(crate) fn explained(
    table: &mut [u8],
    output: &mut [u8],
    r: Run,
    number: u64,
    e: Event,
    frame: &[u8],
) -> usize
    ensures { Ready r table.old → (table.new ≡ host_table table.old r.settings e frame.now zeros) × (up_to output.new result ≡ put_of (short (why_line number (why_of r.settings (records_of table.old) e frame.now 256))) (up_to output.old r.out)) }
{
    let w = why_on(&*table, r.settings, r.fit, e, frame);
    play_on(table, r.settings, r.fit, e, frame);
    write_why(output, r.out, number, w)
}

// The rule that dropped a frame, 0 where none did. It is asked of the table after the frame, which a frame that is dropped leaves as it was.
// 0 for none, as `dropped_by` of `specs/Facts.antt` has it.
fn dropped_by(table: &[u8], s: Settings, fit: bool, e: Event, frame: &[u8], verdict: u8) -> u8
    ensures { fit ≡ settings_fit s → Sound s table.now → result ≡ dropped_by e verdict (reason_number (host_why table.now s e frame.now 256).reason) }
{
    match e {
        Event::Frame => {
            if verdict != Turn::DISCARD {
                return 0;
            }
            let w = why_on(table, s, fit, e, frame);
            reason_number(w.reason)
        }
        _ => 0,
    }
}

// What is counted of it, as octets (02, K12).
pub(crate) fn noted(table: &mut [u8], output: &mut [u8], r: Run, e: Event, frame: &[u8]) -> usize
    ensures { Ready r table.old → (table.new ≡ host_table table.old r.settings e frame.now zeros) × (up_to output.new result ≡ put_of (short (on_counts facts_of r.settings.role e frame.now (host_answer table.old r.settings e frame.now zeros) (reason_number (host_why (host_table table.old r.settings e frame.now zeros) r.settings e frame.now 256).reason) (host_in table.old r.settings e frame.now zeros))) (up_to output.old r.out)) }
{
    let mut scratch = [0u8; 256];
    let s = r.settings;
    let a = play_on_in(&mut *table, s, r.fit, e, frame, &mut scratch);
    let dropped = dropped_by(&*table, s, r.fit, e, frame, a.verdict);
    let set = sets_hold(s.role, e, a);
    let hold = hold_of(set, frame, a);
    write_facts(
        output,
        r.out,
        a,
        dropped,
        reported_by(e, a.written, &scratch),
        set,
        hold,
    )
}
