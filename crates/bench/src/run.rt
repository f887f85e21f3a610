// The run over an input: the octets read, what was taken of them, and the lines not yet written.
ghost use Rattle.std.specs.Prelude.{◌≡◌, ℕ, true, List};
ghost use Rattle.table.specs.Host.{host_table};
ghost use Rattle.table.specs.Rows.{records_of};
ghost use Rattle.bench.specs.Output.{up_to};
ghost use Rattle.bench.specs.Play.{number_after, zeros};
ghost use Rattle.bench.specs.Run.{start_of, behind_of, begun_of, done_of, event_of, event_output, stop_output};
ghost use Rattle.bench.specs.Turn.{Flushed, Made, Ready, Refilled, Rounded, Turned, TurnOf};
ghost use Rattle.table.specs.declared.host.input.Taken.TheVariants.{Cut};

use crate::input::shift;
use crate::line::write_stop;
use crate::passed::one_more;
use crate::text::has_room;
use crate::ways::{changed_event, explained, noted, plain, traced_event};
use peer::settings::Settings;
use std::io::{Read, Write};
use table::host::input::{Taken, body, record_length, take};
use table::rules::event::Event;

// What is printed of an event.
#[derive(Clone, Copy)]
pub enum Prints {
    // Its line.
    Lines,
    // Its line, and what a trace shows behind it.
    Trace,
    // Its line, and behind it what changed, and why (changes.rt).
    Changes,
    // Why it came to that, in place of its line (02, K4).
    Why,
    // What is counted of it, as octets (02, K12).
    Facts,
}

// Where a run stands. Of the input buffer the octets from `at` to `have` are still to be taken; of the output buffer the first `out` are
// lines still to be written.
// Flags: all four pairs of `over` and `done` come up. Places as `start_of`, `event_of` and `behind_of` name them.
#[derive(Clone, Copy)]
pub struct Run {
    pub settings: Settings,
    // Whether the settings fit: looked at once, where they are taken.
    pub fit: bool,
    pub number: u64,
    pub at: usize,
    pub have: usize,
    pub out: usize,
    // No record was taken yet.
    pub first: bool,
    // The input came to its end.
    pub over: bool,
    pub done: bool,
    pub prints: Prints,
}

impl Run {
    pub fn new(prints: Prints) -> Run
        ensures { result ≡ start_of prints }
    {
        Run {
            settings: Settings {
                own: 0,
                network: 0,
                authentication: 0,
                association: 0,
                role: 0,
                rsna: 0,
                edition: 0,
                protection: 0,
                retry: 0,
                maximum: 0,
            },
            fit: false,
            number: 0,
            at: 0,
            have: 0,
            out: 0,
            first: true,
            over: false,
            done: false,
            prints,
        }
    }
}

// Where one stands n octets behind `at`, of `have`.
pub(crate) fn behind(at: usize, n: usize, have: usize) -> usize
    ensures { result ≡ behind_of at n have }
{
    if has_room(have, at, n) { at + n } else { have }
}

// Writes out the lines of the buffer.
fn flush<W: Write>(to: &mut W, output: &[u8], r: Run) -> Run
    ensures { Flushed output.now r result }
{
    let next = Run { out: 0, ..r };
    if r.out <= output.len() && to.write_all(&output[..r.out]).is_ok() {
        return next;
    }
    finish(next)
}

// Ends the run.
fn finish(r: Run) -> Run
    ensures { result ≡ done_of r r.out }
{
    Run { done: true, ..r }
}

// Ends the run with the line `stop`.
fn stop(output: &mut [u8], r: Run) -> Run
    ensures { (result ≡ done_of r (stop_output r output.old).filled) × (output.new ≡ (stop_output r output.old).octets) }
{
    let out = write_stop(output, r.out);
    finish(Run { out, ..r })
}

// Reads on behind what is left.
fn refill<R: Read>(from: &mut R, input: &mut [u8], r: Run) -> Run
    ensures { Refilled input.old r input.new result }
{
    let left = shift(input, r.at, r.have);
    match from.read(&mut input[left..]) {
        Ok(n) => {
            let have = behind(left, n, input.len());
            Run {
                at: 0,
                have,
                over: n == 0,
                ..r
            }
        }
        Err(_) => finish(r),
    }
}

// A record that is not there whole: more is read, unless the input came to its end.
fn cut<R: Read>(from: &mut R, input: &mut [u8], output: &mut [u8], r: Run) -> Run
    ensures { (ts : List ℕ) → Turned Cut ts input.old output.old r ts input.new output.new result }
{
    if !r.over {
        refill(from, input, r)
    } else if r.at == r.have {
        finish(r)
    } else {
        stop(output, r)
    }
}

// The settings record was taken; it has `size` octets.
fn begin(r: Run, s: Settings, size: usize) -> Run
    ensures { result ≡ begun_of r s size }
{
    Run {
        settings: s,
        fit: s.fit(),
        first: false,
        at: behind(r.at, size, r.have),
        ..r
    }
}

// Plays an event, whose number is given, and prints it in the run's way; gives where the next line goes.
fn printed(
    table: &mut [u8],
    output: &mut [u8],
    r: Run,
    number: u64,
    e: Event,
    frame: &[u8],
) -> usize
    requires { number ≡ number_after r.number }
    ensures { Ready r table.old → (table.new ≡ host_table table.old r.settings e frame.now zeros) × (up_to output.new result ≡ event_output r (records_of table.old) e frame.now output.old) }
{
    // One switch an event: start_of, event_lines and whole_output are about what it asks for.
    match r.prints {
        Prints::Lines => plain(table, output, r, number, e, frame),
        Prints::Trace => traced_event(table, output, r, number, e, frame),
        Prints::Changes => changed_event(table, output, r, number, e, frame),
        Prints::Why => explained(table, output, r, number, e, frame),
        Prints::Facts => noted(table, output, r, e, frame),
    }
}

// An event was taken: it is played, and its lines go to the output. The record has `size` octets, its body is `frame`.
fn event(table: &mut [u8], output: &mut [u8], r: Run, e: Event, frame: &[u8], size: usize) -> Run
    ensures { (Ready r table.old → (table.new ≡ host_table table.old r.settings e frame.now zeros) × (result ≡ event_of r (records_of table.old) e frame.now size output.old) × (output.new ≡ (event_output r (records_of table.old) e frame.now output.old).octets)) × (Made table.old) × (Made frame.now) }
{
    let number = one_more(r.number);
    let at = behind(r.at, size, r.have);
    let out = printed(table, output, r, number, e, frame);
    Run {
        number,
        at,
        out,
        ..r
    }
}

// One record, or more input.
pub fn turn<R: Read>(
    from: &mut R,
    table: &mut [u8],
    input: &mut [u8],
    output: &mut [u8],
    r: Run,
) -> Run
    ensures { TurnOf table.old input.old output.old r table.new input.new output.new result }
{
    if r.have < r.at || input.len() < r.have {
        return finish(r);
    }
    match take(&input[r.at..r.have], r.first) {
        Taken::Fault => stop(output, r),
        Taken::Cut => cut(from, input, output, r),
        Taken::First(s) => begin(r, s, record_length(&input[r.at..r.have])),
        Taken::Next(e) => {
            let s = &input[r.at..r.have];
            event(table, output, r, e, body(s), record_length(s))
        }
    }
}

// The same; and where that is the end, or little room is left, the lines are written out. This alone writes, and `refill` alone reads.
pub fn round<R: Read, W: Write>(
    from: &mut R,
    to: &mut W,
    table: &mut [u8],
    input: &mut [u8],
    output: &mut [u8],
    r: Run,
) -> Run
    ensures { Rounded table.old input.old output.old r table.new input.new output.new result }
{
    let next = turn(from, table, input, output, r);
    if !next.done && has_room(output.len(), next.out, 8192) {
        return next;
    }
    flush(to, output, next)
}
