// `bench import SETTINGS CAPTURE`: a settings record and a capture are read from their files, and records go to standard output.
ghost use Rattle.std.specs.Prelude.{◌≡◌};
ghost use Rattle.bench.specs.Import.{one_settings};
ghost use Rattle.bench.specs.Importer.{is_over};

use crate::importer::{Stage, State, ending, start, turn};
use crate::input::shift;
use crate::outside::{
    Source, argument, argument_count, complain, flush, open, read_full, say, say_number, unreadable,
};
use crate::run::behind;
use crate::text::has_room;
use std::io::Read;
use table::host::input::{Taken, record_length, take};

// Where an import stands. Of the input buffer the octets from `at` to `have` are still to be taken; of the output buffer the first `out` are
// still to be written.
#[derive(Clone, Copy)]
struct Job {
    state: State,
    at: usize,
    have: usize,
    out: usize,
    // The capture came to its end.
    over: bool,
    done: bool,
}

// Whether the octets are one settings record, whole, and nothing behind it.
fn is_settings(s: &[u8]) -> bool
    ensures { result ≡ one_settings s.now }
{
    match take(s, true) {
        Taken::First(_) => record_length(s) == s.len(),
        _ => false,
    }
}

// Whether nothing more of the capture is looked at.
fn is_over(s: State) -> bool
    ensures { result ≡ is_over s.stage }
{
    matches!(s.stage, Stage::Over(_))
}

// The last line, on standard error.
fn report(rt: &HostRuntime, s: State, left: usize) {
    let refusal = match ending(s, left) {
        Ok(()) => 0,
        Err(r) => r.number(),
    };
    say(rt, b"import: ");
    say_number(rt, s.counts.packets);
    say(rt, b" packets, ");
    say_number(rt, s.counts.left);
    say(rt, b" left out, refusal ");
    say_number(rt, refusal as u64);
    say(rt, b"\n");
}

// Reads on behind what is left.
fn refill(
    rt: &HostRuntime,
    from: &mut Source,
    path: &[u8],
    input: &mut [u8],
    output: &[u8],
    j: Job,
) -> Job {
    let left = shift(input, j.at, j.have);
    match from.read(&mut input[left..]) {
        Ok(n) => Job {
            at: 0,
            have: behind(left, n, input.len()),
            over: n == 0,
            ..j
        },
        Err(e) => {
            unreadable(rt, path, e);
            flush(rt, output, j.out);
            Job { done: true, ..j }
        }
    }
}

// The end: what lies in the buffer is written out, and the last line.
fn finish(rt: &HostRuntime, output: &[u8], j: Job) -> Job {
    if flush(rt, output, j.out) && j.at <= j.have {
        report(rt, j.state, j.have - j.at);
    }
    Job { done: true, ..j }
}

// More of the capture is wanted.
fn wanted(
    rt: &HostRuntime,
    from: &mut Source,
    path: &[u8],
    input: &mut [u8],
    output: &[u8],
    j: Job,
) -> Job {
    if j.over || is_over(j.state) {
        return finish(rt, output, j);
    }
    refill(rt, from, path, input, output, j)
}

// One turn, or more input; the output is written out where little room is left.
fn advance(
    rt: &HostRuntime,
    from: &mut Source,
    path: &[u8],
    input: &mut [u8],
    output: &mut [u8],
    j: Job,
) -> Job {
    if j.have < j.at || input.len() < j.have {
        return Job { done: true, ..j };
    }
    let t = turn(&input[j.at..j.have], output, j.out, j.state);
    let next = Job {
        state: t.state,
        at: behind(j.at, t.taken, j.have),
        out: t.out,
        done: false,
        ..j
    };
    if t.wants {
        return wanted(rt, from, path, input, output, next);
    }
    if has_room(output.len(), next.out, 8192) {
        return next;
    }
    Job {
        done: !flush(rt, output, next.out),
        out: 0,
        ..next
    }
}

// The capture, behind the settings record that is in the output already. A proved loop has to end, and nothing says that a file does: so the
// turns are counted, up to a number that no run uses up.
fn import_all(rt: &HostRuntime, from: &mut Source, path: &[u8], output: &mut [u8], out: usize) {
    let mut input = [0u8; 65536];
    let mut j = Job {
        state: start(),
        at: 0,
        have: 0,
        out,
        over: false,
        done: false,
    };
    for _ in 0..u64::MAX {
        if j.done {
            return;
        }
        j = advance(rt, from, path, &mut input, output, j);
    }
}

// Reads the settings record to the front of the buffer; its length, or 0 where the file is none.
fn settings_from(rt: &HostRuntime, path: &[u8], output: &mut [u8]) -> usize {
    match open(rt, path) {
        Ok(file) => {
            let n = settings_record(file, output);
            if n == 0 {
                complain(
                    rt,
                    path,
                    b": not one settings record of 12, 14, 18 or 24 octets\n",
                );
            }
            n
        }
        Err(e) => {
            unreadable(rt, path, e);
            0
        }
    }
}

// The same of a file that is open.
fn settings_record(file: Source, output: &mut [u8]) -> usize {
    let mut from = file;
    let n = read_full(&mut from, output);
    if is_settings(&output[..n]) { n } else { 0 }
}

// The two files that the arguments name.
pub fn import_files(rt: &HostRuntime) {
    if argument_count(rt) != 4 {
        say(
            rt,
            b"bench: import takes two files: 'import SETTINGS CAPTURE'\n",
        );
        return;
    }
    let mut path = [0u8; 4096];
    let mut output = [0u8; 65536];
    let n = argument(rt, 2, &mut path);
    let size = settings_from(rt, &path[..n], &mut output);
    if size == 0 {
        return;
    }
    let m = argument(rt, 3, &mut path);
    match open(rt, &path[..m]) {
        Ok(file) => {
            let mut from = file;
            import_all(rt, &mut from, &path[..m], &mut output, size);
        }
        Err(e) => unreadable(rt, &path[..m], e),
    }
}
