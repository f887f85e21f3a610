// `bench check INPUT LOG`: the run over an input, and its lines beside another maker's log. 02, K13.
ghost use Rattle.bench.specs.Check.{CheckRound, Logged, Ours};

use crate::checker::{Check, at_first, beside, is_told, is_unread, lost, said, with_run};
use crate::outside::{Source, argument, argument_count, flush, open, say, unreadable};
use crate::run::{behind, turn};
use crate::said::write_said;
use rival::Said;
use std::io::Read;

// More of our lines, where all that there are have been compared.
fn ours_on(
    rt: &HostRuntime,
    from: &mut Source,
    path: &[u8],
    table: &mut [u8],
    input: &mut [u8],
    output: &mut [u8],
    c: Check,
) -> Check
    ensures { Ours table.old input.old output.old c table.new input.new output.new result }
{
    let mut r = c.run;
    if c.mark < r.out {
        return c;
    }
    if r.done {
        return c;
    }
    r.out = 0;
    let t = turn(from, table, input, output, r);
    if is_unread(t) {
        unreadable(rt, path, from.failure());
        return lost(c);
    }
    if output.len() < t.out {
        return lost(c);
    }
    with_run(c, t)
}

// More of the log, where all that there is has been compared.
fn log_on(rt: &HostRuntime, from: &mut Source, path: &[u8], log: &mut [u8], c: Check) -> Check
    ensures { Logged log.old c log.new result }
{
    if c.at < c.have {
        return c;
    }
    if c.over {
        return c;
    }
    match from.read(log) {
        Ok(n) => Check {
            at: 0,
            have: behind(0, n, log.len()),
            over: n == 0,
            ..c
        },
        Err(e) => {
            unreadable(rt, path, e);
            lost(c)
        }
    }
}

// Prints the one line.
fn tell(rt: &HostRuntime, v: Said) {
    let mut line = [0u8; 64];
    let n = write_said(&mut line, 0, v);
    flush(rt, &line, n);
}

// A round: more of our lines and more of the log where they are wanted, and the two beside each other.
fn check_round(
    rt: &HostRuntime,
    from: &mut Source,
    path: &[u8],
    other: &mut Source,
    other_path: &[u8],
    table: &mut [u8],
    input: &mut [u8],
    output: &mut [u8],
    log: &mut [u8],
    c: Check,
) -> Check
    ensures { CheckRound table.old input.old output.old log.old c table.new input.new output.new log.new result }
{
    let a = ours_on(rt, from, path, table, input, output, c);
    if a.broken {
        return a;
    }
    let b = log_on(rt, other, other_path, log, a);
    if b.broken {
        return b;
    }
    beside(output, log, b)
}

// The two files, open. A proved loop has to end, and nothing says that a file does: so the turns are counted, up to a number that no check
// uses up.
fn check_all(
    rt: &HostRuntime,
    from: &mut Source,
    path: &[u8],
    other: &mut Source,
    other_path: &[u8],
) {
    let mut table = [0u8; 1536];
    let mut input = [0u8; 65536];
    let mut output = [0u8; 65536];
    let mut log = [0u8; 65536];
    let mut c = at_first();
    for _ in 0..u64::MAX {
        c = check_round(
            rt,
            from,
            path,
            other,
            other_path,
            &mut table,
            &mut input,
            &mut output,
            &mut log,
            c,
        );
        if c.broken {
            return;
        }
        if is_told(c) {
            tell(rt, said(&output, &log, c));
            return;
        }
    }
}

// The two files that the arguments name.
pub fn check_files(rt: &HostRuntime) {
    if argument_count(rt) != 4 {
        say(rt, b"bench: check takes two files: 'check INPUT LOG'\n");
        return;
    }
    let mut path = [0u8; 4096];
    let n = argument(rt, 2, &mut path);
    match open(rt, &path[..n]) {
        Ok(file) => check_with(rt, file, &path[..n]),
        Err(e) => unreadable(rt, &path[..n], e),
    }
}

// The same, with the input open.
fn check_with(rt: &HostRuntime, file: Source, path: &[u8]) {
    let mut other_path = [0u8; 4096];
    let m = argument(rt, 3, &mut other_path);
    match open(rt, &other_path[..m]) {
        Ok(log) => {
            let mut from = file;
            let mut other = log;
            check_all(rt, &mut from, path, &mut other, &other_path[..m]);
        }
        Err(e) => unreadable(rt, &other_path[..m], e),
    }
}
