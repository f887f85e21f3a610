// The state of `bench check`: the run over the input, the comparison, and what of our lines and of the log is still to be compared.
ghost use Rattle.std.specs.Prelude.{◌≡◌, true};
ghost use Rattle.rival.specs.Beside.{said_by};
ghost use Rattle.bench.specs.Check.{beside_on, check_at_first, is_settled, is_unread, part_of, with_run};

use crate::run::{Prints, Run, behind};
use rival::{Said, Standing, compare, ending, is_settled, start};

// Where a check stands. Of the output buffer the octets from `mark` on, as far as it is filled, are still to be compared; of the log's buffer
// those from `at` to `have`.
#[derive(Clone, Copy)]
pub struct Check {
    pub run: Run,
    pub standing: Standing,
    pub mark: usize,
    pub at: usize,
    pub have: usize,
    // The log came to its end.
    pub over: bool,
    // A file can't be read.
    pub broken: bool,
}

pub(crate) fn at_first() -> Check
    ensures { result ≡ check_at_first }
{
    Check {
        run: Run::new(Prints::Lines),
        standing: start(),
        mark: 0,
        at: 0,
        have: 0,
        over: false,
        broken: false,
    }
}

// The octets from `at` to `have`; none where these are no places of s.
fn part(s: &[u8], at: usize, have: usize) -> &[u8]
    ensures { result.now ≡ part_of at have s.now }
{
    if have < at {
        return &s[..0];
    }
    if s.len() < have {
        return &s[..0];
    }
    &s[at..have]
}

// Whether a run that had no lines pending could not read on: it is done, neither at its input's end nor with a line that says why.
pub(crate) fn is_unread(r: Run) -> bool
    ensures { result ≡ is_unread r }
{
    r.done && !r.over && r.out == 0
}

// The run went on to r, whose lines are all still to be compared.
pub(crate) fn with_run(c: Check, r: Run) -> Check
    ensures { result ≡ with_run c r }
{
    Check {
        run: r,
        mark: 0,
        ..c
    }
}

// The check breaks off.
pub(crate) fn lost(c: Check) -> Check
    ensures { result.broken ≡ true }
{
    Check { broken: true, ..c }
}

// The two beside each other.
pub(crate) fn beside(output: &[u8], log: &[u8], c: Check) -> Check
    ensures { result ≡ beside_on output.now log.now c }
{
    let r = c.run;
    let p = compare(
        part(output, c.mark, r.out),
        part(log, c.at, c.have),
        c.standing,
    );
    Check {
        standing: p.standing,
        mark: behind(c.mark, p.taken, r.out),
        at: behind(c.at, p.taken, c.have),
        ..c
    }
}

// Whether nothing that may still come changes what is said.
pub(crate) fn is_told(c: Check) -> bool
    ensures { result ≡ is_settled c }
{
    let r = c.run;
    is_settled(c.standing, r.out <= c.mark, r.done, c.have <= c.at, c.over)
}

// What is said, once nothing changes it.
pub(crate) fn said(output: &[u8], log: &[u8], c: Check) -> Said
    ensures { result ≡ said_by c.standing (part_of c.mark c.run.out output.now) (part_of c.at c.have log.now) }
{
    ending(
        part(output, c.mark, c.run.out),
        part(log, c.at, c.have),
        c.standing,
    )
}
