// A clock step: every time falls, exchanges end with a report, and places are freed.
ghost use Rattle.std.specs.Prelude.{◌≡◌, ◌≤◌, length};
ghost use Rattle.std.proofs.lemmas.List.Edits.{sets};
ghost use Rattle.table.specs.Pass.{reports_of, clocked_of, passed_of, passed_in};
ghost use Rattle.table.specs.Ruled.{ticked_in, ticked_of};

use crate::records::fit::well_formed;
use crate::rules::answer::{Answer, Stepped};
use crate::rules::pass::put_report;
use peer::record::Record;
use peer::settings::Settings;
use peer::tick::tick;

// The table after a clock step, and how many octets of reports were written.
#[derive(Clone, Copy)]
pub struct Clocked {
    pub table: [Record; 32],
    pub written: u16,
}

fn clock(s: Settings, t: [Record; 32], d: u16, out: &mut [u8]) -> Clocked
    requires { 256 ≤ length out.old }
    ensures { (result ≡ clocked_of s t d) × (out.new ≡ sets out.old 0 (reports_of s d 0 t)) }
{
    let mut next = t;
    let mut n = 0;
    for (i, p) in next.iter_mut().enumerate() {
        let q = tick(s, *p, d);
        n = put_report(&mut *out, n, i as u8, q.report, p.address);
        *p = q.peer;
    }
    Clocked {
        table: next,
        written: n as u16,
    }
}

// A clock step once refusals 1 and 2 do not apply.
pub(crate) fn ticked(s: Settings, t: [Record; 32], d: u16, out: &mut [u8]) -> Stepped
    requires { 256 ≤ length out.old }
    ensures { (result ≡ ticked_of s t d) × (out.new ≡ ticked_in s t d out.old) }
{
    if d == 0 {
        return Stepped {
            table: t,
            answer: Answer::refusal(3),
        };
    }
    let c = clock(s, t, d, out);
    let table = c.table;
    Stepped {
        table,
        answer: Answer::refusal(0).count(c.written),
    }
}

// A clock step of d TU: the table after it, the answer, and the reports in the buffer.
pub fn pass(s: Settings, t: [Record; 32], d: u16, out: &mut [u8]) -> Stepped
    ensures { (result ≡ passed_of s t d (length out.old)) × (out.new ≡ passed_in s t d out.old) }
{
    if out.len() < 256 {
        return Stepped {
            table: t,
            answer: Answer::refusal(1),
        };
    }
    if !well_formed(s, t) {
        return Stepped {
            table: t,
            answer: Answer::refusal(2),
        };
    }
    ticked(s, t, d, out)
}
