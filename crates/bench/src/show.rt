// What the trace shows of an event, behind its line in the output buffer.
ghost use Rattle.std.specs.Prelude.{◌≡◌};
ghost use Rattle.bench.specs.Output.{up_to, put_all};
ghost use Rattle.bench.specs.Trace.{octets_lines, current_lines, has_query, links_lines, place_lines, query_lines, table_lines, trace_lines};

use crate::trace::{write_current, write_links, write_octets, write_place, write_query};
use peer::query::query_number;
use peer::record::Record;
use peer::turn::Told;
use table::rules::answer::Answer;

// The octets that an event wrote.
pub(crate) fn trace_octets(output: &mut [u8], out: usize, written: u16, scratch: [u8; 256]) -> usize
    ensures { up_to output.new result ≡ put_all (octets_lines written scratch) (up_to output.old out) }
{
    let n = written as usize;
    if n == 0 {
        return out;
    }
    if 256 < n {
        return out;
    }
    write_octets(output, out, &scratch[..n])
}

// The current AP of a reassociation's indication.
pub(crate) fn trace_current(output: &mut [u8], out: usize, answer: Answer) -> usize
    ensures { up_to output.new result ≡ put_all (current_lines answer) (up_to output.old out) }
{
    if answer.notice != Told::REASSOCIATION_INDICATION {
        return out;
    }
    write_current(output, out, answer.current)
}

// Whether there is a query, or was.
fn has_query(p: Record) -> bool
    ensures { result ≡ has_query p }
{
    p.identifier != 0 || query_number(p.query) != 0
}

// The query of a place, where there is one, or was.
fn trace_query(output: &mut [u8], out: usize, place: u8, p: Record) -> usize
    ensures { up_to output.new result ≡ put_all (query_lines place p) (up_to output.old out) }
{
    if has_query(p) {
        write_query(output, out, place, p)
    } else {
        out
    }
}

// The links of a place, where there are any.
fn trace_links(output: &mut [u8], out: usize, place: u8, p: Record) -> usize
    ensures { up_to output.new result ≡ put_all (links_lines place p) (up_to output.old out) }
{
    if p.links.is_none() {
        out
    } else {
        write_links(output, out, place, p)
    }
}

// A place that is not free.
pub(crate) fn trace_place(output: &mut [u8], out: usize, place: u8, p: Record) -> usize
    ensures { up_to output.new result ≡ put_all (place_lines place p) (up_to output.old out) }
{
    if p.is_free() {
        return out;
    }
    let next = write_place(&mut *output, out, place, p);
    let after = trace_links(&mut *output, next, place, p);
    trace_query(output, after, place, p)
}

// Every place, in rising order.
fn trace_table(output: &mut [u8], out: usize, t: [Record; 32]) -> usize
    ensures { up_to output.new result ≡ put_all (table_lines 0 t) (up_to output.old out) }
{
    let mut at = out;
    for i in 0..32 {
        at = trace_place(&mut *output, at, i as u8, t[i]);
    }
    at
}

// What the trace shows behind an event's line; gives where the next line goes.
pub(crate) fn traced(
    output: &mut [u8],
    out: usize,
    answer: Answer,
    scratch: [u8; 256],
    t: [Record; 32],
) -> usize
    ensures { up_to output.new result ≡ put_all (trace_lines answer scratch t) (up_to output.old out) }
{
    let at = trace_octets(&mut *output, out, answer.written, scratch);
    let next = trace_current(&mut *output, at, answer);
    trace_table(output, next, t)
}
