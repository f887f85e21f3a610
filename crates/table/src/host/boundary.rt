// The boundary to C: the four calls with numbers and slices alone, the same on every processor. Crate `table_c` exports them, and
// `include/peer_table.h` declares them.
// Settings in 12, 14, 18 or 24 octets, or refusal 2; at least 24 for the answer, or refusal 1 and nothing is written. The result is the refusal's number.
ghost use Rattle.std.specs.Prelude.{◌≡◌, []};
ghost use Rattle.table.specs.Boundary.{answer_in, crossed, crossed_of, settings_in};
ghost use Rattle.table.specs.Run.{ran_of};
ghost use Rattle.table.specs.declared.rules.event.Event.TheVariants as event;

use crate::host::calls::{ask, pass, receive};
use crate::host::link::link;
use crate::host::run::run;
use crate::host::settings::settings_in;
use crate::rules::answer::Answer;
use octets::answer::write_answer;

// Writes the answer into the octets lent for it, and gives the refusal's number.
pub(crate) fn told(a: Answer, answer: &mut [u8]) -> u64
    ensures { (result ≡ a.refusal) × (answer.new ≡ answer_in a answer.old) }
{
    write_answer(
        answer, a.current, a.code, a.written, a.refusal, a.verdict, a.notice, a.ds, a.state,
    );
    a.refusal as u64
}

// A received frame.
pub fn peer_receive_octets(
    table: &mut [u8],
    settings: &[u8],
    frame: &[u8],
    out: &mut [u8],
    answer: &mut [u8],
) -> u64
    ensures { crossed result table.new out.new answer.new ≡ crossed_of table.old settings.now event.Frame frame.now out.old answer.old }
{
    if answer.len() < 24 { // No room for the answer of a frame.
        return 1;
    }
    let a = receive(table, settings_in(settings), frame, out);
    told(a, answer)
}

// A primitive from our own side.
pub fn peer_ask_octets(
    table: &mut [u8],
    settings: &[u8],
    primitive: u8,
    address: u64,
    code: u16,
    out: &mut [u8],
    answer: &mut [u8],
) -> u64
    ensures { crossed result table.new out.new answer.new ≡ crossed_of table.old settings.now (event.Ask primitive address code) [] out.old answer.old }
{
    if answer.len() < 24 { // No room for the answer of a primitive.
        return 1;
    }
    let a = ask(table, settings_in(settings), primitive, address, code, out);
    told(a, answer)
}

// The links of a device: its address, their count, and they, six octets each.
pub fn peer_links_octets(
    table: &mut [u8],
    settings: &[u8],
    named: &[u8],
    out: &mut [u8],
    answer: &mut [u8],
) -> u64
    ensures { crossed result table.new out.new answer.new ≡ crossed_of table.old settings.now event.Links named.now out.old answer.old }
{
    if answer.len() < 24 { // No room for the answer of links named.
        return 1;
    }
    let a = link(table, settings_in(settings), named, out);
    told(a, answer)
}

// A clock step in TU.
pub fn peer_pass_octets(
    table: &mut [u8],
    settings: &[u8],
    step: u16,
    out: &mut [u8],
    answer: &mut [u8],
) -> u64
    ensures { crossed result table.new out.new answer.new ≡ crossed_of table.old settings.now (event.Clock step) [] out.old answer.old }
{
    if answer.len() < 24 { // No room for the answer of a clock step.
        return 1;
    }
    let a = pass(table, settings_in(settings), step, out);
    told(a, answer)
}

// Many events: records of a bench input, one behind the other. 24 octets for each answer; what each event writes stands in `out` behind what the
// one before wrote. The result is how many were played.
pub fn peer_run_octets(
    table: &mut [u8],
    settings: &[u8],
    records: &[u8],
    out: &mut [u8],
    answers: &mut [u8],
) -> u64
    ensures { crossed result table.new out.new answers.new ≡ ran_of table.old (settings_in settings.now) records.now out.old answers.old }
{
    run(table, settings_in(settings), records, out, answers)
}
