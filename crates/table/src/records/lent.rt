// The table lent as a slice of records: thin functions over the step, and over play, that take them by value.
ghost use Rattle.std.specs.Prelude.{◌≡◌, length};
ghost use Rattle.table.specs.Lent.{malformed_of, lent_answer, lent_table, lent_in};
ghost use Rattle.table.specs.Ruled.{ruled_lent_answer, ruled_lent_table, ruled_lent_in};

use crate::rules::answer::Answer;
use crate::rules::event::{Event, room};
use peer::record::Record;
use peer::settings::Settings;

// How many records a table has.
const PLACES: usize = 32;

// What is answered where not 32 records are lent.
pub(crate) fn malformed(e: Event, lent: usize) -> Answer
    ensures { result ≡ malformed_of e lent }
{
    if lent < room(e) {
        return Answer::refusal(1);
    }
    Answer::refusal(2)
}

fn free_table() -> [Record; 32] {
    [Record::free(); 32]
}

// The records lent, by value.
pub(crate) fn load(t: &[Record]) -> [Record; 32]
    requires { length t.now ≡ 32 }
    ensures { result ≡ t.now }
{
    let mut a = free_table();
    // One by one: with `copy_from_slice` here and in `store` a traced event took 11 % more instructions.
    for i in 0..32 {
        a[i] = t[i];
    }
    a
}

// The records put back.
pub(crate) fn store(t: &mut [Record], a: [Record; 32])
    requires { length t.old ≡ 32 }
    ensures { t.new ≡ a }
{
    // One by one, as in `load`.
    for i in 0..32 {
        t[i] = a[i];
    }
}

// One event over the records lent: the answer, the records after it, and what it writes into the buffer.
// Two thin functions, as document 01 asks: a closure for the one call that differs would be as long as either.
pub fn step(t: &mut [Record], s: Settings, e: Event, frame: &[u8], out: &mut [u8]) -> Answer
    ensures { (result ≡ lent_answer t.old s e frame.now out.old) × ((t.new ≡ lent_table t.old s e frame.now out.old) × (out.new ≡ lent_in t.old s e frame.now out.old)) }
{
    if t.len() != PLACES {
        return malformed(e, out.len());
    }
    let done = crate::records::step::step(s, load(t), e, frame, out);
    let table = done.table;
    store(t, table);
    done.answer
}

// The same by the rules alone: settings and records are not checked.
pub fn play(t: &mut [Record], s: Settings, e: Event, frame: &[u8], out: &mut [u8]) -> Answer
    ensures { (result ≡ ruled_lent_answer t.old s e frame.now out.old) × ((t.new ≡ ruled_lent_table t.old s e frame.now out.old) × (out.new ≡ ruled_lent_in t.old s e frame.now out.old)) }
{
    if t.len() != PLACES {
        return malformed(e, out.len());
    }
    let done = crate::records::play::play(s, load(t), e, frame, out);
    let table = done.table;
    store(t, table);
    done.answer
}
