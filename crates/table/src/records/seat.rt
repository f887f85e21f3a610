// A change in a table of records by value.
ghost use Rattle.std.specs.Prelude.{◌≡◌, length};
ghost use Rattle.table.specs.Answer.{said_in, stepped_of};
ghost use Rattle.table.specs.Seat.{met_of, peer_of, stored_in};

use crate::records::places::{look, part_all, store};
use crate::rules::answer::{Met, Stepped};
use crate::rules::seat::{Change, answered};
use peer::record::Record;

// The table with a record stored at a place, and any other parted where it is so.
fn stored(t: [Record; 32], i: usize, p: Record, sole: bool) -> [Record; 32]
    ensures { result ≡ stored_in t sole i p }
{
    if sole {
        store(part_all(t), i, p)
    } else {
        store(t, i, p)
    }
}

// The record of a peer, or a fresh one.
#[tactic(auto, unfolding(crate::specs::Seat::peer_of))]
pub fn peer_at(t: [Record; 32], at: Option<usize>, address: u64) -> Record
    ensures { result ≡ peer_of t at address }
{
    match at {
        None => Record::fresh(address),
        Some(i) => look(t, i),
    }
}

// A table with a change.
pub fn met(t: [Record; 32], c: Change) -> Met
    ensures { result ≡ met_of t c }
{
    let table = match c.place {
        None => t,
        Some(i) => stored(t, i, c.peer, c.sole),
    };
    Met {
        table,
        answer: c.answer,
        reply: c.reply,
    }
}

// Table and answer once the reply is written.
pub fn finish(m: Met, out: &mut [u8]) -> Stepped
    ensures { (result ≡ stepped_of m (length out.old)) × (out.new ≡ said_in m.reply out.old) }
{
    let table = m.table;
    Stepped {
        table,
        answer: answered(m.answer, m.reply, out),
    }
}
