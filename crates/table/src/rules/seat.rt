// A peer's turn in the table: where its record goes, and what is said. None of this looks at a table: an event stores at most one record.
ghost use Rattle.std.specs.Prelude.{◌≡◌, List, length};
ghost use Rattle.peer.specs.declared.record.Record.{Record as Peer};
ghost use Rattle.table.specs.Answer.{said_length, said_in, settled_of, refused_of, count_answer};
ghost use Rattle.table.specs.Seat.{met_of, seated_of, stranger_of, starts_of, newcomer_of, turn_in};

use crate::rules::answer::Answer;
use octets::frame::write;
use peer::exchange::under_way;
use peer::record::Record;
use peer::reply::Reply;
use peer::turn::Turn;

// What an event makes of a table, and what is said.
// Place, record and `sole` side by side, as `met_of` reads them.
#[derive(Clone, Copy)]
pub struct Change {
    // Where the record is stored, if it is.
    pub place: Option<usize>,
    pub peer: Record,
    // Any other record in State 3 or 4 goes to State 2.
    pub sole: bool,
    pub answer: Answer,
    pub reply: Reply,
}

// The table stays.
fn kept(answer: Answer, reply: Reply) -> Change
    ensures { (t : List Peer) → met_of t result ≡ record { table = t; answer = answer; reply = reply } }
{
    Change {
        place: None,
        peer: Record::free(),
        sole: false,
        answer,
        reply,
    }
}

// The table stays, and nothing is said.
pub(crate) fn settled(answer: Answer) -> Change
    ensures { (t : List Peer) → met_of t result ≡ settled_of t answer }
{
    kept(answer, None)
}

pub(crate) fn refused(number: u8) -> Change
    ensures { (t : List Peer) → met_of t result ≡ refused_of t number }
{
    settled(Answer::refusal(number))
}

// A turn of the peer at a place.
fn seated(i: usize, turn: Turn) -> Change
    ensures { (t : List Peer) → met_of t result ≡ seated_of t i turn }
{
    Change {
        place: Some(i),
        peer: turn.peer,
        sole: turn.sole,
        answer: Answer::turn(turn, turn.peer.state),
        reply: turn.reply,
    }
}

// A turn of a peer that has no record and gets none.
fn stranger(turn: Turn) -> Change
    ensures { (t : List Peer) → met_of t result ≡ stranger_of t turn }
{
    kept(Answer::turn(turn, 0), turn.reply)
}

// Whether a turn leaves an exchange under way, or links, so that a stranger needs a record.
pub fn starts(turn: Turn) -> bool
    ensures { result ≡ starts_of turn }
{
    under_way(turn.peer.exchange) != 0 || !turn.peer.links.is_none()
}

// A turn of a peer that has no record: a new one takes the lowest free place; where there is none, the other turn.
fn newcomer(free: Option<usize>, turn: Turn, full: Turn) -> Change
    ensures { (t : List Peer) → met_of t result ≡ newcomer_of t free turn full }
{
    if starts(turn) {
        match free {
            None => stranger(full),
            Some(i) => seated(i, turn),
        }
    } else {
        stranger(turn)
    }
}

// A turn of the peer found at a place, or nowhere, with the lowest free place.
pub(crate) fn turn_in(free: Option<usize>, at: Option<usize>, turn: Turn, full: Turn) -> Change
    ensures { (t : List Peer) → met_of t result ≡ turn_in t at free turn full }
{
    match at {
        None => newcomer(free, turn, full),
        Some(i) => seated(i, turn),
    }
}

// Writes a reply, and gives how many octets it has.
fn say(reply: Reply, out: &mut [u8]) -> u16
    ensures { (result ≡ said_length reply (length out.old)) × (out.new ≡ said_in reply out.old) }
{
    match reply {
        None => 0,
        Some(f) => write(out, f),
    }
}

// The answer once the reply is written.
pub fn answered(answer: Answer, reply: Reply, out: &mut [u8]) -> Answer
    ensures { (result ≡ count_answer answer (said_length reply (length out.old))) × (out.new ≡ said_in reply out.old) }
{
    answer.count(say(reply, out))
}
