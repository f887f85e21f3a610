// The importer of captures, one turn at a time: it is handed octets of the file and a state, and puts records out. No packet that is left out
// and no gap is ever held whole.
ghost use Rattle.std.specs.Prelude.{◌≡◌, MatchResult};
ghost use Rattle.bench.specs.Importer.{start_of, head_front, end_at, ending_of, refusal_number, turned_of, Turned};

use crate::capture::{is_big, is_linked, is_numbered};
use crate::packet::{between, passing};
use crate::passed::{Clock, Counts};
use crate::text::has_room;

// Why an import comes to no good end, each by its number. Earlier records stand.
#[derive(Clone, Copy, PartialEq, Eq)]
pub enum Refusal {
    // The file does not begin with the number of a capture.
    OtherNumber,
    // Its link type is another.
    OtherLink,
    // Its header or a packet is cut.
    CutShort,
    // By any number. No turn comes to it; a state that is handed in may have it, and the laws of a turn and of the end hold of it too.
    Other(u8),
}

// Where the importer stands in the file.
#[derive(Clone, Copy)]
pub enum Stage {
    // Before its header.
    Head,
    // Between packets.
    Between,
    // Within a packet that is left out, with so many octets of it to pass.
    Passing(u32),
    // Done, with a refusal.
    Over(Refusal),
}

#[derive(Clone, Copy)]
pub struct State {
    pub stage: Stage,
    // Numbers have their highest octet first.
    pub big: bool,
    pub clock: Clock,
    pub counts: Counts,
}

// After a turn: the octets taken, where the output ends, and whether more octets are wanted.
// `wants` beside the rest, as `Front` has it: the octets taken count either way.
#[derive(Clone, Copy)]
pub struct After {
    pub state: State,
    pub taken: usize,
    pub out: usize,
    pub wants: bool,
}

// Before any octet.
pub fn start() -> State
    ensures { result ≡ start_of }
{
    State {
        stage: Stage::Head,
        big: false,
        clock: Clock {
            started: false,
            latest: 0,
            since: 0,
        },
        counts: Counts {
            packets: 0,
            left: 0,
        },
    }
}

// The file's header.
fn head(xs: &[u8], at: usize, s: State) -> After
    ensures { result ≡ turned_of at (head_front s xs.now) }
{
    if xs.len() < 24 {
        return After {
            state: s,
            taken: 0,
            out: at,
            wants: true,
        };
    }
    if !is_numbered(xs) {
        return After {
            state: State {
                stage: Stage::Over(Refusal::OtherNumber),
                big: false,
                ..s
            },
            taken: 24,
            out: at,
            wants: false,
        };
    }
    if !is_linked(xs) {
        return After {
            state: State {
                stage: Stage::Over(Refusal::OtherLink),
                big: false,
                ..s
            },
            taken: 24,
            out: at,
            wants: false,
        };
    }
    After {
        state: State {
            stage: Stage::Between,
            big: is_big(xs),
            ..s
        },
        taken: 24,
        out: at,
        wants: false,
    }
}

// One turn over the octets at hand, with the output filled up to `at`.
pub fn turn(xs: &[u8], out: &mut [u8], at: usize, s: State) -> After
    ensures { Turned s xs.now at out.old result out.new }
{
    if !has_room(out.len(), at, 4108) {
        return After {
            state: s,
            taken: 0,
            out: at,
            wants: false,
        };
    }
    match s.stage {
        Stage::Head => head(xs, at, s),
        Stage::Between => between(xs, out, at, s),
        Stage::Passing(n) => passing(xs, at, s, n),
        Stage::Over(_) => After {
            state: s,
            taken: 0,
            out: at,
            wants: true,
        },
    }
}

// How it ends, once the input has come to its end with so many octets left that no turn takes.
pub fn ending(s: State, left: usize) -> Result<(), Refusal>
    ensures outcome { result ≡ ending_of s.stage left }
    ensures number { MatchResult result (λ ok. end_at s.stage left ≡ 0) (λ r. end_at s.stage left ≡ refusal_number r) }
{
    match s.stage {
        Stage::Head => Err(Refusal::CutShort),
        Stage::Between => {
            if left == 0 {
                Ok(())
            } else {
                Err(Refusal::CutShort)
            }
        }
        Stage::Passing(_) => Err(Refusal::CutShort),
        Stage::Over(r) => Err(r),
    }
}

impl Refusal {
    pub fn number(self) -> u8
        ensures { result ≡ refusal_number self }
    {
        match self {
            Refusal::OtherNumber => 1,
            Refusal::OtherLink => 2,
            Refusal::CutShort => 3,
            Refusal::Other(n) => n,
        }
    }
}
