// What the rules ask of the whole table: how many have joined or are about to, and, at a station, which one has.
ghost use Rattle.std.specs.Prelude.{◌≡◌, false, ◌&&◌, ◌||◌, leb, ◌+◌, ◌<◌, List};
ghost use Rattle.octets.specs.Pick.{pick};
ghost use Rattle.peer.specs.Settings.{role_answers};
ghost use Rattle.table.specs.Others.{associated_of, others_of};
ghost use Rattle.table.specs.Fit.{crowd_of};
ghost use Rattle.peer.specs.declared.record.Record.{Record as Peer};

use peer::refuse::Others;
use peer::settings::{Settings, answers};

// How many records are in State 3 or 4, and how many (re)associations are under way.
#[derive(Clone, Copy)]
pub struct Counts {
    pub joined: usize,
    pub associating: usize,
}

// A count, one more where a test holds.
pub(crate) fn counted(n: usize, b: bool) -> usize
    requires { n < 32 }
    ensures { result ≡ n + pick b 1 0 }
{
    if b { n + 1 } else { n }
}

// The address of the first record in State 3 or 4 from a place on, by whether the record there is, and by that of the places behind.
pub(crate) fn first_joined(joined: bool, address: u64, behind: u64) -> u64
    ensures { result ≡ pick joined address behind }
{
    if joined { address } else { behind }
}

// Whether a station has at most one record in State 3 or 4 and at most one (re)association under way.
pub(crate) fn sparse(s: Settings, c: Counts) -> bool
    ensures { result ≡ (role_answers s.role || (leb c.joined 1 && leb c.associating 1)) }
{
    answers(s.role) || c.joined <= 1 && c.associating <= 1
}

// No peer is in State 3 or 4, none has a (re)association under way.
pub(crate) fn nobody() -> Others
    ensures { result ≡ record { associated = 0; busy = false } }
{
    Others {
        associated: 0,
        busy: false,
    }
}

// From the address of the first record in State 3 or 4, and the counts.
pub(crate) fn others(s: Settings, associated: u64, crowd: Counts) -> Others
    ensures { (t : List Peer) → associated ≡ associated_of t → crowd ≡ crowd_of t → result ≡ others_of s t }
{
    if answers(s.role) {
        return nobody();
    }
    Others {
        associated,
        busy: 0 < crowd.associating,
    }
}
