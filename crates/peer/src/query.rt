// An SA Query to a peer that may be asking in another's name: its cases, its time, and how the clock moves it.
ghost use Rattle.std.specs.Prelude.{◌≡◌, ◌-◌, nat_le};
ghost use Rattle.peer.specs.Query.{is_due, is_running, is_timed_out, query_in, query_left, query_number, query_of, query_report, query_timed, reaches, running_number, running_of, running_report, running_timed, sent_query, stepped_of, unmarked_of};

use crate::record::Record;
use crate::settings::Settings;

// No Option around two cases: `query_number` numbers the three, and `query_of` gives none for a number of none.
#[derive(Clone, Copy, PartialEq, Eq)]
pub enum Query {
    None,
    // TU left of it, and whether its request is to be sent.
    Running { left: u16, due: bool },
    // It was not answered in time: the mark that lets the next request pass.
    TimedOut,
}

// The kinds of a report of a query: numbers, as `query_report` promises one, 0 for none, and it goes into the report as it is.
pub const RETRY: u8 = 4;

pub const MAXIMUM: u8 = 5;

#[tactic(auto, unfolding(crate::specs::Query::running_number))]
fn running_number(due: bool) -> u8
    ensures { result ≡ running_number due }
{
    if due { 2 } else { 1 }
}

// This and `query_of` are no `From`: the pages and the specs name both, and a query comes of a number and a time.
// The number of a query, as it is shown: 0 none, 1 running, 2 running and due, 3 timed out.
pub fn query_number(q: Query) -> u8
    ensures { result ≡ query_number q }
{
    match q {
        Query::None => 0,
        Query::Running { due, .. } => running_number(due),
        Query::TimedOut => 3,
    }
}

// TU left of a query, 0 where none runs.
pub fn query_left(q: Query) -> u16
    ensures { result ≡ query_left q }
{
    match q {
        Query::Running { left, .. } => left,
        _ => 0,
    }
}

// The query of a number and a time left; none where it is no query's number.
#[tactic(auto, unfolding(crate::specs::Query::query_of))]
pub fn query_of(number: u32, left: u16) -> Query
    ensures { result ≡ query_of number left }
{
    match number {
        1 => Query::Running { left, due: false },
        2 => Query::Running { left, due: true },
        3 => Query::TimedOut,
        _ => Query::None,
    }
}

pub fn is_running(q: Query) -> bool
    ensures { result ≡ is_running q }
{
    matches!(q, Query::Running { .. })
}

// Whether the request of a query is to be sent.
pub fn is_due(q: Query) -> bool
    ensures { result ≡ is_due q }
{
    matches!(q, Query::Running { due: true, .. })
}

pub fn is_timed_out(q: Query) -> bool
    ensures { result ≡ is_timed_out q }
{
    q == Query::TimedOut
}

// What a state leaves of a query: it does not outlive State 4.
#[tactic(auto, unfolding(crate::specs::Query::query_in))]
pub fn query_in(state: u8, q: Query) -> Query
    ensures { result ≡ query_in state q }
{
    if state == Record::STATE_4 {
        q
    } else {
        Query::None
    }
}

// The query that runs after a request was heard: the one that runs, or one that starts.
#[tactic(auto, unfolding(crate::specs::Query::running_of))]
pub fn running(s: Settings, q: Query) -> Query
    ensures { result ≡ running_of s q }
{
    if is_running(q) {
        q
    } else {
        Query::Running {
            left: s.maximum,
            due: true,
        }
    }
}

// Its identifier: the next one where it starts.
#[tactic(auto, unfolding(crate::specs::Query::stepped_of))]
pub fn stepped(q: Query, identifier: u16) -> u16
    ensures { result ≡ stepped_of q identifier }
{
    if is_running(q) {
        identifier
    } else {
        identifier.wrapping_add(1)
    }
}

// A query without its mark.
#[tactic(auto, unfolding(crate::specs::Query::unmarked_of))]
pub fn unmarked(q: Query) -> Query
    ensures { result ≡ unmarked_of q }
{
    if is_timed_out(q) { Query::None } else { q }
}

// A query whose request was sent.
pub fn sent_query(q: Query) -> Query
    ensures { result ≡ sent_query q }
{
    match q {
        Query::Running { left, .. } => Query::Running { left, due: false },
        _ => q,
    }
}

// TU since a query started.
fn elapsed(maximum: u16, left: u16) -> u16
    ensures { result ≡ maximum - left }
{
    maximum.saturating_sub(left)
}

// Whether a step reaches a multiple of the retry time, counted from the start.
#[tactic(auto, unfolding(crate::specs::Query::reaches))]
fn reached(s: Settings, left: u16, d: u16) -> bool
    ensures { result ≡ reaches s left d }
{
    let retry = s.retry as u32;
    let since = elapsed(s.maximum, left) as u32;
    retry != 0 && since / retry < (since + d as u32) / retry
}

// Whether a step reaches the maximum.
fn is_over(left: u16, d: u16) -> bool
    ensures { result ≡ nat_le left d }
{
    left <= d
}

#[tactic(auto, unfolding(crate::specs::Query::running_timed))]
fn running_timed(s: Settings, left: u16, due: bool, d: u16) -> Query
    ensures { result ≡ running_timed s left due d }
{
    if is_over(left, d) {
        return Query::TimedOut;
    }
    Query::Running {
        left: left - d,
        due: due || reached(s, left, d),
    }
}

// A query after a clock step.
pub fn query_timed(s: Settings, q: Query, d: u16) -> Query
    ensures { result ≡ query_timed s q d }
{
    match q {
        Query::Running { left, due } => running_timed(s, left, due, d),
        _ => q,
    }
}

#[tactic(auto, unfolding(crate::specs::Query::running_report))]
fn running_report(s: Settings, left: u16, d: u16) -> u8
    ensures { result ≡ running_report s left d }
{
    if is_over(left, d) {
        return MAXIMUM;
    }
    if reached(s, left, d) { RETRY } else { 0 }
}

// The kind of report that a clock step makes of a query, or 0.
pub fn query_report(s: Settings, q: Query, d: u16) -> u8
    ensures { result ≡ query_report s q d }
{
    match q {
        Query::Running { left, .. } => running_report(s, left, d),
        _ => 0,
    }
}
