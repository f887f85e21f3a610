// Two streams of octets beside each other, our lines and another maker's: how far they are alike, and what is said of the two. 02, K13.
#![tactic(auto)]

ghost use Rattle.std.specs.Prelude.{◌≡◌, get_or};
ghost use Rattle.rival.specs.Beside.{alone_of, beside_of, compared_of, field_after, other_field, said_by, standing_at_first};
ghost use Rattle.rival.specs.Log.{one_more};
ghost use Rattle.rival.specs.Pieces.{settled_of};

const LF: u8 = 10;

const BLANK: u8 = 32;
// A line's fields. The number behind the last one stands for the line's form. Numbers and no enum: they are counted on from blank to blank.
const FORM: u64 = 8;

// Where a comparison stands.
#[derive(Clone, Copy)]
pub struct Standing {
    // The lines that both have.
    pub lines: u64,
    // The field reached in the line behind them; where the two came apart, the field in which they did.
    pub field: u64,
    // An octet of that line was passed.
    pub inside: bool,
    // Both came apart. No enum around the others: `lines` and `field` are read on both sides of it.
    pub apart: bool,
}

// What is said of a log.
#[derive(Clone, Copy)]
pub enum Said {
    Right,
    // The event, and the field: 0 to 7, or 8, the form.
    Differs(u64, u64),
    // The last event that both have.
    Short(u64),
    Long(u64),
}

// Where a comparison got to, and how many octets of both it took.
#[derive(Clone, Copy)]
pub struct Passed {
    pub standing: Standing,
    pub taken: usize,
}

// Before the first octet of both.
#[tactic(auto, unfolding(crate::specs::Beside::standing_at_first))]
pub fn start() -> Standing
    ensures { result ≡ standing_at_first }
{
    Standing {
        lines: 0,
        field: 0,
        inside: false,
        apart: false,
    }
}

// One more, as far as `most`.
#[tactic(auto, using(octets::proofs::Branch::tests), unfolding(crate::specs::Log::one_more))]
fn one_more(n: u64, most: u64) -> u64
    ensures { result ≡ one_more most n }
{
    if n < most { n + 1 } else { most }
}

// The number of the line behind those that both have.
fn next_line(lines: u64) -> u64
    ensures { result ≡ one_more 18446744073709551615 lines }
{
    one_more(lines, u64::MAX)
}

// The field in which two lines differ whose first octets that differ are `ours` and `theirs`, in that field of ours.
#[tactic(auto, using(octets::proofs::Branch::tests), unfolding(crate::specs::Beside::other_field))]
fn other_field(field: u64, ours: u8, theirs: u8) -> u64
    ensures { result ≡ other_field field ours theirs }
{
    match (ours, theirs) {
        (LF, LF | BLANK) => FORM,
        (BLANK, LF) => one_more(field, FORM),
        _ => field,
    }
}

// The field behind an octet of the line.
#[tactic(auto, using(octets::proofs::Branch::tests), unfolding(crate::specs::Beside::field_after))]
fn field_after(field: u64, octet: u8) -> u64
    ensures { result ≡ field_after field octet }
{
    if octet == BLANK {
        one_more(field, FORM)
    } else {
        field
    }
}

// An octet of each beside the other.
#[tactic(auto, using(octets::proofs::Branch::tests), unfolding(crate::specs::Beside::beside_of, crate::specs::Beside::standing_at_first))]
fn beside(s: Standing, ours: u8, theirs: u8) -> Standing
    ensures { result ≡ beside_of s ours theirs }
{
    if ours != theirs {
        return Standing {
            field: other_field(s.field, ours, theirs),
            apart: true,
            ..s
        };
    }
    if ours == LF {
        return Standing {
            lines: next_line(s.lines),
            ..start()
        };
    }
    Standing {
        field: field_after(s.field, ours),
        inside: true,
        apart: false,
        ..s
    }
}

// Takes octets of both, one beside the other, as long as both have one and they are alike.
pub fn compare(ours: &[u8], theirs: &[u8], s: Standing) -> Passed
    ensures { result ≡ compared_of s ours.now theirs.now }
{
    let mut standing = s;
    let mut taken = 0;
    for (x, y) in ours.iter().zip(theirs) {
        if standing.apart {
            break;
        }
        standing = beside(standing, *x, *y);
        taken += 1;
    }
    Passed { standing, taken }
}

// Whether nothing that may still come changes what is said: with `none` left of ours, or some, and `done` where nothing more comes of it; the same of
// theirs, `empty` and `over`. No struct holds two of them: each is a test of the caller's own, made where it is handed on.
#[tactic(auto, unfolding(crate::specs::Pieces::settled_of))]
pub fn is_settled(s: Standing, none: bool, done: bool, empty: bool, over: bool) -> bool
    ensures { result ≡ settled_of s none done empty over }
{
    s.apart
        || match (done, over) {
            (true, true) => true,
            (true, false) => none && !empty,
            (false, true) => empty && !none,
            (false, false) => false,
        }
}

// One of the two goes on alone: in a line that both began, or in a new one.
#[tactic(auto, using(octets::proofs::Branch::tests), unfolding(crate::specs::Beside::alone_of))]
fn alone(s: Standing, field: u64, new: Said) -> Said
    ensures { result ≡ alone_of s field new }
{
    if s.inside {
        Said::Differs(next_line(s.lines), field)
    } else {
        new
    }
}

// The octet at a place; an end is as a line feed.
fn octet_or_end(s: &[u8], at: usize) -> u8
    ensures { result ≡ get_or s.now at 10 }
{
    s.get(at).copied().unwrap_or(LF)
}

// What is said where nothing more comes of either behind `ours` and `theirs`.
// Two tests, and no match on what `get` gives: behind such a match nothing tells that `ours` has ended, so no edit of it could be refused for that.
pub fn ending(ours: &[u8], theirs: &[u8], s: Standing) -> Said
    ensures { result ≡ said_by s ours.now theirs.now }
{
    let Passed {
        standing: t,
        taken: at,
    } = compare(ours, theirs, s);
    if t.apart {
        return Said::Differs(next_line(t.lines), t.field);
    }
    let x = octet_or_end(ours, at);
    if ours.len() <= at {
        if theirs.len() <= at {
            return Said::Right;
        }
        let y = octet_or_end(theirs, at);
        return alone(t, other_field(t.field, LF, y), Said::Long(t.lines));
    }
    alone(t, other_field(t.field, x, LF), Said::Short(t.lines))
}
