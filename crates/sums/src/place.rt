// The lines of a block in their printed form, by the place of each one's first number.
ghost use Rattle.std.specs.Prelude.{◌≡◌};
ghost use Rattle.sums.specs.Place.{opens, last_of_line, place_after, line_after};

use crate::token::{Token, is_word};

// Whether a token is the word of the line that begins at a place; the mean's line comes at 23.
#[tactic(auto, using(octets::proofs::Branch::tests), unfolding(crate::specs::Place::opens))]
pub(crate) fn opens_line(place: u8, t: Token) -> bool
    ensures { result ≡ opens place t }
{
    match place {
        // "events"
        0 => is_word(t, 6, 111559182283891),
        // "refusals"
        1 => is_word(t, 8, 8243107347604532339),
        // "discards"
        10 => is_word(t, 8, 7235441147021255795),
        // "joins"
        13 => is_word(t, 5, 457135713907),
        // "leaves"
        14 => is_word(t, 6, 119182682645875),
        // "timeouts"
        15 => is_word(t, 8, 8388356063383352435),
        // "holds"
        20 => is_word(t, 5, 448545973363),
        // "longest"
        21 => is_word(t, 7, 30521817456538484),
        // "total"
        22 => is_word(t, 5, 500086104428),
        // "mean"
        23 => is_word(t, 4, 1835360622),
        _ => false,
    }
}

// Whether a line ends behind the number at a place.
#[tactic(auto, using(octets::proofs::Branch::tests), unfolding(crate::specs::Place::last_of_line))]
pub(crate) fn last_of_line(place: u8) -> bool
    ensures { result ≡ last_of_line place }
{
    matches!(place, 0 | 9 | 12..=14 | 19..=22)
}

#[tactic(auto, using(octets::proofs::Branch::tests), unfolding(crate::specs::Place::place_after))]
pub(crate) fn place_after(place: u8) -> u8
    ensures { result ≡ place_after place }
{
    if place < 23 { place + 1 } else { place }
}

#[tactic(auto, using(octets::proofs::Branch::tests), unfolding(crate::specs::Place::line_after))]
pub(crate) fn line_after(line: u64) -> u64
    ensures { result ≡ line_after line }
{
    line.saturating_add(1)
}
