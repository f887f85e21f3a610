// The block of a month: 23 numbers, each of 64 bits or over. Which place is which number: specs/Block.antt.
ghost use Rattle.std.specs.Prelude.{◌≡◌, get_or};
ghost use Rattle.sums.specs.Sums.{zero};
ghost use Rattle.sums.specs.Block.{empty_of, join_at, join_of, plus_of, mean_of};

use crate::fraction::{Fraction, reduced};
use crate::total::{Total, add, longer};

// No events: 0 in every place.
// A bare array and no struct: definitions are of the list, and `look`, `plus` and `join` are public over it.
pub fn empty() -> [Total; 23]
    ensures { result ≡ empty_of }
{
    [Some(0); 23]
}

// The number at a place; 0 where there is no such place.
pub fn look(b: [Total; 23], place: usize) -> Total
    ensures { result ≡ get_or b place zero }
{
    if place < 23 { b[place] } else { Some(0) }
}

// Two numbers of one place: the longer of two longest holds, else the sum.
#[tactic(auto, using(octets::proofs::Branch::tests), unfolding(crate::specs::Block::join_at))]
fn join_at(place: usize, a: Total, b: Total) -> Total
    ensures { result ≡ join_at place a b }
{
    if place == 21 { longer(a, b) } else { add(a, b) }
}

// The block with a number joined at a place, where there is such a place.
#[tactic(auto, using(octets::proofs::Branch::tests), unfolding(crate::specs::Block::plus_of))]
pub fn plus(b: [Total; 23], place: usize, t: Total) -> [Total; 23]
    ensures { result ≡ plus_of b place t }
{
    let mut next = b;
    if place < 23 {
        next[place] = join_at(place, b[place], t);
    }
    next
}

// Two blocks, place by place.
pub fn join(a: [Total; 23], b: [Total; 23]) -> [Total; 23]
    ensures { result ≡ join_of a b }
{
    let mut sums = a;
    for (i, n) in b.iter().enumerate() {
        sums[i] = join_at(i, sums[i], *n);
    }
    sums
}

// The mean hold: the total hold over the holds set; over where one of the two is.
#[tactic(auto, using(octets::proofs::Branch::tests), unfolding(crate::specs::Block::mean_of))]
pub fn mean_hold(b: [Total; 23]) -> Option<Fraction>
    ensures { result ≡ mean_of b }
{
    Some(reduced(look(b, 22)?, look(b, 20)?))
}
