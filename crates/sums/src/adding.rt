// The numbers of printed blocks added up, octet by octet, in pieces of any size.
ghost use Rattle.std.specs.Prelude.{◌≡◌};
ghost use Rattle.sums.specs.Adding.{ends_number, added_with, adding_with, adding_from, failed_of, finished_of};

use crate::block::plus;
use crate::reader::{Reader, Stage};
use crate::token::number_of;
use crate::total::Total;

// Whether a number ends with this octet.
#[tactic(auto, using(octets::proofs::Branch::tests), unfolding(crate::specs::Adding::ends_number))]
fn ends_number(r: Reader, x: u8) -> bool
    ensures { result ≡ ends_number r x }
{
    matches!((r.stage, x), (Stage::Number, b'\n' | b' '))
}

// The block with the number that ends with this octet, where one does.
#[tactic(auto, using(octets::proofs::Branch::tests), unfolding(crate::specs::Adding::added_with))]
fn add_with(b: [Total; 23], r: Reader, x: u8) -> [Total; 23]
    ensures { result ≡ added_with b r x }
{
    if !ends_number(r, x) {
        return b;
    }
    match number_of(r.token) {
        None => b,
        Some(sum) => plus(b, r.place as usize, sum),
    }
}

// Printed blocks on their way in: the block of the numbers so far, and the reader behind the octets so far.
#[derive(Clone, Copy)]
pub struct Adding {
    pub block: [Total; 23],
    pub reader: Reader,
}

impl Adding {
    // One octet more.
    #[tactic(auto, unfolding(crate::specs::Adding::adding_with))]
    fn add(self, x: u8) -> Adding
        ensures { result ≡ adding_with self x }
    {
        Adding {
            block: add_with(self.block, self.reader, x),
            reader: self.reader.next(x),
        }
    }

    // The block with the numbers of these octets, and the reader behind them.
    pub fn add_on(self, xs: &[u8]) -> Adding
        ensures { result ≡ adding_from self xs.now }
    {
        xs.iter().fold(self, |a, x| a.add(*x))
    }
}

// Whether a line was of no block.
#[tactic(auto, using(octets::proofs::Branch::tests), unfolding(crate::specs::Adding::failed_of))]
pub fn failed(r: Reader) -> bool
    ensures { result ≡ failed_of r }
{
    matches!(r.stage, Stage::Fault)
}

// Whether an input may end here: before its first line, or behind a whole block or a heading.
#[tactic(auto, using(octets::proofs::Branch::tests), unfolding(crate::specs::Adding::finished_of))]
pub fn finished(r: Reader) -> bool
    ensures { result ≡ finished_of r }
{
    matches!(r.stage, Stage::Word) && r.place == 0 && r.token.seen == 0
}
