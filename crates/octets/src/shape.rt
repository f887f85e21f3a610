// The shape of a received frame: whether its length is one that its type and subtype allow, and which addresses it has.
ghost use Rattle.std.specs.Prelude.{◌≡◌};
ghost use Rattle.octets.specs.Shape.{least_of, least_management, is_bare, shape_of};

use crate::class::{class, is_none};
use crate::field::octet_at;

#[derive(Clone, Copy, PartialEq, Eq)]
pub enum Shape {
    // Too short or too long.
    Misfit,
    // Of another version, or without a class.
    Classless,
    // CTS or ACK: Address 1 only.
    Bare,
    // Address 1 and Address 2.
    Full,
}

// The least length of a management frame, by its subtype.
#[tactic(auto, unfolding(crate::specs::Shape::least_management))]
fn least_management(subtype: u8) -> usize
    ensures { result ≡ least_management subtype }
{
    match subtype {
        0 => 28,
        2 => 34,
        1 | 3 | 11 => 30,
        10 | 12 => 26,
        _ => 24,
    }
}

// Whether a frame is CTS or ACK, by its first octet.
#[tactic(auto, unfolding(crate::specs::Shape::is_bare))]
fn bare(first: u8) -> bool
    ensures { result ≡ is_bare first }
{
    first / 4 % 4 == 1 && (first / 16 == 12 || first / 16 == 13)
}

// The least length of a frame, by the type and subtype of its first octet.
#[tactic(auto, unfolding(crate::specs::Shape::least_of))]
pub fn least(first: u8) -> usize
    ensures { result ≡ least_of first }
{
    if bare(first) {
        return 10;
    }
    match first / 4 % 4 {
        0 => least_management(first / 16),
        1 => 16,
        _ => 24,
    }
}

// The shape of a frame, from its octets.
#[tactic(auto, unfolding(crate::specs::Shape::shape_of))]
pub fn measure(frame: &[u8]) -> Shape
    ensures { result ≡ shape_of frame.now }
{
    if frame.len() < 10 || 4096 < frame.len() {
        return Shape::Misfit;
    }
    let k = class(frame);
    if is_none(k) {
        return Shape::Classless;
    }
    let first = octet_at(frame, 0);
    if frame.len() < least(first) {
        return Shape::Misfit;
    }
    if bare(first) {
        Shape::Bare
    } else {
        Shape::Full
    }
}
