// How the class of a frame is known: from Frame Control alone, or by more of the frame.
ghost use Rattle.std.specs.Prelude.{◌≡◌};
ghost use Rattle.octets.specs.Sort.{class_by, is_listed, sort_of};

use crate::class::{FrameClass, class_in, listed};
use crate::field::octet_at;

#[derive(Clone, Copy, PartialEq, Eq)]
pub enum Sort {
    // From the type and subtype in Frame Control's first octet, which is this.
    Listed(u8),
    // By more: an unprotected Action frame, or any frame of an ad hoc network.
    Classed(FrameClass),
}

// Whether Frame Control alone decides the class.
#[tactic(auto, unfolding(crate::specs::Sort::is_listed))]
fn is_listed(infrastructure: bool, first: u8, second: u8) -> bool
    ensures { result ≡ is_listed infrastructure first second }
{
    infrastructure
        && first % 4 == 0
        && (first / 4 % 4 != 0 || first / 16 != 13 || second / 64 % 2 != 0)
}

// How the class of a frame is known, where there are access points or in an ad hoc network.
pub fn sorted(infrastructure: bool, frame: &[u8]) -> Sort
    ensures { result ≡ sort_of infrastructure frame.now }
{
    let first = octet_at(frame, 0);
    if is_listed(infrastructure, first, octet_at(frame, 1)) {
        Sort::Listed(first)
    } else {
        Sort::Classed(class_in(infrastructure, frame))
    }
}

// The class of a frame, where it is known so.
pub fn class_by(sort: Sort) -> FrameClass
    ensures { result ≡ class_by sort }
{
    match sort {
        Sort::Listed(first) => listed(first),
        Sort::Classed(k) => k,
    }
}
