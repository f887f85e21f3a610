// The frames that come most: data and beacons, told by the first octet of Frame Control alone; and those that are admitted and do nothing else.
ghost use Rattle.std.specs.Prelude.{◌≡◌, true};
ghost use Rattle.octets.specs.Sort.{class_by};
ghost use Rattle.octets.specs.declared.heard.Heard.TheVariants as heard;
ghost use Rattle.peer.specs.Filter.{passes_of};
ghost use Rattle.table.specs.Common.{common_of};

use octets::heard::Heard;
use octets::sort::Sort;
use peer::verdict::passes_by;

// The first octet of a beacon, and that of the one kind of data that has no class.
const BEACON: u8 = 128;

const NO_DATA: u8 = 216;

// Whether a frame is a beacon, or data with a class.
pub(crate) fn common(first: u8) -> bool
    ensures { result ≡ common_of first }
{
    first == BEACON || first % 16 == 8 && first != NO_DATA
}

// Whether a frame passes, and nothing is named for it: then it is admitted, and that is all.
pub(crate) fn quiet(role: u8, sort: Sort, state: u8, h: Heard) -> bool
    ensures { result ≡ true → (h ≡ heard.Other) × (passes_of role (class_by sort) state ≡ true) }
{
    match h {
        Heard::Other => passes_by(role, sort, state),
        _ => false,
    }
}
