// What a station's primitives ask of the whole table, counted over rows in place.
ghost use Rattle.std.specs.Prelude.{◌≡◌, true, length};
ghost use Rattle.table.specs.Others.{others_of};
ghost use Rattle.table.specs.Rows.{records_of};
ghost use Rattle.table.specs.Ruled.{asking};

use crate::host::rows::look;
use crate::rules::event::Event;
use crate::rules::others::{Counts, counted, first_joined, nobody, others};
use octets::vacant::blank_at;
use peer::refuse::Others;
use peer::settings::{Settings, answers};

// What a station's primitives ask of the whole table; no other role looks at it.
// Apart from that of `records`: a free row is told here by its octets, before it is read.
fn others_in(s: Settings, table: &[u8]) -> Others
    requires { length table.now ≡ 1536 }
    ensures { result ≡ others_of s (records_of table.now) }
{
    if answers(s.role) {
        return nobody();
    }
    let mut associated = 0;
    let mut joined = 0;
    let mut associating = 0;
    for i in (0..32).rev() {
        // A free place is nobody's.
        if blank_at(table, 48 * i) {
            continue;
        }
        let p = look(table, i);
        let on = p.is_joined();
        associated = first_joined(on, p.address, associated);
        joined = counted(joined, on);
        associating = counted(associating, p.is_associating());
    }
    let crowd = Counts {
        joined,
        associating,
    };
    others(s, associated, crowd)
}

// The same for an event: only a primitive asks it.
pub(crate) fn others_for(s: Settings, table: &[u8], e: Event) -> Others
    ensures { length table.now ≡ 1536 → asking e ≡ true → result ≡ others_of s (records_of table.now) }
{
    if table.len() != 1536 {
        return nobody();
    }
    match e {
        Event::Ask { .. } => others_in(s, table),
        _ => nobody(),
    }
}
