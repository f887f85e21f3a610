// A packet of a capture, from its first octets on: kept and put out as records, or left out and passed by.
ghost use Rattle.std.specs.Prelude.{◌≡◌, ◌+◌, ◌≤◌, length};
ghost use Rattle.bench.specs.Import.{due_of};
ghost use Rattle.bench.specs.Importer.{kept_front, between_front, passing_front, turned_of, Fronted};

use crate::capture::{is_kept, number_at, time_at};
use crate::importer::{After, Stage, State};
use crate::passed::{Clock, counted, due, moved, paid};
use crate::put::{put_rest, put_step};

// Octets of a packet that is left out.
pub(crate) fn passing(xs: &[u8], at: usize, s: State, n: u32) -> After
    ensures { result ≡ turned_of at (passing_front s n xs.now) }
{
    if n as usize <= xs.len() {
        return After {
            state: State {
                stage: Stage::Between,
                counts: counted(false, s.counts),
                ..s
            },
            taken: n as usize,
            out: at,
            wants: false,
        };
    }
    After {
        state: State {
            stage: Stage::Passing(n - xs.len() as u32),
            ..s
        },
        taken: xs.len(),
        out: at,
        wants: true,
    }
}

// A packet that is kept, whole: its octets, and how many TU are due before it.
fn keep(out: &mut [u8], at: usize, s: State, c: Clock, octets: &[u8], n: u64) -> After
    requires at_in_bounds { at + 4108 ≤ length out.old }
    requires octets_len_bound { length octets.now ≤ 4096 }
    requires n_value { n ≡ due_of c }
    ensures { Fronted (kept_front s c octets.now n) at out.old result out.new }
{
    if 65535 < n {
        put_step(out, at, 65535);
        return After {
            state: State {
                stage: Stage::Between,
                clock: paid(c, 65535),
                ..s
            },
            taken: 0,
            out: at + 7,
            wants: false,
        };
    }
    let end = put_rest(out, at, n as u16, octets);
    After {
        state: State {
            stage: Stage::Between,
            clock: paid(c, n),
            counts: counted(true, s.counts),
            ..s
        },
        taken: octets.len() + 16,
        out: end,
        wants: false,
    }
}

// A packet, or the first octets of one.
pub(crate) fn between(xs: &[u8], out: &mut [u8], at: usize, s: State) -> After
    requires { at + 4108 ≤ length out.old }
    ensures { Fronted (between_front s xs.now) at out.old result out.new }
{
    if xs.len() < 16 {
        return After {
            state: s,
            taken: 0,
            out: at,
            wants: true,
        };
    }
    let captured = number_at(xs, s.big, 8);
    let original = number_at(xs, s.big, 12);
    let c = moved(s.clock, time_at(xs, s.big));
    if !is_kept(captured, original) {
        return After {
            state: State {
                stage: Stage::Passing(captured),
                clock: c,
                ..s
            },
            taken: 16,
            out: at,
            wants: false,
        };
    }
    let size = captured as usize;
    if xs.len() - 16 < size {
        return After {
            state: s,
            taken: 0,
            out: at,
            wants: true,
        };
    }
    keep(out, at, s, c, &xs[16..16 + size], due(c))
}
