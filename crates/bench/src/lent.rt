// One event, played with the records lent and without a check: the other of the two ways to hold a table.
ghost use Rattle.std.specs.Prelude.{◌≡◌, true, length};
ghost use Rattle.peer.specs.Settings.{settings_fit};
ghost use Rattle.table.specs.Fit.{well_formed};
ghost use Rattle.table.specs.Ruled.{ruled_in, ruled_of};
ghost use Rattle.table.specs.Step.{step_of, step_in};
ghost use Rattle.bench.specs.Play.{zeros};

use peer::record::Record;
use peer::settings::Settings;
use table::rules::answer::{Answer, Stepped};
use table::rules::event::Event;

// The table after an event, its answer, and the scratch.
#[derive(Clone, Copy)]
pub struct Played {
    pub table: [Record; 32],
    pub answer: Answer,
    pub scratch: [u8; 256],
}

// Lends a table of its own, and does nothing else.
fn lend(s: Settings, t: [Record; 32], e: Event, frame: &[u8], out: &mut [u8]) -> Stepped
    ensures { (result ≡ ruled_of s t e frame.now (length out.old)) × (out.new ≡ ruled_in s t e frame.now out.old) }
{
    let mut table = t;
    let answer = table::records::lent::play(&mut table, s, e, frame, out);
    Stepped { table, answer }
}

// The same with a scratch of 256 zero octets. The records are well formed if the settings fit, and `fit` says whether they do.
pub fn lent_play(s: Settings, fit: bool, t: [Record; 32], e: Event, frame: &[u8]) -> Played
    ensures { fit ≡ settings_fit s → (settings_fit s ≡ true → well_formed s t ≡ true) → (result.table ≡ (step_of s t e frame.now 256).table) × (result.answer ≡ (step_of s t e frame.now 256).answer) × (result.scratch ≡ step_in s t e frame.now zeros) }
{
    let mut scratch = [0u8; 256];
    if !fit {
        return Played {
            table: t,
            answer: Answer::refusal(2),
            scratch,
        };
    }
    let r = lend(s, t, e, frame, &mut scratch);
    // A variable of its own: the prover does not cover an array moved from field to field.
    let table = r.table;
    Played {
        table,
        answer: r.answer,
        scratch,
    }
}
