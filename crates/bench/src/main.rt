// The bench program: records on standard input, one line an event on standard output.
#![tactic(auto)]

mod block;
mod capture;
mod changes;
mod check;
mod checker;
mod facts;
mod import;
mod importer;
mod input;
mod lent;
mod line;
mod month;
mod outside;
mod packet;
mod passed;
mod put;
mod rows;
mod run;
mod said;
mod show;
mod text;
mod total;
mod trace;
mod ways;
mod why;

ghost use Rattle.std.specs.Prelude.{◌≡◌};
ghost use Rattle.rival.specs.Alike.{same};

use check::check_files;
use import::import_files;
use month::month_files;
use outside::{argument, argument_count, say};
use run::{Prints, Run, round};
use total::total_blocks;

// A proved loop has to end, and nothing says that an input does: so the turns are counted, up to a number that no run uses up.
fn run_all(rt: &HostRuntime, prints: Prints) {
    // The table, empty: every octet zero.
    let mut table = [0u8; 1536];
    let mut input = [0u8; 65536];
    let mut output = [0u8; 65536];
    let mut from = rt.stdin();
    let mut to = rt.stdout();
    let mut r = Run::new(prints);
    for _ in 0..u64::MAX {
        if r.done {
            return;
        }
        r = round(&mut from, &mut to, &mut table, &mut input, &mut output, r);
    }
}

// Whether a word is a known one, letter by letter.
fn is_word(word: &[u8], known: &[u8]) -> bool
    ensures { result ≡ same word.now known.now }
{
    word == known
}

// What the arguments ask for: the program's first word, or none and its lines.
fn main(rt: HostRuntime) {
    let count = argument_count(&rt);
    let mut word = [0u8; 64];
    let n = argument(&rt, 1, &mut word);
    match &word[..n] {
        _ if count <= 1 => run_all(&rt, Prints::Lines),
        w if is_word(w, b"import") => import_files(&rt),
        w if is_word(w, b"month") => month_files(&rt),
        w if is_word(w, b"check") => check_files(&rt),
        w if count == 2 && is_word(w, b"trace") => run_all(&rt, Prints::Trace),
        w if count == 2 && is_word(w, b"changes") => run_all(&rt, Prints::Changes),
        w if count == 2 && is_word(w, b"total") => total_blocks(&rt),
        w if count == 2 && is_word(w, b"why") => run_all(&rt, Prints::Why),
        _ => say(
            &rt,
            b"bench: unknown argument: 'trace', 'changes', 'why', 'import SETTINGS CAPTURE', 'month FILE..', 'total', 'check INPUT LOG', or none, with the records on standard input\n",
        ),
    }
}
