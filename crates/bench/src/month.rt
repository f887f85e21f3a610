// `bench month FILE..` (02, K12): what befell in each file, and in all together. The run hands on what is counted of each event, and here it is added up.
ghost use Rattle.std.specs.Prelude.{◌≡◌, get_or};
ghost use Rattle.octets.specs.Field.{field};
ghost use Rattle.sums.specs.Block.{block_of};
ghost use Rattle.sums.specs.Sums.{held};
ghost use Rattle.bench.specs.Facts.{numbers_in};
ghost use Rattle.bench.specs.Run.{flushed_of};
ghost use Rattle.bench.specs.Month.{Counted, added_of};

use crate::facts::first;
use crate::outside::{Source, argument, argument_count, complain, open, print, say, unreadable};
use crate::run::{Prints, Run, turn};
use crate::total::print_block;
use octets::field::u32_at;
use sums::block::{empty, join};
use sums::total::Total;

// An octet; 0 where there is none.
fn octet(s: &[u8], i: usize) -> u8
    ensures { result ≡ get_or s.now i 0 }
{
    s.get(i).copied().unwrap_or(0)
}

// The number of an octet.
#[tactic(auto, using(sums::proofs::Totals::held_fits))]
fn number(facts: &[u8], i: usize) -> Total
    ensures { result ≡ held (get_or facts.now i 0) }
{
    Some(octet(facts, i) as u64)
}

// The hold.
#[tactic(auto, using(sums::proofs::Totals::held_fits))]
fn hold(facts: &[u8]) -> Total
    ensures { result ≡ held (field 4 21 facts.now) }
{
    Some(u32_at(facts, 21) as u64)
}

// The numbers of an event as a block.
fn block_in(facts: &[u8]) -> [Total; 23]
    ensures { result ≡ block_of (numbers_in facts.now) }
{
    // The hold stands at the last two places.
    let mut block = [hold(facts); 23];
    for i in 0..21 {
        block[i] = number(facts, i);
    }
    block
}

// The block with what a turn left in the output buffer, n octets.
#[tactic(auto, using(octets::proofs::Branch::tests), unfolding(crate::specs::Month::added_of))]
fn added(block: [Total; 23], n: usize, output: &[u8]) -> [Total; 23]
    ensures { result ≡ added_of block n output.now }
{
    if n != 25 {
        return block;
    }
    join(block, block_in(first(output, 25)))
}

// The run with nothing left in the output buffer.
#[tactic(auto, unfolding(crate::specs::Run::flushed_of))]
fn emptied(r: Run) -> Run
    ensures { result ≡ flushed_of r r.done }
{
    Run { out: 0, ..r }
}

// A line on standard error where a file did not come to its end: the line `stop`, or a read that failed.
fn tell(rt: &HostRuntime, from: &Source, path: &[u8], over: bool, stopped: bool) {
    if stopped {
        complain(rt, path, b": stops at a fault; counted up to there\n");
    } else if !over {
        unreadable(rt, path, from.failure());
    }
}

// A sign of life. There is no clock here: a line every 1,048,576 turns, which take about a second.
fn alive(rt: &HostRuntime, path: &[u8], turns: u64) {
    if turns % 1048576 == 0 {
        say(rt, b"bench: counting ");
        say(rt, path);
        say(rt, b"\n");
    }
}

// The block of a file that is open. A proved loop has to end, and nothing says that a file does: so there is an end to the turns, which no file comes to.
fn count_file(rt: &HostRuntime, from: &mut Source, path: &[u8]) -> [Total; 23]
    ensures { Counted result }
{
    let mut table = [0u8; 1536];
    let mut input = [0u8; 65536];
    let mut output = [0u8; 65536];
    let mut r = Run::new(Prints::Facts);
    let mut block = empty();
    let mut stopped = false;
    for gone in 0..u64::MAX {
        if r.done {
            tell(rt, from, path, r.over, stopped);
            return block;
        }
        let next = turn(from, &mut table, &mut input, &mut output, r);
        // The check takes an array that a call gives into a new name alone.
        let more = added(block, next.out, &output);
        block = more;
        stopped = next.out == 5;
        r = emptied(next);
        alive(rt, path, gone + 1);
    }
    block
}

// One file: its name is printed, and its block is given. One that can't be opened counts as empty.
fn named_block(rt: &HostRuntime, path: &[u8]) -> [Total; 23] {
    print(rt, b"file ");
    print(rt, path);
    print(rt, b"\n");
    match open(rt, path) {
        Ok(mut from) => count_file(rt, &mut from, path),
        Err(e) => {
            unreadable(rt, path, e);
            empty()
        }
    }
}

// The files that the arguments name, one behind the other, and all together.
pub fn month_files(rt: &HostRuntime) {
    let count = argument_count(rt);
    if count < 3 {
        say(rt, b"bench: month takes files: 'month FILE..'\n");
        return;
    }
    let mut path = [0u8; 4096];
    let mut all = empty();
    for i in 2..count {
        let n = argument(rt, i, &mut path);
        let block = named_block(rt, &path[..n]);
        print_block(rt, block);
        // The check takes an array that a call gives into a new name alone.
        let more = join(all, block);
        all = more;
    }
    print(rt, b"all\n");
    print_block(rt, all);
}
