// `bench total`: blocks of the month on standard input, in any number and order, added up to one.
use crate::block::write_block;
use crate::outside::{flush, say, say_number};
use std::io::Read;
use sums::adding::{Adding, failed, finished};
use sums::block::empty;
use sums::reader::start;
use sums::total::Total;

// The lines of a block, to standard output.
pub fn print_block(rt: &HostRuntime, b: [Total; 23]) {
    let mut output = [0u8; 4096];
    let n = write_block(&mut output, 0, b);
    flush(rt, &output, n);
}

// A line on standard error that names the line of the input.
fn complain(rt: &HostRuntime, before: &[u8], line: u64, behind: &[u8]) {
    say(rt, before);
    say_number(rt, line);
    say(rt, behind);
}

// The end of the input: the block of all, or a line on standard error where a block is cut.
fn tell(rt: &HostRuntime, a: Adding) {
    if finished(a.reader) {
        print_block(rt, a.block);
        return;
    }
    complain(
        rt,
        b"bench: the blocks end at line ",
        a.reader.line,
        b", inside one\n",
    );
}

// All of standard input. A proved loop has to end, and nothing says that an input does: so there is an end to the turns, which no run
// comes to.
pub fn total_blocks(rt: &HostRuntime) {
    let mut input = [0u8; 65536];
    let mut from = rt.stdin();
    let mut a = Adding {
        block: empty(),
        reader: start(),
    };
    for _ in 0..u64::MAX {
        let n = match from.read(&mut input) {
            Ok(n) => n,
            Err(_) => {
                say(rt, b"bench: cannot read standard input\n");
                return;
            }
        };
        if n == 0 {
            tell(rt, a);
            return;
        }
        a = a.add_on(&input[..n]);
        if failed(a.reader) {
            complain(rt, b"bench: line ", a.reader.line, b" is of no block\n");
            return;
        }
    }
}
