// What lies outside of the program: its arguments, the files that they name, standard output and standard error.
ghost use Rattle.std.specs.Prelude.{◌≤◌, length};

use std::env::{Env, FillError};
use std::fs::File;
use std::io;
use std::io::{Cursor, Read, Write};

// A file that is open, and how the last read of it failed.
#[derive(Drop)]
pub struct Source {
    file: File,
    failure: io::Error,
}

impl Source {
    // How the last read failed.
    pub(crate) fn failure(&self) -> io::Error {
        self.failure
    }
}

impl Read for Source {
    fn read(&mut self, buf: &mut [u8]) -> io::Result<usize> {
        match self.file.read(buf) {
            Ok(n) => Ok(n),
            Err(e) => {
                self.failure = e;
                Err(e)
            }
        }
    }
}

// Opens a file for reading. Names are text to the library: one that is no UTF-8 can't be opened, and is told as one that the system can't read.
pub(crate) fn open(rt: &HostRuntime, path: &[u8]) -> io::Result<Source> {
    match str::from_utf8(path) {
        Ok(name) => Ok(Source {
            file: File::open(rt, name)?,
            failure: io::Error::from_raw_os_error(0),
        }),
        // EILSEQ
        Err(_) => Err(io::Error::from_raw_os_error(84)),
    }
}

// Reads until the buffer is full, the input ends or a read fails, and gives how many octets are at the front of it.
pub(crate) fn read_full<R: Read>(from: &mut R, buf: &mut [u8]) -> usize
    ensures { result ≤ length buf.new }
{
    let mut done = 0;
    // No `for`: a turn goes on by as many octets as were read, which is what the loop counts.
    while done < buf.len() {
        match from.read(&mut buf[done..]) {
            Ok(0) => return done,
            Ok(n) => done += n,
            Err(_) => return done,
        }
    }
    done
}

// How many arguments the program was started with, its own name among them.
pub(crate) fn argument_count(rt: &HostRuntime) -> usize {
    let mut word = [0u8; 1];
    for i in 0..usize::MAX {
        if let Err(FillError::NotPresent) = rt.arg(i, &mut word) {
            return i;
        }
    }
    usize::MAX
}

// Puts an argument at the front of the buffer and gives its length; 0 where there is none, and where it is longer than the buffer.
pub(crate) fn argument(rt: &HostRuntime, i: usize, buf: &mut [u8]) -> usize
    ensures { result ≤ length buf.new }
{
    rt.arg(i, buf).unwrap_or(0)
}

// Octets on standard output; whether that went well.
// A bool: no caller tells why a write failed.
pub(crate) fn print(rt: &HostRuntime, octets: &[u8]) -> bool {
    rt.write_all(octets).is_ok()
}

// Octets on standard error. Where that fails there is nobody to tell.
pub(crate) fn say(rt: &HostRuntime, octets: &[u8]) {
    let _ = rt.stderr().write_all(octets);
}

// A number on standard error, in decimal.
pub(crate) fn say_number(rt: &HostRuntime, n: u64) {
    let _ = rt.eprint(n);
}

// What the system says of an error, without its number, on standard error.
pub(crate) fn say_error(rt: &HostRuntime, e: io::Error) {
    let mut text = Cursor::new([0u8; 512]);
    let _ = write!(text, "{e}");
    let n = (text.position() as usize).min(512);
    let octets = text.into_inner();
    if let Ok(said) = str::from_utf8(&octets[..n]) {
        let words = match said.split_once(" (os error ") {
            Some((words, _)) => words,
            None => said,
        };
        say(rt, words.as_bytes());
    }
}

// A line on standard error that names a file.
pub(crate) fn complain(rt: &HostRuntime, path: &[u8], what: &[u8]) {
    say(rt, b"bench: ");
    say(rt, path);
    say(rt, what);
}

// The same, with what the system says.
pub(crate) fn unreadable(rt: &HostRuntime, path: &[u8], e: io::Error) {
    complain(rt, path, b": ");
    say_error(rt, e);
    say(rt, b"\n");
}

// Writes out what lies in the buffer; whether that went well.
pub(crate) fn flush(rt: &HostRuntime, output: &[u8], n: usize) -> bool {
    n <= output.len() && print(rt, &output[..n])
}
