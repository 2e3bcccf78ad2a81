// Tries one call a line: a command on standard input, its answer on standard output. `probe --help` lists the commands.
#![tactic(auto)]

use crate::output::{Output, Stopped, fail};
use crate::request::{LONGEST, Refusal, Request};
use arrayvec::ArrayVec;
use std::env::{Env, FillError};
use std::fmt::Write;
use std::io::Read;

mod calls;
mod output;
mod request;
mod tell;

const HELP: &str = "\
usage: probe, or probe --help

Tries one call a line. A command and what it answers:

    read FLAGS ROOM BYTES    number consumed codes length
    rest FLAGS ROOM BYTES    number codes length bytes (the reader's companion)
    write FLAGS ROOM CODES   number consumed bytes
    step8 RECORD BYTES       answer number unit consumed held length record
    step16, step32           the same
    back RECORD UNIT         answer number bytes count held record
    reset RECORD             number record
    start RECORD             yes or no
    cesu8-read, cesu8-write, cesu8-step16    read, write, step16 in CESU-8

FLAGS and ROOM are decimal, ROOM up to 65536. BYTES is hexadecimal pairs, CODES
hexadecimal numbers with commas, - is none; RECORD is 16 bytes, UNIT one number.
After a bad sequence held is how many bytes had been held, and length that of
the maximal subpart; - is none. A line begun by # is its own answer; one that
cannot be read gets error: and why. An answer ends in beyond where the call
changed more than it gave.
";

// What came of a line so far.
#[derive(Drop)]
struct Line {
    kept: ArrayVec<u8, LONGEST>,
    is_too_long: bool,
}

impl Line {
    fn new() -> Line {
        Line {
            kept: ArrayVec::new(),
            is_too_long: false,
        }
    }

    fn is_empty(&self) -> bool {
        self.kept.is_empty() && !self.is_too_long
    }

    fn extend(&mut self, bytes: &[u8]) {
        if self.kept.try_extend_from_slice(bytes).is_err() {
            self.is_too_long = true;
        }
    }

    fn clear(&mut self) {
        self.kept.clear();
        self.is_too_long = false;
    }

    fn request(&self) -> Result<Request<'_>, Refusal> {
        if self.is_too_long {
            return Err(Refusal::TooLong);
        }
        Request::try_from(self.kept.as_slice())
    }
}

// Answers the line, and makes it empty.
fn answer(rt: &HostRuntime, line: &mut Line) -> Result<(), Stopped> {
    let mut out = Output::new(rt);
    // An answer is always told whole: `Output` gives no error.
    let _ = match line.request() {
        Ok(request) => calls::obey(&mut out, request),
        Err(refusal) => write!(out, "error: {refusal}"),
    };
    line.clear();
    out.end_line()
}

fn feed(rt: &HostRuntime, chunk: &[u8], line: &mut Line) -> Result<(), Stopped> {
    let mut parts = chunk.split(|byte| *byte == b'\n');
    // The first is the rest of a line that has begun, and each line feed ends one.
    if let Some(first) = parts.next() {
        line.extend(first);
    }
    for part in parts {
        answer(rt, line)?;
        line.extend(part);
    }
    Ok(())
}

// A last line that has no newline is answered too. A proved loop has to end, and nothing says that the input does: the turns are counted up to a
// number that no run reaches.
fn answer_all(rt: &HostRuntime) -> Result<(), Stopped> {
    let mut chunk = calls::filled(0u8);
    let mut line = Line::new();
    for _turn in 0..u64::MAX {
        match rt.stdin().read(&mut chunk) {
            Ok(0) if line.is_empty() => return Ok(()),
            Ok(0) => answer(rt, &mut line)?,
            Ok(n) => feed(rt, &chunk[..n], &mut line)?,
            Err(error) => {
                fail(rt, "standard input", error);
                return Ok(());
            }
        }
    }
    Ok(())
}

fn help(rt: &HostRuntime) {
    let _ = rt.write_all(HELP.as_bytes());
}

fn is_help(rt: &HostRuntime) -> bool {
    let mut argument = [0u8; 8];
    match rt.arg(1, &mut argument) {
        Ok(n) => &argument[..n] == b"--help".as_slice(),
        Err(_) => false,
    }
}

// Whether there is an argument of number i. The program's name has number 0.
fn is_given(rt: &HostRuntime, i: usize) -> bool {
    let mut first = [0u8; 1];
    !matches!(rt.arg(i, &mut first), Err(FillError::NotPresent))
}

fn main(rt: HostRuntime) {
    if !is_given(&rt, 1) {
        // Where it stopped, standard error says why.
        let _ = answer_all(&rt);
    } else if !is_given(&rt, 2) && is_help(&rt) {
        help(&rt);
    } else {
        let _ = eprintln!(rt; "probe: no argument is taken but --help");
    }
}
