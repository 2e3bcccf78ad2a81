// Shows the codes of a text as a person reads them, one line for each line:
//
//     U+0034 U+0030 U+2032
//
// A byte that is part of no well-formed sequence is shown as the byte, <E2>, and with --why each stretch of them has a line that says why. All
// input is read before anything is written, so that a refusal leaves standard output empty.
#![tactic(auto)]

mod command;
mod input;
mod output;
mod pieces;
mod refusal;

use command::{Command, HELP, USAGE};
use output::Output;
use pieces::{Lines, Pieces};
use refusal::{Fault, Refusal};
use std::fmt;
use std::fmt::Write;
use std::fs::File;
use std::io::Read;

// With `why` there is a line below it for each of its bad stretches.
fn show_line<P: Print>(
    out: &mut Output<'_, P>,
    text: &[u8],
    line: Pieces<'_>,
    why: bool,
) -> fmt::Result {
    // No formatter is set up for an empty line: there may be a million of them.
    if line.is_empty() {
        return out.write_str("\n");
    }
    out.write(line)?;
    out.write_str("\n")?;
    if why {
        for piece in line.filter(|piece| piece.code.is_none()) {
            let place = piece.place;
            let reason = reason::reason_of(text, place);
            writeln!(out, "  byte {place}, {piece}: {reason}")?;
        }
    }
    Ok(())
}

fn show_text<P: Print>(out: &mut Output<'_, P>, text: &[u8], why: bool) -> fmt::Result {
    for line in Lines::new(text) {
        show_line(out, text, line, why)?;
    }
    Ok(())
}

fn show_input<'a, R: Read>(
    rt: &impl Print,
    input: &mut R,
    why: bool,
    name: &'a [u8],
) -> Result<(), Refusal<'a>> {
    let mut buffer = input::input_buffer();
    let text = input::read_all(input, &mut buffer).map_err(|fault| fault.of(name))?;
    let mut out = Output::new(rt);
    // Where it stopped, `finish` gives the error.
    let _ = show_text(&mut out, text, why);
    out.finish()
        .map_err(|error| Fault::System(error).of(b"standard output"))
}

fn run<'a>(rt: &HostRuntime, argument: &'a mut [u8]) -> Result<(), Refusal<'a>> {
    match command::parse(rt, argument)? {
        Command::Help => {
            // Nothing is told of a help that could not be written.
            let _ = print!(rt; "{USAGE}{HELP}");
            Ok(())
        }
        Command::ShowInput { why } => {
            let mut input = rt.stdin();
            show_input(rt, &mut input, why, b"standard input")
        }
        Command::ShowFile { why, path } => {
            let name = path.as_bytes();
            let mut file = File::open(rt, path).map_err(|error| Fault::System(error).of(name))?;
            show_input(rt, &mut file, why, name)
        }
    }
}

fn main(rt: HostRuntime) {
    let mut argument = [0u8; 4096];
    if let Err(refusal) = run(&rt, &mut argument) {
        refusal.tell(&rt.stderr());
    }
}
