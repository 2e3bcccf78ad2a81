// What the command line asks for.
use crate::refusal::{Fault, Refusal};
use std::env::{Env, FillError};

pub(crate) const USAGE: &str = "usage: codes [--why] [FILE]\n       codes --help\n";

// What the help says below the usage.
pub(crate) const HELP: &str = "
Shows the codes of FILE, or of standard input, one line for each line:

    U+0034 U+0030 U+2032

A byte that is part of no well-formed UTF-8 sequence is shown as the byte, <E2>.
The line feed U+000A ends a line and is not shown. The input has at most 1048576
bytes.

With --why each bad stretch of a line has a line of its own below it, with its
place in the input, from 0, its bytes and the reason:

    U+0034 U+0030 <E2> <80>
      byte 2, <E2> <80>: the end of the input cuts it off

The exit status is always 0. Where the input is refused, standard output stays
empty, and standard error says why.
";

#[derive(Clone, Copy)]
pub(crate) enum Command<'a> {
    // The help is shown.
    Help,
    // Standard input is shown, with `why` also why its bytes are bad.
    ShowInput { why: bool },
    // The same of a file.
    ShowFile { why: bool, path: &'a str },
}

// Whether there is an argument of number i. The program's name has number 0.
fn is_given(rt: &HostRuntime, i: usize) -> bool {
    !matches!(rt.arg(i, &mut [0; 1]), Err(FillError::NotPresent))
}

fn is_why(rt: &HostRuntime) -> bool {
    let mut argument = [0u8; 8];
    match rt.arg(1, &mut argument) {
        Ok(n) => &argument[..n] == b"--why".as_slice(),
        Err(_) => false,
    }
}

// The last argument is the one that counts, behind `--why` or alone. Std opens a path that is text, and no other.
pub(crate) fn parse<'a>(
    rt: &HostRuntime,
    buffer: &'a mut [u8],
) -> Result<Command<'a>, Refusal<'a>> {
    let why = is_why(rt);
    let last = if why { 2 } else { 1 };
    if !is_given(rt, last) {
        return Ok(Command::ShowInput { why });
    }
    if is_given(rt, last + 1) {
        return Err(Fault::TooMany.of(b"arguments"));
    }
    let n = rt
        .arg(last, buffer)
        .map_err(|error| Fault::from(error).of(b"argument"))?;
    match &buffer[..n] {
        b"--help" => Ok(Command::Help),
        [] => Err(Fault::EmptyName.of(b"argument")),
        option @ [b'-', ..] => Err(Fault::UnknownOption.of(option)),
        name => match str::from_utf8(name) {
            Ok(path) => Ok(Command::ShowFile { why, path }),
            Err(_) => Err(Fault::NotText.of(name)),
        },
    }
}
