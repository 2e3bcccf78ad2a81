// What the program tells where it does not do what it is asked for.
use crate::command::USAGE;
use crate::input::LIMIT;
use crate::output::Output;
use arrayvec::ArrayString;
use std::env::FillError;
use std::error::Error;
use std::fmt::Write;
use std::{fmt, io};

#[derive(Debug, Drop)]
pub(crate) enum Fault {
    // The command line is none of the synopsis: more arguments than it has.
    TooMany,
    // The name of a file that has no characters.
    EmptyName,
    // An option that is neither `--why` nor `--help`.
    UnknownOption,
    // A name of more bytes than the system takes.
    NameTooLong,
    // An argument that was there and is not there any more.
    NoName,
    // A name that is not UTF-8.
    NotText,
    // The input is not all there: a read failed in its midst.
    ReadFailed,
    // More input than there is memory for.
    TooLong,
    // What the system says of a file, a read or a write.
    System(io::Error),
}

impl From<io::Error> for Fault {
    fn from(error: io::Error) -> Fault {
        Fault::System(error)
    }
}

impl From<FillError> for Fault {
    fn from(error: FillError) -> Fault {
        match error {
            FillError::TooLong => Fault::NameTooLong,
            FillError::NotPresent => Fault::NoName,
        }
    }
}

impl fmt::Display for Fault {
    fn fmt<W: fmt::Write>(&self, f: &mut fmt::Formatter<W>) -> fmt::Result {
        match self {
            Fault::TooMany => f.write_str("too many"),
            Fault::EmptyName => f.write_str("the name is empty"),
            Fault::UnknownOption => f.write_str("unknown option"),
            Fault::NameTooLong => f.write_str("File name too long"),
            Fault::NoName => f.write_str("Invalid argument"),
            Fault::NotText => f.write_str("the name is not UTF-8"),
            Fault::ReadFailed => f.write_str("a read failed"),
            Fault::TooLong => write!(f, "more than {LIMIT} bytes"),
            Fault::System(error) => write_words(f, error),
        }
    }
}

impl Error for Fault {}

// The system's words: what std writes behind them, ` (os error 2)`, is left out.
fn write_words<W: fmt::Write>(f: &mut fmt::Formatter<W>, error: &io::Error) -> fmt::Result {
    let mut text = ArrayString::<256>::new();
    // What finds no room is what is left out.
    let _ = write!(text, "{error}");
    let all = text.as_str();
    f.write_str(all.split_once(" (os error").map_or(all, |(words, _)| words))
}

impl Fault {
    pub(crate) fn of(self, what: &[u8]) -> Refusal<'_> {
        Refusal { what, fault: self }
    }

    fn is_misuse(&self) -> bool {
        matches!(
            self,
            Fault::TooMany | Fault::EmptyName | Fault::UnknownOption
        )
    }
}

// A fault, and what has it, by its bytes, since a name need not be text.
#[derive(Debug, Drop)]
pub(crate) struct Refusal<'a> {
    what: &'a [u8],
    fault: Fault,
}

impl Refusal<'_> {
    // Nothing is told of a message that could not be written.
    pub(crate) fn tell(&self, to: &impl Print) {
        let mut out = Output::new(to);
        let _ = self.write_to(&mut out);
        let _ = out.finish();
    }

    fn write_to<P: Print>(&self, out: &mut Output<'_, P>) -> fmt::Result {
        let fault = &self.fault;
        out.write_str("codes: ")?;
        out.write_bytes(self.what)?;
        writeln!(out, ": {fault}")?;
        if fault.is_misuse() {
            out.write_str(USAGE)?;
        }
        Ok(())
    }
}
