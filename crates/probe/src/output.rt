// Standard output and standard error.
use arrayvec::ArrayString;
use std::fmt::Write;
use std::{fmt, io};

// The system's words: what std writes behind them, ` (os error 2)`, is left out.
fn reason(text: &str) -> &str {
    match text.split_once(" (") {
        Some((words, _)) => words,
        None => text,
    }
}

// Nothing is told of a message that could not be written.
pub(crate) fn fail(rt: &HostRuntime, what: &str, error: io::Error) {
    let mut text: ArrayString<256> = ArrayString::new();
    let _ = write!(text, "{error}");
    let why = reason(text.as_str());
    let _ = eprintln!(rt; "probe: {what}: {why}");
}

// The end of an answer could not be written: nothing more is read.
#[derive(Clone, Copy)]
pub(crate) struct Stopped;

// Standard output. A write that failed is told on standard error, and what is behind it is written all the same.
#[derive(Clone, Copy)]
pub(crate) struct Output<'a> {
    rt: &'a HostRuntime,
}

impl<'a> Output<'a> {
    pub(crate) fn new(rt: &'a HostRuntime) -> Output<'a> {
        Output { rt }
    }

    fn written(&self, bytes: &[u8]) -> Result<(), Stopped> {
        match self.rt.stdout().write_all(bytes) {
            Ok(()) => Ok(()),
            Err(error) => {
                fail(self.rt, "standard output", error);
                Err(Stopped)
            }
        }
    }

    // Bytes that need not be text.
    pub(crate) fn say(&self, bytes: &[u8]) {
        let _ = self.written(bytes);
    }

    pub(crate) fn end_line(&self) -> Result<(), Stopped> {
        self.written(b"\n")
    }
}

impl fmt::Write for Output<'_> {
    fn write_str(&mut self, s: &str) -> fmt::Result {
        self.say(s.as_bytes());
        Ok(())
    }
}
