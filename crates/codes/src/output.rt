// Gathers what is written, and calls the system for 4096 bytes at a time. After an error nothing more is written, and `finish` gives the error.
ghost use Rattle.std.specs.Prelude.{◌≡◌, OnOk};
ghost use Rattle.arrayvec.specs.ArrayVec.{array_vec_len};

use arrayvec::ArrayVec;
use std::{fmt, io};

#[derive(Drop)]
pub(crate) struct Output<'a, P> {
    to: &'a P,
    waiting: ArrayVec<u8, 4096>,
    // Of the write that failed.
    error: Option<io::Error>,
}

impl<'a, P: Print> Output<'a, P> {
    pub(crate) fn new(to: &'a P) -> Output<'a, P> {
        Output {
            to,
            waiting: ArrayVec::new(),
            error: None,
        }
    }
}

impl<P: Print> Output<'_, P> {
    // Writes the bytes that wait: none wait then.
    fn send(&mut self) -> fmt::Result
        ensures { OnOk result (array_vec_len self.new.waiting ≡ 0) }
    {
        if self.error.is_some() {
            return Err(fmt::Error);
        }
        match Print::write_all(self.to, self.waiting.as_slice()) {
            Ok(()) => {
                self.waiting.clear();
                Ok(())
            }
            Err(error) => {
                self.error = Some(error);
                Err(fmt::Error)
            }
        }
    }

    fn push(&mut self, byte: u8) -> fmt::Result {
        if self.waiting.is_full() {
            self.send()?;
        }
        self.waiting.push(byte);
        Ok(())
    }

    // Bytes that need not be text.
    pub(crate) fn write_bytes(&mut self, bytes: &[u8]) -> fmt::Result {
        if self.waiting.try_extend_from_slice(bytes).is_ok() {
            return Ok(());
        }
        for byte in bytes {
            self.push(*byte)?;
        }
        Ok(())
    }

    // Writes the bytes that still wait. An error of an earlier write is given too.
    pub(crate) fn finish(mut self) -> io::Result<()> {
        let _ = self.send();
        match self.error {
            Some(error) => Err(error),
            None => Ok(()),
        }
    }
}

impl<P: Print> fmt::Write for Output<'_, P> {
    fn write_str(&mut self, s: &str) -> fmt::Result {
        self.write_bytes(s.as_bytes())
    }
}
