// How answers are written.
use state::Record;
use std::fmt;

// A value that may not be there.
#[derive(Drop)]
pub(crate) struct OrDash<T>(pub(crate) Option<T>);

impl<T: fmt::Display> fmt::Display for OrDash<T> {
    fn fmt<W: fmt::Write>(&self, f: &mut fmt::Formatter<W>) -> fmt::Result {
        match &self.0 {
            Some(value) => value.fmt(f),
            None => f.write_str("-"),
        }
    }
}

#[derive(Clone, Copy)]
pub(crate) struct Hex(pub(crate) u32);

impl fmt::Display for Hex {
    fn fmt<W: fmt::Write>(&self, f: &mut fmt::Formatter<W>) -> fmt::Result {
        write!(f, "{:X}", self.0)
    }
}

#[derive(Clone, Copy)]
pub(crate) struct Codes<'a>(pub(crate) &'a [u32]);

impl fmt::Display for Codes<'_> {
    fn fmt<W: fmt::Write>(&self, f: &mut fmt::Formatter<W>) -> fmt::Result {
        if self.0.is_empty() {
            return f.write_str("-");
        }
        f.write_joined(self.0.iter().copied().map(Hex), ",")
    }
}

#[derive(Clone, Copy)]
pub(crate) struct Bytes<'a>(pub(crate) &'a [u8]);

impl fmt::Display for Bytes<'_> {
    // Standard output has no buffer: 32 bytes are one write. A format for each of them would take longer.
    fn fmt<W: fmt::Write>(&self, f: &mut fmt::Formatter<W>) -> fmt::Result {
        if self.0.is_empty() {
            return f.write_str("-");
        }
        for part in self.0.chunks(32) {
            let mut room = [0u8; 64];
            let len = room.len().min(2 * part.len());
            let digits = &mut room[..len];
            let _ = hex::encode_to_slice(part, digits);
            for digit in digits.iter_mut() {
                digit.make_ascii_uppercase();
            }
            match str::from_utf8(digits) {
                Ok(text) => f.write_str(text)?,
                Err(_) => return Err(fmt::Error),
            }
        }
        Ok(())
    }
}

// The 16 bytes of a state's record.
#[derive(Clone, Copy)]
pub(crate) struct HexRecord(pub(crate) Record);

impl fmt::Display for HexRecord {
    fn fmt<W: fmt::Write>(&self, f: &mut fmt::Formatter<W>) -> fmt::Result {
        let head = [self.0.kind, self.0.count];
        write!(f, "{}{}", Bytes(&head), Bytes(&self.0.bytes))
    }
}

// What had been held, after a space.
#[derive(Clone, Copy)]
pub(crate) struct Held(pub(crate) Option<u8>);

impl fmt::Display for Held {
    fn fmt<W: fmt::Write>(&self, f: &mut fmt::Formatter<W>) -> fmt::Result {
        match self.0 {
            Some(count) => write!(f, " {count}"),
            None => f.write_str(" -"),
        }
    }
}

// What a step answers.
#[derive(Clone, Copy)]
pub(crate) enum Name {
    // The state is refused.
    Refused,
    // A pending unit came out.
    Continuation,
    // The input ends within a sequence.
    Incomplete,
    // The bytes, or the unit, are bad.
    Bad,
    // The code 0 came out.
    Null,
    // The first unit of a code came out.
    Unit,
    // The unit is held.
    Held,
    // The unit gave bytes.
    Bytes,
}

// The name and its number, with the space that follows.
impl fmt::Display for Name {
    fn fmt<W: fmt::Write>(&self, f: &mut fmt::Formatter<W>) -> fmt::Result {
        f.write_str(match self {
            Name::Refused => "refused 5 ",
            Name::Continuation => "continuation 0 ",
            Name::Incomplete => "incomplete 2 ",
            Name::Bad => "bad 3 ",
            Name::Null => "null 0 ",
            Name::Unit => "unit 0 ",
            Name::Held => "held 0 ",
            Name::Bytes => "bytes 0 ",
        })
    }
}
