// A text in pieces: well-formed sequences and bad stretches.
use std::fmt;

const DIGITS: [u8; 16] = *b"0123456789ABCDEF";

// The last hexadecimal digit of the number.
fn digit(number: u32) -> u8 {
    DIGITS[(number % 16) as usize]
}

// Writes text that was made as bytes. In one piece it costs less than a format of several.
fn write_text<W: fmt::Write>(f: &mut fmt::Formatter<W>, bytes: &[u8]) -> fmt::Result {
    match str::from_utf8(bytes) {
        Ok(text) => f.write_str(text),
        Err(_) => Err(fmt::Error),
    }
}

// A byte of a bad stretch.
#[derive(Clone, Copy)]
struct BadByte(u8);

impl fmt::Display for BadByte {
    fn fmt<W: fmt::Write>(&self, f: &mut fmt::Formatter<W>) -> fmt::Result {
        let byte = u32::from(self.0);
        write_text(f, &[b'<', digit(byte / 0x10), digit(byte), b'>'])
    }
}

// Some bytes, from a place of the text on.
#[derive(Clone, Copy)]
pub(crate) struct Piece<'a> {
    pub place: usize,
    pub bytes: &'a [u8],
    // None where they are a bad stretch.
    pub code: Option<u32>,
}

impl fmt::Display for Piece<'_> {
    fn fmt<W: fmt::Write>(&self, f: &mut fmt::Formatter<W>) -> fmt::Result {
        match self.code {
            Some(code) if code <= 0xFFFF => write_text(
                f,
                &[
                    b'U',
                    b'+',
                    digit(code / 0x1000),
                    digit(code / 0x100),
                    digit(code / 0x10),
                    digit(code),
                ],
            ),
            Some(code) => write!(f, "U+{code:X}"),
            None => f.write_joined(self.bytes.iter().copied().map(BadByte), " "),
        }
    }
}

// The pieces from a place of the text up to an end.
#[derive(Clone, Copy)]
pub(crate) struct Pieces<'a> {
    text: &'a [u8],
    place: usize,
    end: usize,
}

impl Pieces<'_> {
    pub(crate) fn is_empty(&self) -> bool {
        self.end <= self.place
    }
}

impl<'a> Iterator for Pieces<'a> {
    type Item = Piece<'a>;

    ghost use Rattle.std.specs.Prelude.{◌-◌};
    ghost use Rattle.std.specs.Iterator.{at_most};

    ghost remaining = { λ s. at_most (s.end - s.place) };

    // A piece has a byte at least, so that the walk never stands still.
    fn next(&mut self) -> Option<Piece<'a>> {
        let rest = self.text.get(self.place..self.end)?;
        if rest.is_empty() {
            return None;
        }
        let item = item::item_of(rest)?;
        let len = item.subpart.unwrap_or(item.span).clamp(1, rest.len());
        let piece = Piece {
            place: self.place,
            bytes: &rest[..len],
            code: item.subpart.is_none().then_some(item.code),
        };
        self.place += len;
        Some(piece)
    }
}

impl fmt::Display for Pieces<'_> {
    fn fmt<W: fmt::Write>(&self, f: &mut fmt::Formatter<W>) -> fmt::Result {
        f.write_joined(*self, " ")
    }
}

// The lines of a text, without their line feeds. A line feed is part of no other sequence, so that line by line the codes are those of the whole.
#[derive(Clone, Copy)]
pub(crate) struct Lines<'a> {
    text: &'a [u8],
    place: usize,
}

impl<'a> Lines<'a> {
    pub(crate) fn new(text: &'a [u8]) -> Lines<'a> {
        Lines { text, place: 0 }
    }
}

impl<'a> Iterator for Lines<'a> {
    type Item = Pieces<'a>;

    ghost use Rattle.std.specs.Prelude.{length, ◌-◌};
    ghost use Rattle.std.specs.Iterator.{at_most};

    ghost remaining = { λ s. at_most (length s.text.now - s.place) };

    fn next(&mut self) -> Option<Pieces<'a>> {
        let rest = self.text.get(self.place..)?;
        if rest.is_empty() {
            return None;
        }
        let len = rest
            .iter()
            .position(|byte| *byte == b'\n')
            .unwrap_or(rest.len());
        let line = Pieces {
            text: self.text,
            place: self.place,
            end: self.place + len,
        };
        self.place = line.end + 1;
        Some(line)
    }
}
