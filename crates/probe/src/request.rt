// What a line asks, read once, or why it is refused.
ghost use Rattle.std.specs.Prelude.{◌≤◌, IfOk};
ghost use Rattle.probe.specs.Counts.{IsPrefixLen};

use codings::Coding;
use state::Record;
use std::cmp::Ordering;
use std::fmt;
use steps::State;

// The longest line, and the most room.
pub(crate) const LONGEST: usize = 65536;

// The units that a step makes of bytes.
#[derive(Clone, Copy)]
pub(crate) enum Width {
    // 8-bit units.
    Units8,
    // 16-bit units.
    Units16,
    // Wide codes.
    Codes,
    // 16-bit units of CESU-8.
    Cesu16,
}

#[derive(Clone, Copy)]
pub(crate) enum Command {
    // The reader.
    Read(Coding),
    // The reader's companion.
    Rest,
    // The writer.
    Write(Coding),
    // A reading step.
    Step(Width),
    // The step back.
    Back,
    // The reset of a state.
    Reset,
    // The question whether a state is the starting one.
    Start,
}

// Why a line is refused.
#[derive(Clone, Copy)]
pub(crate) enum Refusal {
    // It has no words.
    Empty,
    // Its first word is no command.
    UnknownCommand,
    // A word that the command takes is not there.
    TooFewWords,
    // There are words behind those that the command takes.
    TooManyWords,
    // A word that is no flag number,
    Flags,
    // no room,
    Room,
    // no bytes,
    Bytes,
    // no codes,
    Codes,
    // no record,
    Record,
    // or no 16-bit unit.
    Unit,
    // It is longer than is kept of it.
    TooLong,
}

impl fmt::Display for Refusal {
    fn fmt<W: fmt::Write>(&self, f: &mut fmt::Formatter<W>) -> fmt::Result {
        f.write_str(match self {
            Refusal::Empty => "the line is empty",
            Refusal::UnknownCommand => "unknown command",
            Refusal::TooFewWords => "too few words",
            Refusal::TooManyWords => "too many words",
            Refusal::Flags => "FLAGS is not a decimal number up to 4294967295",
            Refusal::Room => "ROOM is not a decimal number up to 65536",
            Refusal::Bytes => "BYTES is not pairs of hexadecimal digits, or -",
            Refusal::Codes =>
                "CODES is not hexadecimal numbers of 1 to 8 digits with commas between them, or -",
            Refusal::Record => "RECORD is not 32 hexadecimal digits",
            Refusal::Unit => "UNIT is not a hexadecimal number of 1 to 4 digits",
            Refusal::TooLong => "the line is longer than 65536 bytes",
        })
    }
}

const COMMANDS: [(&str, Command); 12] = [
    ("read", Command::Read(Coding::Utf8)),
    ("rest", Command::Rest),
    ("write", Command::Write(Coding::Utf8)),
    ("step8", Command::Step(Width::Units8)),
    ("step16", Command::Step(Width::Units16)),
    ("step32", Command::Step(Width::Codes)),
    ("back", Command::Back),
    ("reset", Command::Reset),
    ("start", Command::Start),
    ("cesu8-read", Command::Read(Coding::Cesu8)),
    ("cesu8-write", Command::Write(Coding::Cesu8)),
    ("cesu8-step16", Command::Step(Width::Cesu16)),
];

impl<'a> TryFrom<&'a [u8]> for Command {
    type Error = Refusal;

    fn try_from(word: &'a [u8]) -> Result<Command, Refusal> {
        for (name, command) in COMMANDS {
            if name.as_bytes() == word {
                return Ok(command);
            }
        }
        Err(Refusal::UnknownCommand)
    }
}

impl Command {
    // How many words the command takes.
    fn word_count(self) -> usize {
        match self {
            Command::Read(_) | Command::Rest | Command::Write(_) => 3,
            Command::Step(_) | Command::Back => 2,
            Command::Reset | Command::Start => 1,
        }
    }
}

// The number that the digits are.
fn number(digits: &[u8], radix: u32) -> Option<u32> {
    if digits.is_empty() {
        return None;
    }
    let mut value: u32 = 0;
    for byte in digits {
        let digit = char::from(*byte).to_digit(16)?;
        if radix <= digit {
            return None;
        }
        value = value.checked_mul(radix)?.checked_add(digit)?;
    }
    Some(value)
}

// A number of at most so many digits.
fn hexadecimal(digits: &[u8], most: usize) -> Option<u32> {
    if digits.len() <= most {
        number(digits, 16)
    } else {
        None
    }
}

// Pairs of hexadecimal digits.
#[derive(Clone, Copy)]
pub(crate) struct HexBytes<'a>(&'a [u8]);

impl HexBytes<'_> {
    // How many bytes they are, as many as fit. They stand in the buffer then.
    pub(crate) fn put_into(self, out: &mut [u8]) -> usize
        ensures { IsPrefixLen result out.new }
    {
        let n = out.len().min(self.0.len() / 2);
        let _ = hex::decode_to_slice(&self.0[..n * 2], &mut out[..n]);
        n
    }
}

impl<'a> TryFrom<&'a [u8]> for HexBytes<'a> {
    type Error = Refusal;

    fn try_from(word: &'a [u8]) -> Result<HexBytes<'a>, Refusal> {
        if word == b"-".as_slice() {
            return Ok(HexBytes(&[]));
        }
        if word.is_empty() || word.len() % 2 == 1 || !word.iter().all(u8::is_ascii_hexdigit) {
            return Err(Refusal::Bytes);
        }
        Ok(HexBytes(word))
    }
}

// Hexadecimal numbers with commas between them.
#[derive(Clone, Copy)]
pub(crate) struct HexCodes<'a>(&'a [u8]);

impl HexCodes<'_> {
    // How many codes they are, as many as fit. They stand in the buffer then.
    pub(crate) fn put_into(self, out: &mut [u32]) -> usize
        ensures { IsPrefixLen result out.new }
    {
        let mut n = 0;
        for code in self.0.split(|byte| *byte == b',') {
            match hexadecimal(code, 8) {
                Some(value) if n < out.len() => {
                    out[n] = value;
                    n += 1;
                }
                _ => return n,
            }
        }
        n
    }
}

impl<'a> TryFrom<&'a [u8]> for HexCodes<'a> {
    type Error = Refusal;

    fn try_from(word: &'a [u8]) -> Result<HexCodes<'a>, Refusal> {
        if word == b"-".as_slice() {
            return Ok(HexCodes(&[]));
        }
        if word
            .split(|byte| *byte == b',')
            .all(|code| hexadecimal(code, 8).is_some())
        {
            Ok(HexCodes(word))
        } else {
            Err(Refusal::Codes)
        }
    }
}

// The words that are left of a line. Between two of them stands one space.
#[derive(Drop)]
struct Words<'a> {
    left: Option<&'a [u8]>,
}

impl<'a> Words<'a> {
    fn next_word(&mut self) -> Result<&'a [u8], Refusal> {
        let left = self.left.ok_or(Refusal::TooFewWords)?;
        match left.iter().position(|byte| *byte == b' ') {
            Some(end) => {
                self.left = Some(&left[end + 1..]);
                Ok(&left[..end])
            }
            None => {
                self.left = None;
                Ok(left)
            }
        }
    }

    // How many words are left.
    fn count_left(&self) -> usize {
        match self.left {
            Some(left) => left.split(|byte| *byte == b' ').count(),
            None => 0,
        }
    }

    fn flags(&mut self) -> Result<u32, Refusal> {
        number(self.next_word()?, 10).ok_or(Refusal::Flags)
    }

    fn room(&mut self) -> Result<usize, Refusal>
        ensures { IfOk result (λ room. room ≤ LONGEST) }
    {
        match number(self.next_word()?, 10) {
            Some(room) if room as usize <= LONGEST => Ok(room as usize),
            _ => Err(Refusal::Room),
        }
    }

    fn input<T: TryFrom<&'a [u8], Error = Refusal>>(&mut self) -> Result<T, Refusal> {
        T::try_from(self.next_word()?)
    }

    fn state(&mut self) -> Result<State, Refusal> {
        let mut record = [0u8; 16];
        match hex::decode_to_slice(self.next_word()?, &mut record) {
            Ok(()) => {
                let mut bytes = [0u8; 14];
                bytes.copy_from_slice(&record[2..]);
                Ok(State {
                    raw: Record {
                        kind: record[0],
                        count: record[1],
                        bytes,
                    },
                })
            }
            Err(_) => Err(Refusal::Record),
        }
    }

    fn unit(&mut self) -> Result<u16, Refusal> {
        match hexadecimal(self.next_word()?, 4) {
            Some(unit) if unit <= 0xFFFF => Ok(unit as u16),
            _ => Err(Refusal::Unit),
        }
    }

    fn given<T: TryFrom<&'a [u8], Error = Refusal>>(&mut self) -> Result<Given<T>, Refusal> {
        Ok(Given {
            flags: self.flags()?,
            room: self.room()?,
            input: self.input()?,
        })
    }

    // All that is left of a line, from its first word on.
    fn request(mut self) -> Result<Request<'a>, Refusal> {
        let command = Command::try_from(self.next_word()?)?;
        match self.count_left().cmp(&command.word_count()) {
            Ordering::Less => return Err(Refusal::TooFewWords),
            Ordering::Greater => return Err(Refusal::TooManyWords),
            Ordering::Equal => {}
        }
        match command {
            Command::Read(coding) => Ok(Request::Read(coding, self.given()?)),
            Command::Rest => Ok(Request::Rest(self.given()?)),
            Command::Write(coding) => Ok(Request::Write(coding, self.given()?)),
            Command::Step(width) => Ok(Request::Step(width, self.state()?, self.input()?)),
            Command::Back => Ok(Request::Back(self.state()?, self.unit()?)),
            Command::Reset => Ok(Request::Reset(self.state()?)),
            Command::Start => Ok(Request::Start(self.state()?)),
        }
    }
}

// What a reader or a writer is given.
#[derive(Clone, Copy)]
pub(crate) struct Given<T> {
    pub(crate) flags: u32,
    pub(crate) room: usize,
    pub(crate) input: T,
}

#[derive(Clone, Copy)]
pub(crate) enum Request<'a> {
    // Its own answer.
    Remark(&'a [u8]),
    // What the reader is given in a coding,
    Read(Coding, Given<HexBytes<'a>>),
    // and its companion.
    Rest(Given<HexBytes<'a>>),
    // What the writer is given in a coding.
    Write(Coding, Given<HexCodes<'a>>),
    // What a reading step is given.
    Step(Width, State, HexBytes<'a>),
    // What the step back is given.
    Back(State, u16),
    // The state that is reset.
    Reset(State),
    // The state that is asked about.
    Start(State),
}

impl<'a> TryFrom<&'a [u8]> for Request<'a> {
    type Error = Refusal;

    fn try_from(line: &'a [u8]) -> Result<Request<'a>, Refusal> {
        match line {
            [] => Err(Refusal::Empty),
            [b'#', ..] => Ok(Request::Remark(line)),
            _ => Words { left: Some(line) }.request(),
        }
    }
}
