// The calls that are tried.
ghost use Rattle.std.specs.Prelude.{◌≡◌, length};

use crate::output::Output;
use crate::request::{Given, HexBytes, HexCodes, LONGEST, Request, Width};
use crate::tell::{Bytes, Codes, Held, Hex, HexRecord, Name, OrDash};
use advance::Answer;
use back::Back;
use codings::Coding;
use decode::Decoded;
use encode::Encoded;
use std::fmt;
use std::fmt::Write;
use steps::{State, Stepped};

// What stands in a buffer before a call, in every byte.
const FILLED: u8 = 0xEE;

const FILLED_CODE: u32 = 0xEEEEEEEE;

// The contract gives the length alone: a caller then never computes the places.
pub(crate) fn filled<T: Copy>(value: T) -> [T; LONGEST]
    ensures { 65536 ≡ length result }
{
    [value; LONGEST]
}

// Whether a place behind those that were given was changed, in the room or in some places beyond it.
fn is_changed_beyond<T: PartialEq>(places: &[T], produced: usize, room: usize, filled: &T) -> bool {
    places
        .iter()
        .take(room.saturating_add(16))
        .skip(produced)
        .any(|place| place != filled)
}

// The length of a maximal subpart; 0 is none.
fn subpart_of(length: usize) -> OrDash<usize> {
    OrDash((length != 0).then_some(length))
}

// What the reader gave.
fn tell_codes(
    out: &mut Output<'_>,
    codes: &[u32],
    produced: usize,
    room: usize,
    subpart: usize,
) -> fmt::Result {
    let produced = produced.min(codes.len());
    write!(out, "{} {}", Codes(&codes[..produced]), subpart_of(subpart))?;
    if is_changed_beyond(codes, produced, room, &FILLED_CODE) {
        write!(out, " beyond")?;
    }
    Ok(())
}

fn read_in(coding: Coding, bytes: &[u8], codes: &mut [u32], flags: u32) -> Decoded {
    match coding {
        Coding::Utf8 => decode::decode(bytes, codes, flags),
        Coding::Cesu8 => decode::decode_in(coding, bytes, codes, flags),
    }
}

// This, `rest`, `write` and `step` have large buffers. Inlined, they would have every line take their stack, a remark too.
#[inline(never)]
fn read(out: &mut Output<'_>, coding: Coding, given: Given<HexBytes<'_>>) -> fmt::Result {
    let mut buffer = filled(FILLED);
    let mut codes = filled(FILLED_CODE);
    let length = given.input.put_into(&mut buffer);
    let room = given.room.min(codes.len());
    let decoded = read_in(coding, &buffer[..length], &mut codes[..room], given.flags);
    write!(out, "{} {} ", decoded.number, decoded.consumed)?;
    tell_codes(out, &codes, decoded.produced, room, decoded.subpart)
}

#[inline(never)]
fn rest(out: &mut Output<'_>, given: Given<HexBytes<'_>>) -> fmt::Result {
    let mut buffer = filled(FILLED);
    let mut codes = filled(FILLED_CODE);
    let mut number: u8 = FILLED;
    let mut produced = usize::MAX;
    let mut subpart = usize::MAX;
    let length = given.input.put_into(&mut buffer);
    let room = given.room.min(codes.len());
    let left = rest::decode_rest(
        &buffer[..length],
        &mut codes[..room],
        given.flags,
        &mut number,
        &mut produced,
        &mut subpart,
    );
    write!(out, "{number} ")?;
    tell_codes(out, &codes, produced, room, subpart)?;
    write!(out, " {}", Bytes(left))
}

fn write_in(coding: Coding, codes: &[u32], bytes: &mut [u8], flags: u32) -> Encoded {
    match coding {
        Coding::Utf8 => encode::encode(codes, bytes, flags),
        Coding::Cesu8 => encode::encode_in(coding, codes, bytes, flags),
    }
}

#[inline(never)]
fn write(out: &mut Output<'_>, coding: Coding, given: Given<HexCodes<'_>>) -> fmt::Result {
    let mut buffer = filled(FILLED_CODE);
    let mut bytes = filled(FILLED);
    let length = given.input.put_into(&mut buffer);
    let room = given.room.min(bytes.len());
    let encoded = write_in(coding, &buffer[..length], &mut bytes[..room], given.flags);
    let produced = encoded.produced.min(bytes.len());
    write!(
        out,
        "{} {} {}",
        encoded.number,
        encoded.consumed,
        Bytes(&bytes[..produced])
    )?;
    if is_changed_beyond(&bytes, produced, room, &FILLED) {
        write!(out, " beyond")?;
    }
    Ok(())
}

fn stepped(width: Width, state: State, input: &[u8]) -> Stepped {
    match width {
        Width::Units8 => state.step8(input),
        Width::Units16 => state.step16(input),
        Width::Codes => state.step32(input),
        Width::Cesu16 => state.step16_cesu8(input),
    }
}

// A step's answer: its name, the unit that came out, what was consumed, how many bytes had been held, and the length of the maximal subpart.
#[derive(Clone, Copy)]
struct Told {
    name: Name,
    unit: Option<u32>,
    consumed: usize,
    held: Option<u8>,
    subpart: u8,
}

impl Told {
    fn new(name: Name, unit: Option<u32>, consumed: usize) -> Told {
        Told {
            name,
            unit,
            consumed,
            held: None,
            subpart: 0,
        }
    }

    fn of(answer: Answer, len: usize) -> Told {
        match answer {
            Answer::Refused => Told::new(Name::Refused, None, 0),
            Answer::Continuation(unit) => Told::new(Name::Continuation, Some(unit), 0),
            Answer::Incomplete => Told::new(Name::Incomplete, None, len),
            Answer::Bad(held, subpart) => Told {
                name: Name::Bad,
                unit: None,
                consumed: 0,
                held: Some(held),
                subpart,
            },
            Answer::Null => Told::new(Name::Null, Some(0), 1),
            Answer::Unit(unit, consumed) => Told::new(Name::Unit, Some(unit), consumed),
        }
    }
}

impl fmt::Display for Told {
    fn fmt<W: fmt::Write>(&self, f: &mut fmt::Formatter<W>) -> fmt::Result {
        write!(
            f,
            "{}{} {}{} {}",
            self.name,
            OrDash(self.unit.map(Hex)),
            self.consumed,
            Held(self.held),
            subpart_of(usize::from(self.subpart))
        )
    }
}

#[inline(never)]
fn step(out: &mut Output<'_>, width: Width, state: State, bytes: HexBytes<'_>) -> fmt::Result {
    let mut buffer = filled(FILLED);
    let length = bytes.put_into(&mut buffer);
    let answered = stepped(width, state, &buffer[..length]);
    write!(
        out,
        "{} {}",
        Told::of(answered.answer, length),
        HexRecord(answered.next.raw)
    )
}

fn back(out: &mut Output<'_>, state: State, unit: u16) -> fmt::Result {
    let r = state.step_back(unit);
    let (name, held) = match r.answer {
        Back::Refused => (Name::Refused, None),
        Back::Held => (Name::Held, None),
        Back::Bytes => (Name::Bytes, None),
        Back::Bad(held) => (Name::Bad, Some(held)),
    };
    write!(
        out,
        "{}{} {}{} {}",
        name,
        Bytes(&r.bytes),
        r.count,
        Held(held),
        HexRecord(r.next.raw)
    )
}

fn reset(out: &mut Output<'_>, state: State) -> fmt::Result {
    let r = state.reset();
    write!(out, "{} {}", r.number, HexRecord(r.next.raw))
}

fn start(out: &mut Output<'_>, state: State) -> fmt::Result {
    write!(out, "{}", if state.is_starting() { "yes" } else { "no" })
}

// Makes the call and writes its answer.
pub(crate) fn obey(out: &mut Output<'_>, request: Request<'_>) -> fmt::Result {
    match request {
        Request::Remark(line) => {
            out.say(line);
            Ok(())
        }
        Request::Read(coding, given) => read(out, coding, given),
        Request::Rest(given) => rest(out, given),
        Request::Write(coding, given) => write(out, coding, given),
        Request::Step(width, state, bytes) => step(out, width, state, bytes),
        Request::Back(state, unit) => back(out, state, unit),
        Request::Reset(state) => reset(out, state),
        Request::Start(state) => start(out, state),
    }
}
