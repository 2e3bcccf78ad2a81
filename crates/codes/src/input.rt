// All of an input, into memory of a fixed size.
ghost use Rattle.std.specs.Prelude.{◌≡◌, ◌≤◌, length};

use crate::refusal::Fault;
use std::io::Read;

pub(crate) const LIMIT: usize = 1048576;

// The contract gives the length alone: a caller then never computes the zeros.
pub(crate) fn input_buffer() -> [u8; LIMIT]
    ensures { LIMIT ≡ length result }
{
    [0; LIMIT]
}

// Reads until the buffer is full, the input ends or a read fails, and answers how many bytes came.
fn read_full<R: Read>(input: &mut R, buffer: &mut [u8]) -> usize
    ensures { result ≤ length buffer.new }
{
    let mut done = 0;
    while done < buffer.len() {
        match input.read(&mut buffer[done..]) {
            Ok(0) | Err(_) => return done,
            Ok(n) => done += n,
        }
    }
    done
}

// The input has ended if there is no byte more.
pub(crate) fn read_all<'a, R: Read>(
    input: &mut R,
    buffer: &'a mut [u8],
) -> Result<&'a [u8], Fault> {
    let done = read_full(input, buffer);
    match input.read(&mut [0; 1])? {
        0 => Ok(&buffer[..done]),
        _ if done < buffer.len() => Err(Fault::ReadFailed),
        _ => Err(Fault::TooLong),
    }
}
