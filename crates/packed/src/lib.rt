// The reader and the writer over packed codes: four bytes each, low byte first.
#![tactic(auto)]

ghost use Rattle.std.specs.Prelude.{◌≡◌, ◌+◌, ◌*◌, ◌/◌, ◌≤◌, length, take};
ghost use Rattle.readings.specs.Reading.{decoding_in};
ghost use Rattle.reader.specs.Decoded.{decoded_of};
ghost use Rattle.forms.specs.Forms.{rows_of};
ghost use Rattle.writings.specs.Writing.{encoding_in};
ghost use Rattle.writer.specs.Encoded.{encoded_of};
ghost use Rattle.numbers.specs.Number.{over};
ghost use Rattle.quads.specs.Bytes.{laid, codes_of};

use codings::Coding;
use decode::Decoded;
use encode::Encoded;
use flags::Flags;
use forms::Form;

// The reader in a coding.
pub fn decode_packed(coding: Coding, src: &[u8], codes: &mut [u8], flags: u32) -> Decoded
    ensures answer { result ≡ decoded_of (decoding_in coding flags (length codes.old / 4) src.now) }
    ensures output { codes.new ≡ over (laid (decoding_in coding flags (length codes.old / 4) src.now).codes) codes.old }
{
    decode::decode_in(coding, src, codes, flags)
}

// The writer in a coding.
pub fn encode_packed(coding: Coding, codes: &[u8], dst: &mut [u8], flags: u32) -> Encoded
    ensures answer { result ≡ encoded_of (encoding_in coding flags (length dst.old) (codes_of codes.now)) }
    ensures output { dst.new ≡ over (encoding_in coding flags (length dst.old) (codes_of codes.now)).written dst.old }
{
    encode::encode_in(coding, codes, dst, flags)
}
