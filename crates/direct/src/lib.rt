// The reader and the writer themselves, for a caller in C whose codes are numbers of 32 bits: the benchmark times them beside the entries.
#![tactic(auto)]

ghost use Rattle.std.specs.Prelude.{◌≡◌, ◌++◌, length, drop};
ghost use Rattle.readings.specs.Reading.{decoding};
ghost use Rattle.writings.specs.Writing.{encoding};

// The codes produced.
#[unsafe(no_mangle)]
pub extern "C" fn direct_decode(s: &[u8], codes: &mut [u32], flags: u32) -> usize
    ensures answer { result ≡ length (decoding flags (length codes.old) s.now).codes }
    ensures output { codes.new ≡ (decoding flags (length codes.old) s.now).codes ++ drop result codes.old }
{
    let reading = decode::decode(s, codes, flags);
    reading.produced
}

// The bytes produced.
#[unsafe(no_mangle)]
pub extern "C" fn direct_encode(codes: &[u32], dst: &mut [u8], flags: u32) -> usize
    ensures answer { result ≡ length (encoding flags (length dst.old) codes.now).written }
    ensures output { dst.new ≡ (encoding flags (length dst.old) codes.now).written ++ drop result dst.old }
{
    let writing = encode::encode(codes, dst, flags);
    writing.produced
}
