// The reader's companion.
#![tactic(auto)]

ghost use Rattle.std.specs.Prelude.{◌≡◌, ◌++◌, length, drop};
ghost use Rattle.readings.specs.Reading.{decoding};
ghost use Rattle.rest.specs.Rest.{RestOf};

// The reader, which hands back the unread rest as a part of the caller's own bytes.
pub fn decode_rest<'a>(
    s: &'a [u8],
    codes: &mut [u32],
    flags: u32,
    number: &mut u8,
    produced: &mut usize,
    subpart: &mut usize,
) -> &'a [u8]
    ensures rest { RestOf s.entry (decoding flags (length codes.old) s.now).consumed result }
    ensures stop { number.new ≡ (decoding flags (length codes.old) s.now).number }
    ensures count { produced.new ≡ length (decoding flags (length codes.old) s.now).codes }
    ensures bad { subpart.new ≡ (decoding flags (length codes.old) s.now).subpart }
    ensures output { codes.new ≡ (decoding flags (length codes.old) s.now).codes ++ drop produced.new codes.old }
{
    let r = decode::decode(s, codes, flags);
    *number = r.number;
    *produced = r.produced;
    *subpart = r.subpart;
    let at = r.consumed;
    &s[at..]
}
