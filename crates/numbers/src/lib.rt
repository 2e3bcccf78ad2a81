// Numbers as bytes, low byte first.
#![tactic(auto)]

ghost use Rattle.std.specs.Prelude.{◌≡◌, length, take};
ghost use Rattle.numbers.specs.Number.{low_first, value};

// The bytes of a number.
const BYTES: usize = 8;

// A number over all of a buffer: what does not fit is left out, and a longer buffer ends with zeros.
pub fn put(n: usize, out: &mut [u8])
    ensures { out.new ≡ low_first (length out.old) n }
{
    let mut left = n;
    for b in out.iter_mut() {
        *b = (left % 256) as u8;
        left /= 256;
    }
}

// The number of the first eight bytes, or of all where there are fewer.
pub fn number_of(s: &[u8]) -> usize
    ensures { result ≡ value (take 8 s.now) }
{
    let front = &s[..BYTES.min(s.len())];
    let mut n: usize = 0;
    for &b in front.iter().rev() {
        n = n * 256 + b as usize;
    }
    n
}
