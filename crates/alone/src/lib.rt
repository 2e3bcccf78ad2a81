// Bytes that are read by themselves, in a leap.
#![tactic(auto)]

ghost use Rattle.std.specs.Prelude.{◌≡◌, ◌&&◌, ◌||◌, ltb};
ghost use Rattle.readings.specs.Come.{single};

use flags::Flags;

// The code of a byte that is read by itself.
#[tactic(auto, unfolding(readings::specs::Come::single))]
pub fn single_of(b: u8) -> u32
    ensures { result ≡ single b }
{
    if b < 0x80 {
        u32::from(b)
    } else {
        0xDC00 + u32::from(b)
    }
}

// Whether four bytes are ASCII.
pub fn all_ascii(a: u8, b: u8, c: u8, d: u8) -> bool
    ensures { result ≡ (ltb a 0x80 && ltb b 0x80 && ltb c 0x80 && ltb d 0x80) }
{
    a < 0x80 && b < 0x80 && c < 0x80 && d < 0x80
}

// With STRICT or SHOW a bad byte does not become an escape.
pub fn careful(m: Flags) -> bool
    ensures { result ≡ m.strict || m.show }
{
    m.strict || m.show
}
