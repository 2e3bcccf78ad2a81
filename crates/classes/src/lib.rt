// The class of a byte: which of fifteen ranges it is in. A walk over the bytes of a sequence has to know no more of a byte.
#![tactic(auto)]

ghost use Rattle.std.specs.Prelude.{◌≡◌, ◌<◌};
ghost use Rattle.classes.specs.Class.{digit_of, class_of, classes_of};

// The hex digit at a place of a number, from the right and from 0 on; 0 beyond the sixteenth.
pub fn digit(digits: u64, place: usize) -> usize
    ensures { result ≡ digit_of digits place }
{
    if 15 < place {
        return 0;
    }
    (digits >> (4 * place)) as usize % 16
}

// The classes of the sixteen bytes with this high digit, a digit each. This is a `match` and no array, since an array would be built at each use: with a
// number for each arm it becomes a table in read-only memory.
fn classes(high: u8) -> u64
    requires { high < 16 }
    ensures { result ≡ classes_of high }
{
    match high {
        // By low digit: FEDC_BA98_7654_3210.
        0x0 => 0x0000_0000_0000_0000,
        0x1 => 0x0000_0000_0000_0000,
        0x2 => 0x0000_0000_0000_0000,
        0x3 => 0x0000_0000_0000_0000,
        0x4 => 0x0000_0000_0000_0000,
        0x5 => 0x0000_0000_0000_0000,
        0x6 => 0x0000_0000_0000_0000,
        0x7 => 0x0000_0000_0000_0000,
        0x8 => 0x1111_1111_1111_1111,
        0x9 => 0x2222_2222_2222_2222,
        0xA => 0x3333_3333_3333_3333,
        0xB => 0x4444_4444_4444_4444,
        0xC => 0x6666_6666_6666_6655,
        0xD => 0x6666_6666_6666_6666,
        0xE => 0xAA98_8888_8888_8887,
        _ => 0xEEEE_EEEE_EEED_CCCB, // 0xF
    }
}

// The class of a byte.
pub fn class_of(b: u8) -> usize
    ensures { result ≡ class_of b }
{
    digit(classes(b / 16), (b % 16) as usize)
}
