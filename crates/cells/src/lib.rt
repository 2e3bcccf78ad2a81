// What codes are laid into, one behind another.
#![tactic(auto)]

ghost use Rattle.std.specs.Prelude.{◌≡◌, List, ℕ, [], ◌∷◌, ◌++◌, ◌+◌, ◌*◌, ◌/◌, ◌%◌, ◌^◌, ◌≤◌, ◌<◌, length, take, drop};
ghost use Rattle.numbers.specs.Number.{laid_in};
ghost use Rattle.readings.specs.Come.{as_is, Layout, Rooms};
ghost use Rattle.readings.proofs.Come.{cells, packed, cell-rooms, packed-rooms};

// A cell of a buffer for codes: a code of 32 bits, or one of its four bytes, low byte first.
pub trait Cell: Copy {
    // The cells of codes, how many so many codes take, and how many codes so many have room for.
    ghost lay: { List ℕ → List Self };

    ghost cells: { ℕ → ℕ };

    ghost room: { ℕ → ℕ };

    // The cells that so many codes take, as a number of 64 bits: no buffer has more.
    fn cells(codes: usize) -> usize
        ensures { result ≡ cells codes % 2 ^ 64 };

    // The codes that so many cells have room for.
    fn room(len: usize) -> usize
        ensures { result ≡ room len };

    // A code is put where the nth stands; where there is no room for it, all stays as it is.
    fn put(codes: &mut [Self], n: usize, code: u32)
        ensures inside { cells n + cells 1 ≤ length codes.old → codes.new ≡ take (cells n) codes.old ++ lay (code ∷ []) ++ drop (cells n + cells 1) codes.old }
        ensures beyond { length codes.old < cells n + cells 1 → codes.new ≡ codes.old };

    ghost laws: { Layout lay cells };

    ghost rooms: { Rooms cells room };
}

impl Cell for u32 {
    ghost lay = { as_is };

    ghost cells = { λ n. n };

    ghost room = { λ k. k };

    ghost laws = { cells };

    ghost rooms = { cell-rooms };

    fn cells(codes: usize) -> usize {
        codes
    }

    fn room(len: usize) -> usize {
        len
    }

    fn put(codes: &mut [u32], n: usize, code: u32) {
        if n < codes.len() {
            codes[n] = code;
        }
    }
}

impl Cell for u8 {
    ghost lay = { laid_in 4 };

    ghost cells = { λ n. n * 4 };

    ghost room = { λ k. k / 4 };

    ghost laws = { packed };

    ghost rooms = { packed-rooms };

    fn cells(codes: usize) -> usize {
        codes.wrapping_mul(4)
    }

    fn room(len: usize) -> usize {
        len / 4
    }

    fn put(codes: &mut [u8], n: usize, code: u32) {
        if n < codes.len() / 4 {
            let at = n * 4;
            let [a, b, c, d] = code.to_le_bytes();
            codes[at] = a;
            codes[at + 1] = b;
            codes[at + 2] = c;
            codes[at + 3] = d;
        }
    }
}
