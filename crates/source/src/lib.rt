// What the writer takes its codes from: numbers of 32 bits as they are, or bytes, four to a code, low byte first.
#![tactic(auto)]

ghost use Rattle.std.specs.Prelude.{◌≡◌, List, ℕ, ◌<◌, ◌+◌, ◌*◌, ◌%◌, ◌^◌, ◌≤◌, length, take, drop, get_or};
ghost use Rattle.quads.specs.Bytes.{codes_of};
ghost use Rattle.quads.specs.Parts.{Parts};
ghost use Rattle.quads.proofs.Parts.{numbers, number_single, quads, quad_single};

// Cells in which codes lie.
pub trait Source: Copy {
    // The codes that lie in cells, and the cells that so many of them take.
    ghost codes: { List Self → List ℕ };

    ghost width: { ℕ → ℕ };

    // What `one` gives.
    ghost single: { List Self → ℕ → List ℕ → List ℕ };

    // The cells that so many codes take, as a number of 64 bits: no buffer has more.
    fn cells(count: usize) -> usize
        ensures { result ≡ width count % 2 ^ 64 };

    // How many codes lie there.
    fn count(cells: &[Self]) -> usize
        ensures { result ≡ length (codes cells.now) };

    // The code at a place; there is none beyond the last, and the answer is 0.
    fn get(cells: &[Self], place: usize) -> u32
        ensures { result ≡ get_or (codes cells.now) place 0 };

    // The code at a place by itself: the number that lies there, where numbers lie there, and else the one that is lent.
    fn one<'a>(cells: &'a [Self], place: usize, lent: &'a [u32; 1]) -> &'a [u32]
        ensures { result.now ≡ single cells.now place lent.now };

    // What is left from a place on, with what may stand behind the last code.
    fn rest(cells: &[Self], place: usize) -> &[Self]
        ensures left { codes result.now ≡ drop place (codes cells.now) }
        ensures all { result.now ≡ drop (width place) cells.now };

    ghost parts: { Parts codes width };

    // Where the code at the place is lent, that code is given.
    ghost singles: { (l : List Self) (place : ℕ) (lent : List ℕ) → lent ≡ take 1 (drop place (codes l)) → single l place lent ≡ lent };
}

impl Source for u32 {
    ghost codes = { λ cells. cells };

    ghost width = { λ n. n };

    ghost single = { λ l place lent. take 1 (drop place l) };

    ghost parts = { numbers };

    ghost singles = { number_single };

    fn cells(count: usize) -> usize {
        count
    }

    fn count(cells: &[u32]) -> usize {
        cells.len()
    }

    fn get(cells: &[u32], place: usize) -> u32 {
        if place < cells.len() { cells[place] } else { 0 }
    }

    fn one<'a>(cells: &'a [u32], place: usize, _lent: &'a [u32; 1]) -> &'a [u32] {
        if place < cells.len() {
            &cells[place..place + 1]
        } else {
            &[]
        }
    }

    fn rest(cells: &[u32], place: usize) -> &[u32] {
        if place <= cells.len() {
            &cells[place..]
        } else {
            &[]
        }
    }
}

// As a flat sum it is compiled to one load.
fn code(a: u8, b: u8, c: u8, d: u8) -> u32
    ensures { result ≡ a + 256 * (b + 256 * (c + 256 * d)) }
{
    a as u32 + 0x100 * b as u32 + 0x10000 * c as u32 + 0x1000000 * d as u32
}

impl Source for u8 {
    ghost codes = { codes_of };

    ghost width = { λ n. n * 4 };

    ghost single = { λ l place lent. lent };

    ghost parts = { quads };

    ghost singles = { quad_single };

    fn cells(count: usize) -> usize {
        count.wrapping_mul(4)
    }

    fn count(cells: &[u8]) -> usize {
        cells.len() / 4
    }

    fn get(cells: &[u8], place: usize) -> u32 {
        if cells.len() / 4 <= place {
            return 0;
        }
        let at = place * 4;
        code(cells[at], cells[at + 1], cells[at + 2], cells[at + 3])
    }

    fn one<'a>(_cells: &'a [u8], _place: usize, lent: &'a [u32; 1]) -> &'a [u32] {
        lent
    }

    fn rest(cells: &[u8], place: usize) -> &[u8] {
        if cells.len() / 4 < place {
            return &[];
        }
        let from = place * 4;
        &cells[from..]
    }
}
