// What the first byte of a sequence says.
#![tactic(auto)]

ghost use Rattle.std.specs.Prelude.{◌≡◌, Some};
ghost use Rattle.form.specs.Table.{long_rows};
ghost use Rattle.form.specs.Scan.{after};
ghost use Rattle.forms.specs.Forms.{rows_of};
ghost use Rattle.lead.specs.Lead.{lead_of};

use forms::Form;

// The length of the sequences that begin with a byte, and the range of their second byte. CESU-8 has surrogate pairs too that begin with ED.
#[derive(Clone, Copy)]
pub struct Lead {
    pub len: usize,
    pub lo: u8,
    pub hi: u8,
}

fn leads(len: usize, lo: u8, hi: u8) -> Option<Lead>
    ensures { result ≡ Some (record { len = len; lo = lo; hi = hi }) }
{
    Some(Lead { len, lo, hi })
}

// What a first byte says of the sequences of four bytes.
fn lead_long(b: u8) -> Option<Lead>
    ensures { result ≡ lead_of (after b long_rows) }
{
    match b {
        0x00..=0xEF => None,
        0xF0 => leads(4, 0x90, 0xBF),
        0xF1..=0xF3 => leads(4, 0x80, 0xBF),
        0xF4 => leads(4, 0x80, 0x8F),
        0xF5..=0xFF => None,
    }
}

// What a first byte says: None where it begins no sequence.
pub fn lead_of(form: Form, b: u8) -> Option<Lead>
    ensures { result ≡ lead_of (after b (rows_of form)) }
{
    match b {
        0x00..=0x7F => leads(1, 0, 0),
        0x80..=0xC1 => None,
        0xC2..=0xDF => leads(2, 0x80, 0xBF),
        0xE0 => leads(3, 0xA0, 0xBF),
        0xE1..=0xEC => leads(3, 0x80, 0xBF),
        0xED => match form {
            Form::Plain => leads(3, 0x80, 0x9F),
            Form::Surro => leads(3, 0x80, 0xBF),
            Form::Cesu => leads(3, 0x80, 0x9F),
        },
        0xEE..=0xEF => leads(3, 0x80, 0xBF),
        0xF0..=0xFF => match form {
            Form::Plain | Form::Surro => lead_long(b),
            Form::Cesu => None,
        },
    }
}
