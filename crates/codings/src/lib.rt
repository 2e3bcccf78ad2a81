// What a caller speaks, and all that tells one coding from another: the table that decides, and the flag numbers that are refused.
#![tactic(auto)]

ghost use Rattle.std.specs.Prelude.{◌≡◌};
ghost use Rattle.forms.specs.Forms.{rows_of};
ghost use Rattle.flags.specs.Number.{flags_of};
ghost use Rattle.codings.specs.Codings.{reader_form, writer_form, refuses_surro, reader_refuses_in, writer_refuses_in};

use flags::Flags;
use forms::Form;

#[derive(Clone, Copy)]
pub enum Coding {
    // UTF-8, with SURRO the surrogates too.
    Utf8,
    // CESU-8, of Unicode Technical Report 26.
    Cesu8,
}

// The table that the reader goes by: SURRO widens that of UTF-8.
pub fn reader_form(coding: Coding, m: Flags) -> Form
    ensures { rows_of result ≡ reader_form coding m }
{
    match coding {
        Coding::Utf8 => if m.surro { Form::Surro } else { Form::Plain },
        Coding::Cesu8 => Form::Cesu,
    }
}

// The table that the writer goes by, before the surrogates.
pub fn writer_form(coding: Coding) -> Form
    ensures { rows_of result ≡ writer_form coding }
{
    match coding {
        Coding::Utf8 => Form::Plain,
        Coding::Cesu8 => Form::Cesu,
    }
}

// SURRO, in a coding that does not let surrogates through.
fn refuses_surro(coding: Coding, number: u32) -> bool
    ensures { result ≡ refuses_surro coding (flags_of number) }
{
    match coding {
        Coding::Utf8 => false,
        Coding::Cesu8 => flags::flags_of(number).surro,
    }
}

// Whether the reader refuses the flag number.
#[tactic(auto, unfolding(crate::specs::Codings::reader_refuses_in))]
pub fn reader_refuses_in(coding: Coding, number: u32) -> bool
    ensures { result ≡ reader_refuses_in coding number }
{
    refuses_surro(coding, number) || flags::reader_refuses(number)
}

// Whether the writer refuses it.
#[tactic(auto, unfolding(crate::specs::Codings::writer_refuses_in))]
pub fn writer_refuses_in(coding: Coding, number: u32) -> bool
    ensures { result ≡ writer_refuses_in coding number }
{
    refuses_surro(coding, number) || flags::writer_refuses(number)
}
