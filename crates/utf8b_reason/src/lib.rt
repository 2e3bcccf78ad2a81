// The entry for C that tells why bytes are bad.
#![tactic(auto)]

ghost use Rattle.std.specs.Prelude.{◌≡◌};
ghost use Rattle.reason.specs.Reason.{number, reason};

// The number of the reason at a place, 0 to 9: 0 at a good place, 9 at or past the end.
#[unsafe(no_mangle)]
pub extern "C" fn utf8b_reason(s: &[u8], place: usize) -> u32
    ensures { result ≡ number (reason s.now place) }
{
    u8::from(reason::reason_of(s, place)).into()
}
