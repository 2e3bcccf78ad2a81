// The entries for C, in UTF-8.
#![tactic(auto)]

ghost use Rattle.std.specs.Prelude.{◌≡◌};
ghost use Rattle.entries.specs.Entry.{entry, decode_entry, encode_entry};

use codings::Coding;

// The reader. Refusals in document 01's order: 6, 8, 4.
#[unsafe(no_mangle)]
pub extern "C" fn utf8b_decode(src: &[u8], codes: &mut [u8], flags: u32, report: &mut [u8]) -> i64
    ensures { entry result codes.new report.new ≡ decode_entry src.now codes.old flags report.old }
{
    entries::decode_entry(Coding::Utf8, src, codes, flags, report)
}

// The writer. Refusals in document 01's order: 6, 8, 7, 4.
#[unsafe(no_mangle)]
pub extern "C" fn utf8b_encode(codes: &[u8], dst: &mut [u8], flags: u32, report: &mut [u8]) -> i64
    ensures { entry result dst.new report.new ≡ encode_entry codes.now dst.old flags report.old }
{
    entries::encode_entry(Coding::Utf8, codes, dst, flags, report)
}
