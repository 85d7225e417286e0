// How far a document is readable, exported to C and Rust.
#![tactic(auto)]

ghost use Rattle.std.specs.Prelude.{◌≡◌};
ghost use Rattle.readable.specs.Readable.{readable};

#[unsafe(no_mangle)]
pub extern "C" fn lumintayag_readable_len(doc: &[u8]) -> usize
    ensures { result ≡ readable doc.now }
{
    readable::lumintayag_readable_len(doc)
}
