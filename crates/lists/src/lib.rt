// Laws of lists and numbers that know nothing of documents (proofs/), and the one function that goes with them.
#![tactic(auto)]

ghost use Rattle.std.specs.Prelude.{◌≡◌, length};
ghost use Rattle.lists.specs.Zeros.{zeros};

// Makes all bytes 0.
// Ruled out: a byte that is left as it was (the last, say), and another value than 0 anywhere.
pub fn clear_bytes(b: &mut [u8])
    ensures { b.new ≡ zeros (length b.old) }
{
    b.fill(0);
}
