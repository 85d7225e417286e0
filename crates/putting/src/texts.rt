// Texts put into lent bytes from a place on. The place after a text is answered, and one past the last byte where the text finds no room.
ghost use Rattle.std.specs.Prelude.{◌≡◌, ◌+◌, ◌≤◌, min, length};
ghost use Rattle.std.proofs.lemmas.List.Edits.{sets};
ghost use Rattle.wholes.specs.Whole.{whole_text};
ghost use Rattle.amounts.specs.Texts.{amount_text};
ghost use Rattle.escapes.specs.Escaped.{escaped};
ghost use Rattle.putting.specs.Sheet.{landed};

use amounts::{put_amount, put_position};
use escapes::put_escaped;

// The place after n bytes from `at` on, and one past the last of len bytes where they find no room.
fn after(at: usize, n: usize, len: usize) -> usize
    requires { len ≤ 9223372036854775807 }
    ensures { result ≡ min (at + n) (len + 1) }
{
    if len < n {
        return len + 1;
    }
    if len - n < at {
        return len + 1;
    }
    at + n
}

pub(crate) fn put_bytes(out: &mut [u8], at: usize, t: &[u8]) -> usize
    requires { at ≤ length out.old + 1 }
    ensures answer { result ≡ landed out.old at t.now }
    ensures buffer { out.new ≡ sets out.old at t.now }
{
    for i in 0..t.len() {
        if at + i < out.len() {
            out[at + i] = t[i];
        }
    }
    after(at, t.len(), out.len())
}

pub(crate) fn put_escaped_at(out: &mut [u8], at: usize, v: &[u8]) -> usize
    requires { at ≤ length out.old + 1 }
    ensures answer { result ≡ landed out.old at (escaped v.now) }
    ensures buffer { out.new ≡ sets out.old at (escaped v.now) }
{
    if out.len() < at {
        return at;
    }
    at + put_escaped(&mut out[at..], v)
}

pub(crate) fn put_position_at(out: &mut [u8], at: usize, p: u32) -> usize
    requires { at ≤ length out.old + 1 }
    ensures answer { result ≡ landed out.old at (whole_text p) }
    ensures buffer { out.new ≡ sets out.old at (whole_text p) }
{
    if out.len() < at {
        return at;
    }
    let n = put_position(&mut out[at..], p);
    after(at, n, out.len())
}

pub(crate) fn put_amount_at(out: &mut [u8], at: usize, a: i64) -> usize
    requires { at ≤ length out.old + 1 }
    ensures answer { result ≡ landed out.old at (amount_text a) }
    ensures buffer { out.new ≡ sets out.old at (amount_text a) }
{
    if out.len() < at {
        return at;
    }
    let n = put_amount(&mut out[at..], a);
    after(at, n, out.len())
}
