// What is left of a value where its spaces are dropped, whether they stand as they are or are named by a reference.
#![tactic(auto)]

ghost use Rattle.std.specs.Prelude.{◌≡◌, ◌≤◌, length};
ghost use Rattle.trims.specs.Trim.{lead_of, kept_bytes, cut_trail, trimmed_of};
ghost use Rattle.trims.specs.Short.{bare, bare_at_ends};

use characters::said_at;
use slices::{front, rest};

// How many bytes say the spaces that a value begins with: where the part that is left starts.
// Ruled out: a tab counted as a space; a space after the first other character counted; one byte for a space that a reference names.
pub fn leading_spaces(v: &[u8]) -> usize
    ensures lead { result ≡ lead_of v.now }
    ensures size { result ≤ length v.now }
{
    let mut i = 0;
    while i < v.len() {
        let Some((c, n)) = said_at(rest(v, i)) else {
            return i;
        };
        if c != 0x20 {
            return i;
        }
        i += n;
    }
    i
}

// How many bytes are left where the trailing spaces are dropped.
fn kept_len(v: &[u8]) -> usize
    ensures { result ≡ kept_bytes v.now }
{
    let mut i = 0;
    let mut kept = 0;
    while i < v.len() {
        let Some((c, n)) = said_at(rest(v, i)) else {
            return kept;
        };
        i += n;
        if c != 0x20 {
            kept = i;
        }
    }
    kept
}

// Whether a byte neither is a space nor begins or ends a reference.
#[tactic(auto, unfolding(crate::specs::Short::bare))]
fn is_bare(b: u8) -> bool
    ensures { result ≡ bare b }
{
    !matches!(b, b' ' | b'&' | b';')
}

// Whether the first and the last byte tell that nothing is dropped: so it is of nearly every value.
#[tactic(auto, unfolding(crate::specs::Short::bare_at_ends, slices::specs::Bytes::byte))]
fn is_bare_at_ends(v: &[u8]) -> bool
    ensures { result ≡ bare_at_ends v.now }
{
    v.len() != 0 && is_bare(v[0]) && is_bare(v[v.len() - 1])
}

fn without_trail(v: &[u8]) -> &[u8]
    ensures { result.now ≡ cut_trail v.now }
{
    front(v, kept_len(v))
}

// The part of a value that is left where leading and trailing spaces are dropped.
// Ruled out: a part with a space at an end; spaces between other characters dropped; a space left where all are spaces.
pub fn without_spaces(v: &[u8]) -> &[u8]
    ensures { result.now ≡ trimmed_of v.now }
{
    without_trail(rest(v, leading_spaces(v)))
}

// The same, told at once where nothing is dropped; so short that the compiler puts it where it is called.
// Ruled out: as above.
pub fn trimmed(v: &[u8]) -> &[u8]
    ensures { result.now ≡ trimmed_of v.now }
{
    if is_bare_at_ends(v) {
        return v;
    }
    without_spaces(v)
}
