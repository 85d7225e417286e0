// Where the items of a document begin: after the byte order mark and the XML declaration.
#![tactic(auto)]

ghost use Rattle.std.specs.Prelude.{◌≡◌, ◌+◌, ◌≤◌, length};
ghost use Rattle.prolog.specs.Prolog.{lower, utf, declared, encoded, declaration, mark_len, begin, begin_use};

use attributes::{Piece, piece_at, white_len};
use slices::{begins_with, byte_at, is_same, part, rest};

fn lower_of(b: u8) -> u8
    ensures { result ≡ lower b }
{
    if 0x41 <= b {
        if b <= 0x5A {
            return b + 32;
        }
    }
    b
}

fn is_utf(v: &[u8]) -> bool
    ensures { result ≡ utf v.now }
{
    if v.len() != 5 {
        return false;
    }
    if lower_of(byte_at(v, 0)) != 0x75 {
        return false;
    }
    if lower_of(byte_at(v, 1)) != 0x74 {
        return false;
    }
    if lower_of(byte_at(v, 2)) != 0x66 {
        return false;
    }
    if byte_at(v, 3) != 0x2D {
        return false;
    }
    byte_at(v, 4) == 0x38
}

// The end of a declaration, which is read up to a; the error is the place of one that is unreadable, here and below.
fn declared_to(before: usize, s: &[u8], a: usize) -> Result<usize, usize>
    requires { a ≤ length s.now + 16 }
    ensures begin { result ≡ declared before s.now a }
    ensures size { begin_use result ≤ length s.now + 32 }
{
    let e = a + white_len(rest(s, a));
    if byte_at(s, e) == 0x3F {
        if byte_at(s, e + 1) == 0x3E {
            return Ok(e + 2);
        }
    }
    Err(before)
}

// What follows the version in a declaration, which is read up to a.
fn encoding_at(before: usize, s: &[u8], a: usize) -> Result<usize, usize>
    requires { a ≤ length s.now + 8 }
    ensures begin { result ≡ encoded before s.now a }
    ensures size { begin_use result ≤ length s.now + 32 }
{
    let t = rest(s, a);
    match piece_at(t) {
        Piece::Attribute {
            at,
            name,
            value,
            len,
            next,
        } => {
            if is_same(part(t, at, name), b"encoding") {
                if is_utf(part(t, value, len)) {
                    return declared_to(before, s, a + next);
                }
            }
            Err(before)
        }
        Piece::Close(_) => declared_to(before, s, a),
        Piece::CloseEmpty(_) => declared_to(before, s, a),
        Piece::Torn => declared_to(before, s, a),
    }
}

// The declaration at the front of s, which begins with `<?xml`.
fn declaration_at(before: usize, s: &[u8]) -> Result<usize, usize>
    ensures begin { result ≡ declaration before s.now }
    ensures size { begin_use result ≤ length s.now + 32 }
{
    let t = rest(s, 5);
    match piece_at(t) {
        Piece::Attribute {
            at,
            name,
            value,
            len,
            next,
        } => {
            if is_same(part(t, at, name), b"version") {
                if is_same(part(t, value, len), b"1.0") {
                    return encoding_at(before, s, 5 + next);
                }
            }
            Err(before)
        }
        Piece::Close(_) => Err(before),
        Piece::CloseEmpty(_) => Err(before),
        Piece::Torn => Err(before),
    }
}

fn mark_len(doc: &[u8]) -> usize
    ensures len { result ≡ mark_len doc.now }
    ensures size { result ≤ 3 }
{
    if begins_with(b"\xEF\xBB\xBF", doc) {
        3
    } else {
        0
    }
}

// Where the first item of the document begins, or the document's end; the error is the place of a declaration that is unreadable.
// Ruled out: a declaration taken after white space; one with `standalone`; a second mark passed over.
pub fn first_item(doc: &[u8]) -> Result<usize, usize>
    ensures begin { result ≡ begin doc.now }
    ensures size { begin_use result ≤ length doc.now + 64 }
{
    let m = mark_len(doc);
    let s = rest(doc, m);
    if begins_with(b"<?xml", s) {
        let n = declaration_at(m, s)?;
        return Ok(m + n);
    }
    Ok(m)
}
