// What stands in a tag after its name: white space, attributes, `>` or `/>`.
#![tactic(auto)]

ghost use Rattle.std.specs.Prelude.{◌≡◌, true, ◌+◌, ◌≤◌, length};
ghost use Rattle.slices.specs.Run.{run};
ghost use Rattle.characters.specs.Utf8.{char_use, slice_most};
ghost use Rattle.attributes.specs.Names.{name_start, name_byte, white};
ghost use Rattle.attributes.specs.Short.{common, opens_v, v_len};
ghost use Rattle.attributes.specs.Attribute.{quote, plain, longer, value, value_end, opening, attribute, piece, piece_use, piece_value};

use characters::{char_at, reference_at};
use slices::{ByteTest, byte_at, front, rest, run_len};

// Whether a name may begin with the byte.
// Ruled out: true for a digit, `-`, `.` or `:`; false for `_`.
#[tactic(auto, unfolding(crate::specs::Names::name_start))]
pub fn is_name_start(b: u8) -> bool
    ensures { result ≡ name_start b }
{
    matches!(b, b'a'..=b'z' | b'A'..=b'Z' | b'_')
}

// In tests of its own order: as `matches!` it takes a fifth more instructions for an item.
fn is_name_byte(b: u8) -> bool
    ensures { result ≡ name_byte b }
{
    if 0x61 <= b {
        b <= 0x7A
    } else if 0x41 <= b {
        if b <= 0x5A { true } else { b == 0x5F }
    } else if 0x30 <= b {
        b <= 0x3A
    } else if 0x2D <= b {
        b <= 0x2E
    } else {
        false
    }
}

#[tactic(auto, unfolding(crate::specs::Names::white))]
fn is_white(b: u8) -> bool
    ensures { result ≡ white b }
{
    matches!(b, b' ' | b'\n' | b'\r' | b'\t')
}

#[derive(Clone, Copy)]
struct NameByte;

impl ByteTest for NameByte {
    ghost test = { λ x. name_byte };

    fn passes(self, b: u8) -> bool {
        is_name_byte(b)
    }
}

#[derive(Clone, Copy)]
struct White;

impl ByteTest for White {
    ghost test = { λ x. white };

    fn passes(self, b: u8) -> bool {
        is_white(b)
    }
}

// How many bytes of a name stand at the front of s.
// Ruled out: a length that takes in the byte after the name; one that stops at a digit.
pub fn name_len(s: &[u8]) -> usize
    ensures run { result ≡ run name_byte s.now }
    ensures size { result ≤ length s.now }
{
    run_len(s, NameByte)
}

// How many bytes of white space stand at the front of s.
// Ruled out: a length that stops at a tab, CR or LF; one that takes in the byte after.
pub fn white_len(s: &[u8]) -> usize
    ensures run { result ≡ run white s.now }
    ensures size { result ≤ length s.now }
{
    run_len(s, White)
}

#[tactic(auto, unfolding(crate::specs::Attribute::quote))]
fn is_quote(b: u8) -> bool
    ensures { result ≡ quote b }
{
    matches!(b, b'"' | b'\'')
}

#[tactic(auto, unfolding(crate::specs::Attribute::plain))]
fn is_plain(b: u8) -> bool
    ensures { result ≡ plain b }
{
    matches!(b, 0x20..0x80) && !matches!(b, b'<' | b'&')
}

// What stands at a byte that is not plain.
#[tactic(auto, unfolding(crate::specs::Attribute::longer))]
fn longer_at(s: &[u8]) -> Option<(u32, usize)>
    ensures char { result ≡ longer s.now }
    ensures size { (1 ≤ char_use result) × (char_use result ≤ slice_most) }
{
    let b = byte_at(s, 0);
    if b == 0x26 {
        return reference_at(s);
    }
    if b < 0x80 {
        return None;
    }
    char_at(s)
}

// How many bytes the value at the front of s has, up to the closing quote q. A plain byte is looked at as it stands.
fn value_at(q: u8, s: &[u8]) -> Option<usize>
    requires { quote q ≡ true }
    ensures value { result ≡ value q s.now }
    ensures size { value_end result ≤ length s.now }
{
    let mut i = 0;
    while i < s.len() {
        let b = s[i];
        if is_plain(b) {
            if b == q {
                return Some(i);
            }
            i += 1;
        } else {
            let Some((_, n)) = longer_at(&s[i..]) else {
                return None;
            };
            i += n;
        }
    }
    None
}

// What stands in a tag after its name or an attribute, with the white space before it.
#[derive(Clone, Copy)]
pub enum Piece {
    // an attribute: where its name starts, and its length; where its value starts, and its length; the place after its closing quote
    Attribute {
        at: usize,
        name: usize,
        value: usize,
        len: usize,
        next: usize,
    },
    // `>` or `/>`, with how many bytes it takes
    Close(usize),
    CloseEmpty(usize),
    Torn,
}

// The place of the quote that opens the value of an attribute whose name ends before a; 0 where no `=` comes first.
#[tactic(auto, unfolding(crate::specs::Attribute::opening, crate::specs::Attribute::opening_from))]
fn opening_at(s: &[u8], a: usize) -> usize
    requires { a ≤ length s.now }
    ensures place { result ≡ opening s.now a }
    ensures size { result ≤ length s.now + 1 }
{
    let e = a + white_len(rest(s, a));
    if byte_at(s, e) == 0x3D {
        let f = e + 1;
        return f + white_len(rest(s, f));
    }
    0
}

// The attribute that starts w bytes on in s.
#[tactic(auto, unfolding(crate::specs::Attribute::attribute, crate::specs::Attribute::attribute_name, crate::specs::Attribute::attribute_quote, crate::specs::Attribute::attribute_end))]
fn attribute_at(s: &[u8], w: usize) -> Piece
    requires { w ≤ length s.now }
    ensures piece { result ≡ attribute s.now w }
    ensures size { (1 ≤ piece_use result) × (piece_use result ≤ length s.now + 3) × (piece_value result ≤ piece_use result) }
{
    if is_name_start(byte_at(s, w)) {
        let n = name_len(rest(s, w));
        let o = opening_at(s, w + n);
        let q = byte_at(s, o);
        if is_quote(q) {
            let v = o + 1;
            if let Some(m) = value_at(q, rest(s, v)) {
                return Piece::Attribute {
                    at: w,
                    name: n,
                    value: v,
                    len: m,
                    next: v + m + 1,
                };
            }
        }
    }
    Piece::Torn
}

// The next piece of a tag.
// Ruled out: an attribute with no white space before it; `/ >` as an end; a name that runs into the value; a value that ends at the other quote, or
// one with `<`, a tab, half a character or no reference behind an `&` in it.
#[tactic(auto, unfolding(crate::specs::Attribute::piece, crate::specs::Attribute::piece_after))]
pub fn piece_at(s: &[u8]) -> Piece
    ensures piece { result ≡ piece s.now }
    ensures size { (1 ≤ piece_use result) × (piece_use result ≤ length s.now + 3) × (piece_value result ≤ piece_use result) }
{
    let w = white_len(s);
    let b = byte_at(s, w);
    if b == 0x3E {
        return Piece::Close(w + 1);
    }
    if b == 0x2F {
        if byte_at(s, w + 1) == 0x3E {
            return Piece::CloseEmpty(w + 2);
        }
        return Piece::Torn;
    }
    if w == 0 {
        return Piece::Torn;
    }
    attribute_at(s, w)
}

// Whether the byte is one of those that values are mostly made of: letters, digits, and no quote, `<`, `&`, space or longer character.
#[tactic(auto, unfolding(crate::specs::Short::common))]
fn is_common(b: u8) -> bool
    ensures { result ≡ common b }
{
    matches!(b, 0x28..0x80) && b != b'<'
}

#[derive(Clone, Copy)]
struct Common;

impl ByteTest for Common {
    ghost test = { λ x. common };

    fn passes(self, b: u8) -> bool {
        is_common(b)
    }
}

fn common_len(s: &[u8]) -> usize
    ensures run { result ≡ run common s.now }
    ensures size { result ≤ length s.now }
{
    run_len(s, Common)
}

// Whether s begins with ` v="`. From the last byte on, since where that is there the others are too.
#[tactic(auto, unfolding(crate::specs::Short::opens_v))]
fn opens_v(s: &[u8]) -> bool
    ensures { result ≡ opens_v s.now }
{
    byte_at(s, 3) == 0x22 && byte_at(s, 2) == 0x3D && byte_at(s, 1) == 0x76 && byte_at(s, 0) == 0x20
}

// One more than the length of the value, where s begins with ` v="`, common bytes and `"`; else 0. Nearly every attribute is of this form.
// Ruled out: the length of a value that has no end, or of another attribute's; 0 for an empty value.
#[tactic(auto, unfolding(crate::specs::Short::v_len, crate::specs::Short::v_upto))]
pub fn v_len(s: &[u8]) -> usize
    ensures len { result ≡ v_len s.now }
    ensures size { result ≤ length s.now + 1 }
{
    if opens_v(s) {
        let m = common_len(rest(s, 4));
        if byte_at(s, m + 4) == 0x22 {
            return m + 1;
        }
    }
    0
}
