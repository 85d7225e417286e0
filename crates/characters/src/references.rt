// A reference at the front of a part: the character that it names, and how many bytes it takes.
ghost use Rattle.std.specs.Prelude.{◌≡◌, ◌+◌, ◌≤◌, length};
ghost use Rattle.slices.specs.Run.{run};
ghost use Rattle.characters.specs.Utf8.{char_use, slice_most};
ghost use Rattle.characters.specs.References.{xml_char, digit, hex_digit, ref_digit, digit_value, base, capped, number_by, numbered_at, named_at, reference_at};

use slices::{ByteTest, begins_with, byte_at, front, rest, run_len};

#[tactic(auto, unfolding(crate::specs::References::xml_char, crate::specs::References::within))]
fn is_xml_char(c: u32) -> bool
    ensures { result ≡ xml_char c }
{
    matches!(
        c,
        0x09 | 0x0A | 0x0D | 0x20..=0xD7FF | 0xE000..=0xFFFD | 0x10000..=0x10FFFF
    )
}

#[tactic(auto, unfolding(crate::specs::References::digit))]
fn is_decimal(b: u8) -> bool
    ensures { result ≡ digit b }
{
    matches!(b, b'0'..=b'9')
}

#[tactic(auto, unfolding(crate::specs::References::hex_digit, crate::specs::References::digit))]
fn is_hexadecimal(b: u8) -> bool
    ensures { result ≡ hex_digit b }
{
    matches!(b, b'0'..=b'9' | b'A'..=b'F' | b'a'..=b'f')
}

#[tactic(auto, unfolding(crate::specs::References::ref_digit))]
fn is_digit(hex: bool, b: u8) -> bool
    ensures { result ≡ ref_digit hex b }
{
    if hex {
        is_hexadecimal(b)
    } else {
        is_decimal(b)
    }
}

#[tactic(auto, unfolding(crate::specs::References::digit_value))]
fn digit_value(b: u8) -> u32
    ensures value { result ≡ digit_value b }
    ensures size { result ≤ 24 }
{
    if b <= 0x39 {
        (b as u32) % 16
    } else {
        (b as u32) % 16 + 9
    }
}

#[tactic(auto, unfolding(crate::specs::References::base))]
fn base_of(hex: bool) -> u32
    ensures base { result ≡ base hex }
    ensures size { result ≤ 16 }
{
    if hex { 16 } else { 10 }
}

// Digits of a reference, hexadecimal ones or not.
#[derive(Clone, Copy)]
struct Digits {
    hex: bool,
}

impl ByteTest for Digits {
    ghost test = { λ d. ref_digit d.hex };

    fn passes(self, b: u8) -> bool {
        is_digit(self.hex, b)
    }
}

fn digits_len(hex: bool, s: &[u8]) -> usize
    ensures run { result ≡ run (ref_digit hex) s.now }
    ensures size { result ≤ length s.now }
{
    run_len(s, Digits { hex })
}

// Past the last character the number is not counted on, so that it never wraps.
#[tactic(auto, unfolding(crate::specs::References::capped))]
fn capped_at(n: u32) -> u32
    ensures { result ≡ capped n }
{
    if n < 0x110000 { n } else { 0x110000 }
}

fn number_in(hex: bool, digits: &[u8]) -> u32
    ensures { result ≡ capped (number_by hex 0 digits.now) }
{
    let mut n = 0;
    for b in digits {
        n = capped_at(n * base_of(hex) + digit_value(*b));
    }
    n
}

// Digits from the place `from` on, and then `;`; a u8, so that each place after it is in range.
// Inlined, since what it answers would pass through memory at a call.
#[tactic(auto, unfolding(crate::specs::References::numbered_at, crate::specs::References::numbered_to, crate::specs::References::number_by, crate::specs::References::char_by))]
#[inline(always)]
fn numbered_at(hex: bool, from: u8, s: &[u8]) -> Option<(u32, usize)>
    ensures char { result ≡ numbered_at hex from s.now }
    ensures size { (1 ≤ char_use result) × (char_use result ≤ slice_most) }
{
    let first = from as usize;
    let t = rest(s, first);
    let n = digits_len(hex, t);
    if n == 0 {
        return None;
    }
    let end = first + n;
    if byte_at(s, end) == 0x3B {
        let c = number_in(hex, front(t, n));
        if is_xml_char(c) {
            return Some((c, end + 1));
        }
    }
    None
}

#[tactic(auto, unfolding(crate::specs::References::named_at))]
fn named_at(s: &[u8]) -> Option<(u32, usize)>
    ensures char { result ≡ named_at s.now }
    ensures size { (1 ≤ char_use result) × (char_use result ≤ slice_most) }
{
    if begins_with(b"&amp;", s) {
        return Some((0x26, 5));
    }
    if begins_with(b"&lt;", s) {
        return Some((0x3C, 4));
    }
    if begins_with(b"&gt;", s) {
        return Some((0x3E, 4));
    }
    if begins_with(b"&quot;", s) {
        return Some((0x22, 6));
    }
    if begins_with(b"&apos;", s) {
        return Some((0x27, 6));
    }
    None
}

// The reference at the front of s.
// Ruled out: a surrogate or a number past 10FFFF as a character; a number that wraps; `&AMP;`, `&#X41;` or a reference with no `;`.
#[tactic(auto, unfolding(crate::specs::References::reference_at))]
pub fn reference_at(s: &[u8]) -> Option<(u32, usize)>
    ensures char { result ≡ reference_at s.now }
    ensures size { (1 ≤ char_use result) × (char_use result ≤ slice_most) }
{
    if begins_with(b"&#x", s) {
        return numbered_at(true, 3, s);
    }
    if begins_with(b"&#", s) {
        return numbered_at(false, 2, s);
    }
    named_at(s)
}
