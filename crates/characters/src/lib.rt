// The XML 1.0 character at the front of a part, in UTF-8 or by a reference, and the characters that a value says.
#![tactic(auto)]

mod references;

ghost use Rattle.std.specs.Prelude.{◌≡◌, ◌-◌, ◌≤◌, length, Some};
ghost use Rattle.slices.specs.Bytes.{byte};
ghost use Rattle.slices.specs.Same.{same};
ghost use Rattle.characters.specs.Utf8.{seq_len, low, high, second, later_byte, control, nonchar, single, double, triple, fourfold, char_at, char_use, slice_most};
ghost use Rattle.characters.specs.Says.{met, char_of, itself, own_byte, own_end, ends_otherwise, own_len, said_at, said_by, said_use, says, all_chars};

pub use references::reference_at;
use slices::{byte_at, rest};

// By ranges of the lead byte: 00 to 7F one, C2 to DF two, E0 to EF three, F0 to F4 four; 0 for any other.
#[tactic(auto, unfolding(crate::specs::Utf8::seq_len))]
fn seq_len(a: u8) -> usize
    ensures { result ≡ seq_len a }
{
    match a {
        0x00..=0x7F => 1,
        0xC2..=0xDF => 2,
        0xE0..=0xEF => 3,
        0xF0..=0xF4 => 4,
        _ => 0,
    }
}

#[tactic(auto, unfolding(crate::specs::Utf8::low))]
fn low_of(a: u8) -> u8
    ensures { result ≡ low a }
{
    match a {
        0xE0 => 0xA0,
        0xF0 => 0x90,
        _ => 0x80,
    }
}

#[tactic(auto, unfolding(crate::specs::Utf8::high))]
fn high_of(a: u8) -> u8
    ensures { result ≡ high a }
{
    match a {
        0xED => 0x9F,
        0xF4 => 0x8F,
        _ => 0xBF,
    }
}

#[tactic(auto, unfolding(crate::specs::Utf8::second))]
fn is_second(a: u8, b: u8) -> bool
    ensures { result ≡ second a b }
{
    low_of(a) <= b && b <= high_of(a)
}

#[tactic(auto, unfolding(crate::specs::Utf8::later_byte))]
fn is_tail(b: u8) -> bool
    ensures { result ≡ later_byte b }
{
    matches!(b, 0x80..=0xBF)
}

#[tactic(auto, unfolding(crate::specs::Utf8::control))]
fn is_control(a: u8) -> bool
    ensures { result ≡ control a }
{
    a < 0x20 && !matches!(a, 0x09 | 0x0A | 0x0D)
}

#[tactic(auto, unfolding(crate::specs::Utf8::nonchar))]
fn is_nonchar(a: u8, b: u8, c: u8) -> bool
    ensures { result ≡ nonchar a b c }
{
    a == 0xEF && b == 0xBF && 0xBE <= c
}

#[tactic(auto, unfolding(crate::specs::Utf8::single))]
fn char_of_one(a: u8) -> Option<(u32, usize)>
    ensures char { result ≡ single a }
    ensures size { (1 ≤ char_use result) × (char_use result ≤ 4) }
{
    if is_control(a) {
        return None;
    }
    Some((a as u32, 1))
}

#[tactic(auto, unfolding(crate::specs::Utf8::double))]
fn char_of_two(a: u8, b: u8) -> Option<(u32, usize)>
    ensures char { result ≡ double a b }
    ensures size { (1 ≤ char_use result) × (char_use result ≤ 4) }
{
    if is_second(a, b) {
        return Some(((a as u32) % 32 * 64 + (b as u32) % 64, 2));
    }
    None
}

#[tactic(auto, unfolding(crate::specs::Utf8::triple))]
fn char_of_three(a: u8, b: u8, c: u8) -> Option<(u32, usize)>
    ensures char { result ≡ triple a b c }
    ensures size { (1 ≤ char_use result) × (char_use result ≤ 4) }
{
    if is_second(a, b) {
        if is_tail(c) {
            if is_nonchar(a, b, c) {
                return None;
            }
            return Some((
                (a as u32) % 16 * 4096 + (b as u32) % 64 * 64 + (c as u32) % 64,
                3,
            ));
        }
    }
    None
}

#[tactic(auto, unfolding(crate::specs::Utf8::fourfold))]
fn char_of_four(a: u8, b: u8, c: u8, d: u8) -> Option<(u32, usize)>
    ensures char { result ≡ fourfold a b c d }
    ensures size { (1 ≤ char_use result) × (char_use result ≤ 4) }
{
    if is_second(a, b) {
        if is_tail(c) {
            if is_tail(d) {
                return Some((
                    (a as u32) % 8 * 262144
                        + (b as u32) % 64 * 4096
                        + (c as u32) % 64 * 64
                        + (d as u32) % 64,
                    4,
                ));
            }
        }
    }
    None
}

// The character at the front of s: its number in Unicode, and how many bytes it takes.
// Ruled out: a surrogate or an overlong form as a character; U+FFFE; the length of the lead byte where a tail byte is missing.
#[tactic(auto, unfolding(crate::specs::Utf8::char_at))]
pub fn char_at(s: &[u8]) -> Option<(u32, usize)>
    ensures char { result ≡ char_at s.now }
    ensures size { (1 ≤ char_use result) × (char_use result ≤ 4) }
{
    let a = byte_at(s, 0);
    let n = seq_len(a);
    if n == 1 {
        return char_of_one(a);
    }
    if n == 2 {
        return char_of_two(a, byte_at(s, 1));
    }
    if n == 3 {
        return char_of_three(a, byte_at(s, 1), byte_at(s, 2));
    }
    if n == 4 {
        return char_of_four(a, byte_at(s, 1), byte_at(s, 2), byte_at(s, 3));
    }
    None
}

// Whether every byte of s belongs to an XML character.
// Ruled out: true for a character cut off at the end; false for an empty part.
pub fn all_chars(s: &[u8]) -> bool
    ensures { result ≡ all_chars s.now }
{
    let mut i = 0;
    while i < s.len() {
        let Some((_, n)) = char_at(&s[i..]) else {
            return false;
        };
        i += n;
    }
    true
}

// Whether a byte is seen at once to say itself, whatever follows it: all from behind `&` to 7F do, nearly every byte of a value.
#[tactic(auto, unfolding(crate::specs::Says::itself))]
fn is_itself(b: u8) -> bool
    ensures { result ≡ itself b }
{
    matches!(b, 0x27..0x80)
}

// The character that stands at the front of s, or that a reference there names; 0 and one byte where there is none.
// A pair comes back in registers, an Option of one through memory. Each branch says itself that there is none: said where they meet, it is one more test of every reference.
#[tactic(auto, unfolding(crate::specs::Says::said_by))]
fn unit_at(s: &[u8]) -> (u32, usize)
    ensures char { Some result ≡ said_by (char_of (met s.now)) }
    ensures size { (1 ≤ result.1) × (result.1 ≤ slice_most) }
{
    if byte_at(s, 0) == 0x26 {
        return reference_at(s).unwrap_or((0, 1));
    }
    char_at(s).unwrap_or((0, 1))
}

// What a value says first: the character, and how many bytes of the value say it. This is the one way in which the rules of values look at a value.
// Ruled out: a byte of a longer character, or of a reference, as a character; an end before the last byte.
// Inlined, since what it answers would pass through memory at a call, and most bytes of a value, which say themselves, then need none.
#[tactic(auto, unfolding(crate::specs::Says::said_at, crate::specs::Says::said_by))]
#[inline(always)]
pub fn said_at(v: &[u8]) -> Option<(u32, usize)>
    ensures said { result ≡ said_at v.now }
    ensures size { (1 ≤ said_use result) × (said_use result ≤ slice_most) }
{
    if v.len() == 0 {
        return None;
    }
    let b = v[0];
    if is_itself(b) {
        return Some((b as u32, 1));
    }
    Some(unit_at(v))
}

// How many characters a value has.
// Ruled out: the number of its bytes; one less for a character of four bytes.
pub fn count_chars(v: &[u8]) -> usize
    ensures { result ≡ length (says v.now) }
{
    let mut i = 0;
    let mut n = 0;
    while i < v.len() {
        let Some((_, k)) = said_at(&v[i..]) else {
            return n;
        };
        i += k;
        n += 1;
    }
    n
}

#[tactic(auto, unfolding(slices::specs::Bytes::byte))]
fn last_byte(v: &[u8]) -> u8
    ensures { result ≡ byte v.now (length v.now - 1) }
{
    v.last().copied().unwrap_or(0)
}

#[tactic(auto, unfolding(crate::specs::Says::own_byte))]
fn own_byte(b: u8) -> u8
    ensures { result ≡ own_byte b }
{
    if b != 0x3B && is_itself(b) { b } else { 0 }
}

// The last byte of a value where it is seen to say itself and ends no reference, else 0.
// Ruled out: a byte of a longer character, or the `;` of a reference.
pub fn own_end(v: &[u8]) -> u8
    ensures { result ≡ own_end v.now }
{
    own_byte(last_byte(v))
}

// Whether its last byte alone tells that a value says something else than another whose `own_end` is y. Bytes that are the same are told first: of many values
// held against one, most differ there.
// Ruled out: true where y is 0, where the last byte is y, or where it is a byte of a longer character or the `;` of a reference.
#[tactic(auto, unfolding(crate::specs::Says::ends_otherwise, crate::specs::Says::other_byte))]
pub fn ends_otherwise(v: &[u8], y: u8) -> bool
    ensures { result ≡ ends_otherwise v.now y }
{
    let b = last_byte(v);
    b != y && y != 0 && own_byte(b) != 0
}

// How many bytes at the front of both are the same and are seen to say themselves.
fn own_len(a: &[u8], b: &[u8]) -> usize
    ensures len { result ≡ own_len a.now b.now }
    ensures size { (result ≤ length a.now) × (result ≤ length b.now) }
{
    let most = a.len().min(b.len());
    for i in 0..most {
        if a[i] != b[i] || !is_itself(a[i]) {
            return i;
        }
    }
    most
}

// Whether two values say the same. What they have alike at the front is mostly seen byte by byte.
// Ruled out: true where the one only begins as the other does; false for a character and its reference; a reference taken for its bytes.
pub fn says_same(a: &[u8], b: &[u8]) -> bool
    ensures { result ≡ same (says a.now) (says b.now) }
{
    let alike = own_len(a, b);
    let mut i = alike;
    let mut k = alike;
    while i < a.len() {
        let Some((c, n)) = said_at(rest(a, i)) else {
            return false;
        };
        let Some((d, m)) = said_at(rest(b, k)) else {
            return false;
        };
        if c != d {
            return false;
        }
        i += n;
        k += m;
    }
    b.len() <= k
}
