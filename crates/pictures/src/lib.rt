// A value held against a picture of its form, or against a text. All functions look at what the value says, never at its bytes.
#![tactic(auto)]

ghost use Rattle.std.specs.Prelude.{◌≡◌, ◌<◌, map};
ghost use Rattle.slices.specs.Same.{same};
ghost use Rattle.characters.specs.Says.{says};
ghost use Rattle.pictures.specs.Number.{number_at};
ghost use Rattle.characters.specs.References.{digit};
ghost use Rattle.pictures.specs.Picture.{capital, capital_or_digit, party_char, first_three, takes, held, fits_of, test};

use characters::said_at;

// Whether a character is an ASCII digit.
// Ruled out: true for a digit of another script, for `/` or `:`; false for `0` or `9`.
pub fn is_digit(c: u32) -> bool
    ensures { result ≡ digit c }
{
    if 0x30 <= c { c <= 0x39 } else { false }
}

fn is_capital(c: u32) -> bool
    ensures { result ≡ capital c }
{
    if 0x41 <= c { c <= 0x5A } else { false }
}

fn is_capital_or_digit(c: u32) -> bool
    ensures { result ≡ capital_or_digit c }
{
    if is_capital(c) { true } else { is_digit(c) }
}

fn is_party_char(c: u32) -> bool
    ensures { result ≡ party_char c }
{
    if is_capital_or_digit(c) {
        true
    } else {
        c == 0x2D
    }
}

fn is_first_three(c: u32) -> bool
    ensures { result ≡ first_three c }
{
    if 0x41 <= c { c <= 0x43 } else { false }
}

fn is_taken(m: u8, c: u32) -> bool
    ensures { result ≡ takes m c }
{
    if m == b'9' {
        is_digit(c)
    } else if m == b'X' {
        is_capital_or_digit(c)
    } else if m == b'#' {
        is_party_char(c)
    } else if m == b'?' {
        is_first_three(c)
    } else {
        m as u32 == c
    }
}

fn is_passed(plain: bool, m: u8, c: u32) -> bool
    ensures { result ≡ test plain m c }
{
    if plain { m as u32 == c } else { is_taken(m, c) }
}

fn is_held(plain: bool, marks: &[u8], v: &[u8]) -> bool
    ensures { result ≡ held (map (test plain) marks.now) (says v.now) }
{
    let mut i = 0;
    let mut k = 0;
    while i < v.len() {
        let Some((c, n)) = said_at(&v[i..]) else {
            return marks.len() <= k;
        };
        if marks.len() <= k {
            return false;
        }
        if is_passed(plain, marks[k], c) {
            i += n;
            k += 1;
        } else {
            return false;
        }
    }
    marks.len() <= k
}

// Whether what v says fits the picture.
// Ruled out: true for a value that only begins as the picture does, or that ends before it; a digit of another script under `9`.
pub fn fits(picture: &[u8], v: &[u8]) -> bool
    ensures { result ≡ fits_of picture.now (says v.now) }
{
    is_held(false, picture, v)
}

// Whether a value says a text, character for character.
// Ruled out: true where the value only begins with the text, or the text with the value; false for an empty value and an empty text.
pub fn is_said(text: &[u8], v: &[u8]) -> bool
    ensures { result ≡ same text.now (says v.now) }
{
    is_held(true, text, v)
}

// The number that n characters of what v says show, from the place `from` on.
// Ruled out: a place counted in bytes; the number of all digits of v; the digits in reverse.
pub fn number_at(from: usize, n: usize, v: &[u8]) -> u32
    ensures number { result ≡ number_at from n (says v.now) }
    ensures size { result < 10000 }
{
    let mut i = 0;
    let mut skip = from;
    let mut left = n;
    let mut shown = 0;
    while i < v.len() {
        let Some((c, k)) = said_at(&v[i..]) else {
            return shown;
        };
        i += k;
        if 0 < skip {
            skip -= 1;
        } else if 0 < left {
            left -= 1;
            shown = (shown * 10 + c % 16) % 10000;
        } else {
            return shown;
        }
    }
    shown
}
