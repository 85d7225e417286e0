// Values of documents: a text put with references where a byte needs one, and a value put as the bytes of what it says.
#![tactic(auto)]

ghost use Rattle.std.specs.Prelude.{◌≡◌, ◌+◌, ◌%◌, ◌≤◌, ◌<◌, min, length, set};
ghost use Rattle.std.proofs.lemmas.List.Edits.{sets};
ghost use Rattle.escapes.specs.Escaped.{escaped_byte, escaped};
ghost use Rattle.escapes.specs.Spelled.{utf8, unescaped};

use characters::said_at;

// Sets the byte at i; past the end there is none.
fn set_byte(t: &mut [u8], i: usize, b: u8)
    ensures { t.new ≡ set t.old i b }
{
    if i < t.len() {
        t[i] = b;
    }
}

// The first free byte, or the end where there is none.
fn free_from(at: usize, len: usize) -> usize
    ensures { result ≡ min at len }
{
    if at < len {
        return at;
    }
    len
}

// Puts a text as it is, as far as there are bytes, and answers its length.
fn put_text(free: &mut [u8], t: &[u8]) -> usize
    ensures answer { result ≡ length t.now }
    ensures buffer { free.new ≡ sets free.old 0 t.now }
{
    for i in 0..t.len() {
        set_byte(free, i, t[i]);
    }
    t.len()
}

// Puts a byte, or the reference that it needs.
fn put_escaped_byte(free: &mut [u8], b: u8) -> usize
    ensures answer { result ≡ length (escaped_byte b) }
    ensures buffer { free.new ≡ sets free.old 0 (escaped_byte b) }
{
    match b {
        0x26 => put_text(free, b"&amp;"),
        0x3C => put_text(free, b"&lt;"),
        0x22 => put_text(free, b"&quot;"),
        0x09 => put_text(free, b"&#9;"),
        0x0A => put_text(free, b"&#10;"),
        0x0D => put_text(free, b"&#13;"),
        _ => {
            set_byte(free, 0, b);
            1
        }
    }
}

// Puts a text as it stands between double quotes, as far as there are bytes, and answers how many bytes that is, or one more than there is room for.
// Ruled out: a quote, `<` or `&` left as it is; a reference for any other character than tab, LF and CR; an answer that fits where the text does not.
pub fn put_escaped(free: &mut [u8], v: &[u8]) -> usize
    ensures answer { result ≡ min (length (escaped v.now)) (length free.old + 1) }
    ensures buffer { free.new ≡ sets free.old 0 (escaped v.now) }
{
    let mut at: usize = 0;
    for i in 0..v.len() {
        if free.len() < at {
            return free.len() + 1;
        }
        at += put_escaped_byte(&mut free[at..], v[i]);
    }
    if free.len() < at {
        return free.len() + 1;
    }
    at
}

// A byte after the first: 80 and the six lowest bits.
fn later_byte(c: u32) -> u8
    ensures { result ≡ 0x80 + c % 64 }
{
    (0x80 + c % 64) as u8
}

// Puts a character in UTF-8.
fn put_utf8(free: &mut [u8], c: u32) -> usize
    requires { c < 0x110000 }
    ensures answer { result ≡ length (utf8 c) }
    ensures buffer { free.new ≡ sets free.old 0 (utf8 c) }
{
    if c < 0x80 {
        let one = [c as u8];
        return put_text(free, &one);
    }
    if c < 0x800 {
        let two = [(0xC0 + c / 64) as u8, later_byte(c)];
        return put_text(free, &two);
    }
    if c < 0x10000 {
        let three = [(0xE0 + c / 4096) as u8, later_byte(c / 64), later_byte(c)];
        return put_text(free, &three);
    }
    let four = [
        (0xF0 + c / 262144) as u8,
        later_byte(c / 4096),
        later_byte(c / 64),
        later_byte(c),
    ];
    put_text(free, &four)
}

// Puts the bytes of what a value says, as far as there is room, and answers how many they are: no more than the value has.
// Ruled out: a reference left as it is; a character of three bytes put in two; a length that counts only what found room.
pub fn put_unescaped(free: &mut [u8], v: &[u8]) -> usize
    ensures answer { result ≡ length (unescaped v.now) }
    ensures buffer { free.new ≡ sets free.old 0 (unescaped v.now) }
    ensures size { result ≤ length v.now }
{
    let mut at: usize = 0;
    let mut i: usize = 0;
    while i < v.len() {
        let Some((c, n)) = said_at(&v[i..]) else {
            return at;
        };
        let from = free_from(at, free.len());
        at += put_utf8(&mut free[from..], c);
        i += n;
    }
    at
}
