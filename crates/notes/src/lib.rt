// The note, in either shape: numbers in groups of seven bits, and zeros after them.
#![tactic(auto)]

ghost use Rattle.std.specs.Prelude.{◌≡◌, ◌≤◌, min, length, set};
ghost use Rattle.std.proofs.lemmas.List.Edits.{sets};
ghost use Rattle.notes.specs.Note.{groups, flat, note_of, left};
ghost use Rattle.notes.specs.Reader.{first_number, numbers_in, old_note, new_note, note_in};
ghost use Rattle.notes.specs.Converter.{converted, converted_out};

// "The note is five numbers: refusal, place, kind, series, intervals."; the new one tells besides "the count of elements open before the faulty item".
#[derive(Clone, Copy)]
pub struct Note {
    pub refusal: u32,
    pub place: u32,
    pub kind: u32,
    pub series: u32,
    pub intervals: u32,
    pub depth: u32,
}

// Five numbers; or "the number 100, then the old five, then the count of elements open before the faulty item".
#[derive(Clone, Copy)]
pub enum Shape {
    Old,
    New,
}

// "A new note begins with the number 100": no refusal has this number, so the shapes are told apart by their first number.
const MARK: u32 = 100;

// Sets the byte at i; past the end there is none.
fn set_byte(t: &mut [u8], i: usize, b: u8)
    ensures { t.new ≡ set t.old i b }
{
    if i < t.len() {
        t[i] = b;
    }
}

// Writes n from the first free byte on, as far as there are bytes, and answers how many groups it has.
fn put_number(free: &mut [u8], n: u32) -> usize
    ensures answer { result ≡ length (groups n) }
    ensures buffer { free.new ≡ sets free.old 0 (groups n) }
{
    // no for: what is left of n ends it, and groups past the last free byte count too
    let mut i: usize = 0;
    let mut rest = n;
    while 128 <= rest {
        set_byte(free, i, (128 + rest % 128) as u8);
        rest = rest / 128;
        i += 1;
    }
    set_byte(free, i, rest as u8);
    i + 1
}

// The first free byte, or the end where there is none.
fn free_from(at: usize, len: usize) -> usize
    ensures { result ≡ min at len }
{
    if at < len {
        return at;
    }
    len
}

// Writes the numbers one after the other, as far as there are bytes, and zeros after them; answers how many bytes they have.
fn write_numbers(note: &mut [u8], ns: &[u32]) -> usize
    requires { length ns.now ≤ 7 }
    ensures answer { result ≡ length (flat ns.now) }
    ensures buffer { note.new ≡ left (flat ns.now) (length note.old) }
{
    note.fill(0);
    let mut at: usize = 0;
    for i in 0..ns.len() {
        let free = free_from(at, note.len());
        at += put_number(&mut note[free..], ns[i]);
    }
    at
}

// "Each number of the note is written into the part of the buffer that is still free, and the bytes after it are 0"; the note's length is answered. What a buffer that is too short has
// no byte for is not written: neither the document reader nor the converter lends such a one.
// Ruled out: a number in more groups than it needs; bytes of an older note left after the new one; a length that counts the zeros; the depth in an old note, or none in a new one.
pub fn write_note(note: &mut [u8], shape: Shape, n: Note) -> usize
    ensures answer { result ≡ length (note_of shape n) }
    ensures buffer { note.new ≡ left (note_of shape n) (length note.old) }
{
    match shape {
        Shape::Old => {
            let five = [n.refusal, n.place, n.kind, n.series, n.intervals];
            write_numbers(note, &five)
        }
        Shape::New => {
            let seven = [
                MARK,
                n.refusal,
                n.place,
                n.kind,
                n.series,
                n.intervals,
                n.depth,
            ];
            write_numbers(note, &seven)
        }
    }
}

// The number that s begins with, with how many bytes it takes, or none. `unit` is what the group at i counts and `value` what those before it come to;
// a last group below `least` says nothing, so the number would not be shortest.
fn get_number(s: &[u8]) -> Option<(u32, usize)>
    ensures { result ≡ first_number 3 s.now }
{
    let mut value: u32 = 0;
    let mut unit: u32 = 1;
    let mut least: u8 = 0;
    for i in 0..3 {
        if s.len() <= i {
            return None;
        }
        let b = s[i];
        if b < least {
            return None;
        }
        if b < 128 {
            let last = b as u32;
            let whole = value + unit * last;
            return Some((whole, i + 1));
        }
        let group = (b - 128) as u32;
        value += unit * group;
        unit *= 128;
        least = 1;
    }
    None
}

// N numbers, where the bytes are those and nothing else.
fn read_numbers<const N: usize>(s: &[u8]) -> Option<[u32; N]>
    ensures { result ≡ numbers_in N s.now }
{
    let mut ns = [0u32; N];
    let mut at: usize = 0;
    for i in 0..N {
        let (v, u) = get_number(&s[at..])?;
        ns[i] = v;
        at += u;
    }
    if at == s.len() { Some(ns) } else { None }
}

// "From now on five numbers beginning with 100 are no note"; an old note has "depth 0".
fn old_note(l: &[u32]) -> Option<Note>
    requires { length l.now ≡ 5 }
    ensures { result ≡ old_note l.now }
{
    let first = l[0];
    if first == MARK {
        return None;
    }
    let place = l[1];
    let kind = l[2];
    let series = l[3];
    let intervals = l[4];
    Some(Note {
        refusal: first,
        place,
        kind,
        series,
        intervals,
        depth: 0,
    })
}

// "A new note begins with the number 100"; "nor are seven whose second is 100".
fn new_note(l: &[u32]) -> Option<Note>
    requires { length l.now ≡ 7 }
    ensures { result ≡ new_note l.now }
{
    let mark = l[0];
    if mark != MARK {
        return None;
    }
    let refusal = l[1];
    if refusal == MARK {
        return None;
    }
    let place = l[2];
    let kind = l[3];
    let series = l[4];
    let intervals = l[5];
    let depth = l[6];
    Some(Note {
        refusal,
        place,
        kind,
        series,
        intervals,
        depth,
    })
}

// "A note has exactly five numbers, each shortest and below 2^21, and nothing after; the note reader refuses the rest."; "the note reader reads
// both, an old one with depth 0".
// Ruled out: a number taken that is not shortest (80 00) or is 2^21 or more; four or six numbers taken, or seven that do not begin with 100; a note taken
// with zeros after it; five that begin with 100, or seven whose second is 100, taken; a note refused.
pub fn read_note(s: &[u8]) -> Option<Note>
    ensures { result ≡ note_in s.now }
{
    if let Some(five) = read_numbers::<5>(s) {
        return old_note(&five);
    }
    let seven = read_numbers::<7>(s)?;
    new_note(&seven)
}

// Why no note is written: the output is too short, or the bytes are no note of either shape.
#[derive(Clone, Copy)]
pub enum ConvertError {
    OutShort,
    NeitherShape,
}

// "Old notes are turned into new ones with depth 0, new into old by leaving it out."; "converting into fewer than 24 bytes is 10, then 11 for bytes that are neither;
// output is then all 0". A note that has the shape already is written as it is.
// Ruled out: bytes left past the note, or on a refusal; 11 before 10; a depth that an old note was given; the note written in the shape that it has where the other was asked for.
pub fn convert_note(s: &[u8], shape: Shape, out: &mut [u8]) -> Result<usize, ConvertError>
    ensures answer { result ≡ converted s.now shape (length out.old) }
    ensures buffer { out.new ≡ converted_out s.now shape (length out.old) }
{
    if out.len() < 24 {
        out.fill(0);
        return Err(ConvertError::OutShort);
    }
    let Some(n) = read_note(s) else {
        out.fill(0);
        return Err(ConvertError::NeitherShape);
    };
    Ok(write_note(out, shape, n))
}
