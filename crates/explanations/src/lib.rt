// What a note says, in words for support staff. It sees the note and no document.
//
// Each `add_..` puts a text into out from `at` on, as much as it has room for, and answers the place after it.
#![tactic(auto)]

ghost use Rattle.std.specs.Prelude.{◌≡◌, ◌+◌, min, length};
ghost use Rattle.std.proofs.lemmas.List.Edits.{sets};
ghost use Rattle.io.specs.Counts.{IsPrefixLen};
ghost use Rattle.explanations.specs.Decimal.{decimal, around};
ghost use Rattle.explanations.specs.Explanation.{head_part, words_part, refusal_line, place_line, kind_line, series_part, intervals_part, depth_line, explained, note_on, explanation};

use lines::{put_bytes, put_hex, put_text};
use notes::{Note, read_note};
use slices::{front, is_same};

fn add_text(out: &mut [u8], at: usize, s: &[u8]) -> usize
    ensures next { result ≡ min (at + length s.now) (length out.old) }
    ensures text { out.new ≡ sets out.old at s.now }
{
    if out.len() < at {
        return out.len();
    }
    let n = put_text(s, &mut out[at..]);
    at + n
}

fn add_number(out: &mut [u8], at: usize, n: u32) -> usize
    ensures next { result ≡ min (at + length (decimal n)) (length out.old) }
    ensures text { out.new ≡ sets out.old at (decimal n) }
{
    let mut digits = [0u8; 10];
    let mut i: usize = 9;
    let mut rest = n;
    // no `for`: the turns end with the digits, so it would need a break
    while 10 <= rest {
        digits[i] = (48 + rest % 10) as u8;
        rest = rest / 10;
        i -= 1;
    }
    digits[i] = (48 + rest) as u8;
    add_text(out, at, &digits[i..])
}

fn add_around(out: &mut [u8], at: usize, before: &[u8], n: u32, after: &[u8]) -> usize
    ensures next { result ≡ min (at + length (around before.now n after.now)) (length out.old) }
    ensures text { out.new ≡ sets out.old at (around before.now n after.now) }
{
    let first = add_text(out, at, before);
    let second = add_number(out, first, n);
    add_text(out, second, after)
}

fn add_head(out: &mut [u8], at: usize, n: u32) -> usize
    ensures next { result ≡ min (at + length (head_part n)) (length out.old) }
    ensures text { out.new ≡ sets out.old at (head_part n) }
{
    if n == 0 {
        return add_text(out, at, b"Accepted: 0, ");
    }
    add_around(out, at, b"Refused: ", n, b", ")
}

fn add_words(out: &mut [u8], at: usize, n: u32) -> usize
    ensures next { result ≡ min (at + length (words_part n)) (length out.old) }
    ensures text { out.new ≡ sets out.old at (words_part n) }
{
    match n {
        0 => add_text(out, at, b"the document has no fault"),
        1 => add_text(out, at, b"the document is longer than 1048576 bytes"),
        2 => add_text(out, at, b"an item is unreadable"),
        3 => add_text(
            out,
            at,
            b"an element, an end tag or text is not due here, or the document ends too early",
        ),
        4 => add_text(out, at, b"a table for series or intervals is full"),
        5 => add_text(out, at, b"an attribute is missing or unknown"),
        6 => add_text(out, at, b"a value is against its form or its fixed value"),
        7 => add_text(out, at, b"a value is outside its code list"),
        8 => add_text(out, at, b"a value or a count is against another value"),
        9 => add_text(out, at, b"a TimeSeriesIdentification was used before"),
        10 => add_text(out, at, b"the note buffer has fewer than 16 bytes"),
        11 => add_text(out, at, b"the bytes are not one note"),
        12 => add_text(
            out,
            at,
            b"no legal Beschaffungsanforderung or Kostenblatt has this content",
        ),
        13 => add_text(
            out,
            at,
            b"the document to be written is longer than its output or 1048576 bytes",
        ),
        _ => add_text(out, at, b"an unknown refusal"),
    }
}

fn add_refusal(out: &mut [u8], at: usize, n: u32) -> usize
    ensures next { result ≡ min (at + length (refusal_line n)) (length out.old) }
    ensures text { out.new ≡ sets out.old at (refusal_line n) }
{
    let words_at = add_head(out, at, n);
    let end_at = add_words(out, words_at, n);
    add_text(out, end_at, b".\n")
}

fn add_place(out: &mut [u8], at: usize, refusal: u32, place: u32) -> usize
    ensures next { result ≡ min (at + length (place_line refusal place)) (length out.old) }
    ensures text { out.new ≡ sets out.old at (place_line refusal place) }
{
    if refusal == 0 {
        return add_around(out, at, b"Length: the document has ", place, b" bytes.\n");
    }
    add_around(
        out,
        at,
        b"Place: byte ",
        place,
        b" of the document, its first byte being byte 0.\n",
    )
}

fn add_kind(out: &mut [u8], at: usize, kind: u32) -> usize
    ensures next { result ≡ min (at + length (kind_line kind)) (length out.old) }
    ensures text { out.new ≡ sets out.old at (kind_line kind) }
{
    match kind {
        0 => add_text(out, at, b"Kind: 0, no root yet.\n"),
        1 => add_text(out, at, b"Kind: 1, Beschaffungsanforderung.\n"),
        2 => add_text(out, at, b"Kind: 2, Kostenblatt.\n"),
        3 => add_text(out, at, b"Kind: 3, NetworkConstraintDocument.\n"),
        _ => add_around(out, at, b"Kind: ", kind, b", an unknown kind.\n"),
    }
}

fn add_series(out: &mut [u8], at: usize, refusal: u32, series: u32) -> usize
    ensures next { result ≡ min (at + length (series_part refusal series)) (length out.old) }
    ensures text { out.new ≡ sets out.old at (series_part refusal series) }
{
    if refusal == 0 {
        return add_around(
            out,
            at,
            b"Counts: the document has ",
            series,
            b" series and ",
        );
    }
    add_around(
        out,
        at,
        b"Counts: before that place ",
        series,
        b" series and ",
    )
}

fn add_intervals(out: &mut [u8], at: usize, intervals: u32) -> usize
    ensures next { result ≡ min (at + length (intervals_part intervals)) (length out.old) }
    ensures text { out.new ≡ sets out.old at (intervals_part intervals) }
{
    if intervals == 1 {
        return add_text(out, at, b"1 interval.\n");
    }
    add_around(out, at, b"", intervals, b" intervals.\n")
}

fn add_depth(out: &mut [u8], at: usize, depth: u32) -> usize
    ensures next { result ≡ min (at + length (depth_line depth)) (length out.old) }
    ensures text { out.new ≡ sets out.old at (depth_line depth) }
{
    match depth {
        0 => add_text(out, at, b""),
        1 => add_text(out, at, b"Depth: one element deep.\n"),
        2 => add_text(out, at, b"Depth: two elements deep.\n"),
        3 => add_text(out, at, b"Depth: three elements deep.\n"),
        4 => add_text(out, at, b"Depth: four elements deep.\n"),
        5 => add_text(out, at, b"Depth: five elements deep.\n"),
        6 => add_text(out, at, b"Depth: six elements deep.\n"),
        7 => add_text(out, at, b"Depth: seven elements deep.\n"),
        8 => add_text(out, at, b"Depth: eight elements deep.\n"),
        9 => add_text(out, at, b"Depth: nine elements deep.\n"),
        10 => add_text(out, at, b"Depth: ten elements deep.\n"),
        11 => add_text(out, at, b"Depth: eleven elements deep.\n"),
        12 => add_text(out, at, b"Depth: twelve elements deep.\n"),
        _ => add_around(out, at, b"Depth: ", depth, b" elements deep.\n"),
    }
}

fn add_note(out: &mut [u8], at: usize, n: Note) -> usize
    ensures next { result ≡ min (at + length (explained n)) (length out.old) }
    ensures text { out.new ≡ sets out.old at (explained n) }
{
    let place_at = add_refusal(out, at, n.refusal);
    let kind_at = add_place(out, place_at, n.refusal, n.place);
    let series_at = add_kind(out, kind_at, n.kind);
    let intervals_at = add_series(out, series_at, n.refusal, n.series);
    let depth_at = add_intervals(out, intervals_at, n.intervals);
    add_depth(out, depth_at, n.depth)
}

// The note on a line, of either shape, as the program prints one. The bytes are printed again and compared, so that a line with anything else on it is none.
fn read_line(line: &[u8]) -> Option<Note>
    ensures { result ≡ note_on line.now }
{
    if 56 < line.len() {
        return None;
    }
    let mut bytes = [0u8; 56];
    let n = put_bytes(line, &mut bytes);
    let mut text = [0u8; 168];
    let m = put_hex(front(&bytes, n), &mut text);
    if is_same(front(&text, m), line) {
        return read_note(front(&bytes, n));
    }
    None
}

// Puts what the note on a line means at the start of out, as much as it has room for, and answers how many characters.
// Ruled out: the words of another refusal, a note explained that has bytes after it, and "not a note" for a note that no document reader gives.
pub fn put_explanation(line: &[u8], out: &mut [u8]) -> usize
    ensures count { result ≡ min (length (explanation line.now)) (length out.old) }
    ensures text { out.new ≡ sets out.old 0 (explanation line.now) }
    ensures room { IsPrefixLen result out.new }
{
    match read_line(line) {
        Some(n) => add_note(out, 0, n),
        None => add_text(out, 0, b"This is not a note.\n"),
    }
}
