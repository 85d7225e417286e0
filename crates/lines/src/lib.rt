// What the programs share: standard input, the lines and the words of a text, bytes as hexadecimal digits, and a text on standard output.
//
// No contract can say what is read from standard input or written to standard output, so those of `read_input`, `input_of` and `print_text`
// do not; that these are safe and end is proved. The other contracts are equations.
#![tactic(auto)]

ghost use Rattle.std.specs.Prelude.{◌≡◌, ◌+◌, ◌-◌, ◌<◌, ◌≤◌, min, length, take, drop, set, IfOk, vec_len};
ghost use Rattle.std.specs.Iterator.{YieldsFirstRef, item_count};
ghost use Rattle.std.proofs.lemmas.List.Edits.{sets};
ghost use Rattle.io.specs.Counts.{IsPrefixLen};
ghost use Rattle.lists.specs.Zeros.{zeros};
ghost use Rattle.lines.specs.Pieces.{piece_of, pieces_in, pieces_left};
ghost use Rattle.lines.specs.Text.{line_of, told_digit, hex_bytes, glyph_of, hex_text};

use std::alloc::{AllocError, Global};
use std::io::Read;

// The numbers of the open files that every program begins with.
const STANDARD_INPUT: i32 = 0;

const STANDARD_OUTPUT: i32 = 1;

// How many bytes of input a program of vectors reads.
pub const INPUT_MOST: usize = 262144;

// How many bytes a case of such a program has.
const CASE_MOST: usize = 4096;

// Room for the input of any program here. Ruled out: another length, and a byte that is not 0.
// kept: cannot fail, as promised; `input_of` makes the Vec
pub fn input_buffer() -> [u8; 262144]
    ensures zeros { result ≡ zeros 262144 }
    ensures size { 262144 ≡ length result }
{
    [0; 262144]
}

// Reads standard input until it ends, fails or buf is full, and answers how many bytes of buf it filled. The contract says only that the answer is
// at most the length of buf: which bytes come, and how many, is known only when the program runs.
// kept: cannot fail, as promised; `input_of` answers a Vec
pub fn read_input(buf: &mut [u8]) -> usize
    ensures { IsPrefixLen result buf.new }
{
    io::read_full(STANDARD_INPUT, buf)
}

// Reads standard input until it ends, a read fails or `most` bytes have come. The contract says only how many they are at most: which come,
// and how many, is known only when the program runs.
pub fn input_of(rt: &(impl Input + AllocGlobal), most: usize) -> std::io::Result<Vec<u8>>
    ensures { IfOk result (λ v. vec_len v ≤ most) }
{
    let mut input = Vec::with_capacity(rt.alloc(), most)?;
    let _ = rt.reader().take(most as u64).read_to_end(&mut input);
    input.truncate(most);
    Ok(input)
}

// The pieces of a text that a byte ends, without it; the last piece may have no such byte.
#[derive(Drop)]
pub struct Pieces<'a> {
    rest: &'a [u8],
    end: u8,
}

impl<'a> Iterator for Pieces<'a> {
    type Item = &'a [u8];

    ghost next_gives = { YieldsFirstRef pieces_left };

    ghost remaining = { item_count pieces_left };

    #[tactic(auto, using(crate::proofs::Cuts::none_left, crate::proofs::Cuts::first_and_others))]
    fn next(&mut self) -> Option<&'a [u8]> {
        let s = self.rest;
        if s.is_empty() {
            return None;
        }
        let piece = first_piece(s, self.end);
        self.rest = behind(s, piece.len() + 1);
        Some(piece)
    }
}

// The bytes before the first `end`, or all, where there is none.
fn first_piece(s: &[u8], end: u8) -> &[u8]
    ensures { result.now ≡ piece_of end s.now }
{
    for i in 0..s.len() {
        if s[i] == end {
            return &s[..i];
        }
    }
    s
}

// What stands behind the first n bytes.
fn behind(s: &[u8], n: usize) -> &[u8]
    ensures { result.now ≡ drop n s.now }
{
    s.get(n..).unwrap_or(&[])
}

// The line that begins at `at`, without its line feed; where `at` is past the end, no byte.
// Ruled out: a line with its line feed, and one that runs on into the next.
// kept: cannot fail, as promised; `lines_of` is the iterator
pub fn line_at(s: &[u8], at: usize) -> &[u8]
    ensures line { result.now ≡ line_of (drop at s.now) }
    ensures size { length result.now ≤ length s.now - at }
{
    first_piece(behind(s, at), b'\n')
}

// The lines of a text, without their line feeds.
// Ruled out: a line with its line feed, and one that runs on into the next.
pub fn lines_of(s: &[u8]) -> Pieces<'_>
    ensures { pieces_left result ≡ pieces_in 10 s.now }
{
    Pieces {
        rest: s,
        end: b'\n',
    }
}

// The words of a line, without the spaces between.
pub fn words_of(s: &[u8]) -> Pieces<'_>
    ensures { pieces_left result ≡ pieces_in 32 s.now }
{
    Pieces { rest: s, end: b' ' }
}

// What a hexadecimal digit of either case stands for.
#[tactic(auto, unfolding(crate::specs::Text::digit_of, crate::specs::Text::told_digit))]
fn digit(c: u8) -> Option<u8>
    ensures { result ≡ told_digit c }
{
    match c {
        b'0'..=b'9' => Some(c - b'0'),
        b'A'..=b'F' => Some(c - b'A' + 10),
        b'a'..=b'f' => Some(c - b'a' + 10),
        _ => None,
    }
}

// The bytes that a line of hexadecimal digits stands for.
// Ruled out: pairs that begin with the second digit of a byte, and the low digit first.
pub fn bytes_of(alloc: Global, line: &[u8]) -> Result<Vec<u8>, AllocError>
    ensures { IfOk result (λ v. v.items ≡ hex_bytes 16 line.now) }
{
    let mut bytes = Vec::new(alloc);
    let mut high: Option<u8> = None;
    for c in line {
        let Some(low) = digit(*c) else {
            continue;
        };
        match high.take() {
            Some(h) => bytes.push(h * 16 + low)?,
            None => high = Some(low),
        }
    }
    Ok(bytes)
}

// The bytes of a case, as far as there is room for them.
pub fn case_bytes(alloc: Global, line: &[u8]) -> Result<Vec<u8>, AllocError>
    ensures { IfOk result (λ v. v.items ≡ take 4096 (hex_bytes 16 line.now)) }
{
    let mut bytes = bytes_of(alloc, line)?;
    bytes.truncate(CASE_MOST);
    Ok(bytes)
}

// Puts b at n where out has room there, and answers the place after it.
// Ruled out: a byte at another place, and a place past the end of out.
pub fn put_byte(out: &mut [u8], n: usize, b: u8) -> usize
    ensures next { result ≡ min (n + 1) (length out.old) }
    ensures byte { out.new ≡ set out.old n b }
{
    if n < out.len() {
        out[n] = b;
        return n + 1;
    }
    out.len()
}

// Puts s at the start of out, as much as it has room for, and answers how many bytes.
// Ruled out: a byte of out changed past the end of s, and a count of bytes that had no room.
pub fn put_text(s: &[u8], out: &mut [u8]) -> usize
    ensures count { result ≡ min (length s.now) (length out.old) }
    ensures text { out.new ≡ sets out.old 0 s.now }
    ensures room { IsPrefixLen result out.new }
{
    let mut n: usize = 0;
    for i in 0..s.len() {
        n = put_byte(out, n, s[i]);
    }
    n
}

// Puts the bytes that a line of hexadecimal digits stands for at the start of out, as many as it has room for, and answers how many.
// Ruled out: pairs that begin with the second digit of a byte, the low digit first, and a byte of out changed past the last pair.
// kept: cannot fail, as promised; `bytes_of` answers a Vec
pub fn put_bytes(line: &[u8], out: &mut [u8]) -> usize
    ensures count { result ≡ min (length (hex_bytes 16 line.now)) (length out.old) }
    ensures bytes { out.new ≡ sets out.old 0 (hex_bytes 16 line.now) }
    ensures room { IsPrefixLen result out.new }
{
    let mut n: usize = 0;
    let mut high: Option<u8> = None;
    for c in line {
        let Some(low) = digit(*c) else {
            continue;
        };
        match high.take() {
            Some(h) => n = put_byte(out, n, h * 16 + low),
            None => high = Some(low),
        }
    }
    n
}

// The upper-case hexadecimal digit for the last four bits of n.
fn glyph(n: u8) -> u8
    ensures { result ≡ glyph_of n }
{
    let d = n % 16;
    if d < 10 { 48 + d } else { 55 + d }
}

// Puts the bytes of s in "two-digit upper-case hex, single spaces" at the start of out, as much as it has room for, and answers how many characters.
// Ruled out: a space after the last byte, and a byte below 10 in hex with one digit.
pub fn put_hex(s: &[u8], out: &mut [u8]) -> usize
    ensures count { result ≡ min (length (hex_text s.now)) (length out.old) }
    ensures text { out.new ≡ sets out.old 0 (hex_text s.now) }
    ensures room { IsPrefixLen result out.new }
{
    let mut n: usize = 0;
    for i in 0..s.len() {
        let b = s[i];
        let high = glyph(b / 16);
        let low = glyph(b);
        n = put_byte(out, n, high);
        n = put_byte(out, n, low);
        if i + 1 < s.len() {
            n = put_byte(out, n, 32);
        }
    }
    n
}

// Writes text to standard output. The contract says nothing: what is written is no answer and no lent buffer, and a write that fails is not told.
pub fn print_text(text: &[u8]) {
    io::write_all(STANDARD_OUTPUT, text);
}

#[cfg(test)]
mod tests {
    use super::*;

    // That there is memory, and that standard input can be read, no clause says.
    #[test]
    fn takes_memory(rt: HostRuntime) -> Result<(), AllocError> {
        assert_eq!(rt; bytes_of(rt.alloc(), b"4C 7")?.len(), 1);
        assert_eq!(rt; case_bytes(rt.alloc(), b"4c4D 4E")?.len(), 3);
        Ok(())
    }

    #[test]
    fn reads_input(rt: HostRuntime) -> std::io::Result<()> {
        let input = input_of(&rt, 16)?;
        assert!(rt; input.len() <= 16);
        Ok(())
    }
}
