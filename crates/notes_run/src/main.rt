// Runs the vectors of the note. A line of standard input is a case:
//   r HEX         the note reader is handed the bytes; printed: the refusal's number and the six numbers, the depth last
//   w HEX, x HEX  the first byte is how many bytes the note buffer has (at most 48), and the next twenty-four are the six numbers, four bytes
//                 each, highest first; the note is written in the old shape (w) or in the new one (x); printed: 0, the note's length, and all bytes of the buffer
//   o HEX, n HEX  the first byte is how many bytes the output has (at most 48), and those after it are converted into the old shape (o) or the new one (n);
//                 printed: the refusal's number, the note's length, and all bytes of the output
// Any other line is printed as it is.
// A write that fails is not told and the rest is still attempted, as with `lines::print_text`.
#![tactic(auto)]

use notes::{ConvertError, Note, Shape};
use std::alloc::AllocError;
use std::io;

fn print_numbers(rt: &impl Print, refusal: u32, n: Note) {
    let _ = print!(rt; "{refusal} {} {} {}", n.refusal, n.place, n.kind);
    let _ = print!(rt; " {} {} {}", n.series, n.intervals, n.depth);
}

fn show_read(rt: &impl Print, s: &[u8]) {
    match notes::read_note(s) {
        Some(n) => print_numbers(rt, 0, n),
        None => {
            let _ = print!(rt; "11 0 0 0 0 0 0");
        }
    }
}

// The byte at i, and 0 past the end.
fn byte_at(s: &[u8], i: usize) -> u8 {
    s.get(i).copied().unwrap_or(0)
}

// The number of the four bytes from `at` on, highest first.
fn number_at(s: &[u8], at: u8) -> u32 {
    let i = at as usize;
    u32::from_be_bytes([
        byte_at(s, i),
        byte_at(s, i + 1),
        byte_at(s, i + 2),
        byte_at(s, i + 3),
    ])
}

// At most 48 bytes are shown, and their digits with the spaces between are at most 143 characters.
fn show_bytes(rt: &impl Print, refusal: u32, len: usize, out: &[u8]) {
    let mut text = [0u8; 143];
    let n = lines::put_hex(out, &mut text);
    let _ = print!(rt; "{refusal} {len}: ");
    let _ = rt.write_all(&text[..n]);
}

fn run_write(rt: &(impl Print + AllocGlobal), s: &[u8], shape: Shape) -> Result<(), AllocError> {
    let n = Note {
        refusal: number_at(s, 1),
        place: number_at(s, 5),
        kind: number_at(s, 9),
        series: number_at(s, 13),
        intervals: number_at(s, 17),
        depth: number_at(s, 21),
    };
    let room = byte_at(s, 0) as usize;
    if 48 < room {
        return Ok(());
    }
    let mut note = vec![in rt.alloc(); 255u8; room]?;
    let len = notes::write_note(&mut note, shape, n);
    show_bytes(rt, 0, len, &note);
    Ok(())
}

fn run_convert(rt: &(impl Print + AllocGlobal), s: &[u8], shape: Shape) -> Result<(), AllocError> {
    let Some((room, note)) = s.split_first() else {
        return Ok(());
    };
    if 48 < *room {
        return Ok(());
    }
    let mut out = vec![in rt.alloc(); 255u8; *room as usize]?;
    match notes::convert_note(note, shape, &mut out) {
        Ok(k) => show_bytes(rt, 0, k, &out),
        Err(ConvertError::OutShort) => show_bytes(rt, 10, 0, &out),
        Err(ConvertError::NeitherShape) => show_bytes(rt, 11, 0, &out),
    }
    Ok(())
}

fn run_case(rt: &(impl Print + AllocGlobal), line: &[u8]) -> Result<(), AllocError> {
    let s = lines::case_bytes(rt.alloc(), line)?;
    match line.first() {
        Some(b'r') => show_read(rt, &s),
        Some(b'w') => run_write(rt, &s, Shape::Old)?,
        Some(b'x') => run_write(rt, &s, Shape::New)?,
        Some(b'o') => run_convert(rt, &s, Shape::Old)?,
        Some(b'n') => run_convert(rt, &s, Shape::New)?,
        _ => {
            let _ = rt.write_all(line);
        }
    }
    let _ = println!(rt);
    Ok(())
}

fn main(rt: HostRuntime) -> io::Result<()> {
    let input = lines::input_of(&rt, lines::INPUT_MOST)?;
    for line in lines::lines_of(&input) {
        run_case(&rt, line)?;
    }
    Ok(())
}
