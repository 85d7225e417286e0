// Runs the document reader over sample documents. Each argument is a file's name, NAME.xml; printed of it is one line:
//   NAME refusal place kind series intervals N notelen NOTEHEX S P A
// notelen is the note's length and NOTEHEX its bytes; S, P and A are the check numbers of the whole series, position and amount tables.
// The lent buffers are full of old values, so that a cell that the reader leaves as it was shows. A file has at most 262,144 bytes.
// A write that fails is not told and the rest is still attempted, as with `lines::print_text`.
#![tactic(auto)]

mod sums;

ghost use Rattle.std.specs.Prelude.{◌≤◌, IfOk, vec_len};

use notes::Shape;
use series::WIDTH;
use slices::front;
use std::alloc::{AllocError, Global};
use std::fs::File;
use std::io::Read;
use std::rt::Files;
use std::{env, io};
use sums::{sum_of_amounts, sum_of_numbers};

// One byte at a time, since `put_hex` has spaces between two.
fn print_digits(rt: &impl Print, s: &[u8]) {
    for i in 0..s.len() {
        let mut two = [0u8; 2];
        let n = lines::put_hex(&s[i..i + 1], &mut two);
        let _ = rt.write_all(&two[..n]);
    }
}

fn run_document(rt: &impl Print, doc: &[u8]) {
    let mut series = [7u32; 64 * WIDTH];
    let mut positions = [7u32; 2048];
    let mut amounts = [7i64; 2048];
    let mut note = [7u8; 16];
    let a = reader::read(
        doc,
        &mut series,
        &mut positions,
        &mut amounts,
        Shape::Old,
        &mut note,
    );
    let _ = print!(rt; " {} {} {} {}", a.refusal, a.place, a.kind, a.series);
    let _ = print!(rt; " {} {} {} ", a.intervals, a.quarters, a.note);
    print_digits(rt, front(&note, a.note));
    let (s, p) = (sum_of_numbers(&series), sum_of_numbers(&positions));
    let _ = print!(rt; " {s} {p} {}", sum_of_amounts(&amounts));
}

// At most as many bytes of a file as are read of standard input; a read that fails ends them. The memory is taken first, so that none is
// refused halfway and the document cut short. The file is closed at the return.
fn read_file(alloc: Global, file: impl Read + Drop) -> Result<Vec<u8>, AllocError>
    ensures { IfOk result (λ v. vec_len v ≤ 262144) }
{
    let mut bytes = Vec::with_capacity(alloc, lines::INPUT_MOST)?;
    let _ = file.take(lines::INPUT_MOST as u64).read_to_end(&mut bytes);
    bytes.truncate(lines::INPUT_MOST);
    Ok(bytes)
}

fn run_sample(rt: &(impl Files + Print + AllocGlobal), name: &str) -> Result<(), AllocError> {
    let stem = name.split_once(".xml").map_or(name, |(stem, _)| stem);
    let _ = print!(rt; "{stem}");
    if let Ok(file) = File::open(rt, name) {
        run_document(rt, &read_file(rt.alloc(), file)?);
    } else {
        let _ = print!(rt; " is missing");
    }
    let _ = println!(rt);
    Ok(())
}

fn main(rt: HostRuntime) -> io::Result<()> {
    for name in env::args(&rt)?.skip(1) {
        run_sample(&rt, name.as_str())?;
    }
    Ok(())
}
