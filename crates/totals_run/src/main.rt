// Runs the vectors of totals. A case is four lines of numbers with a space between:
//   kind, N and number of series; the lengths of the series, position and amount tables and of the slices for the totals and for their sum
//   first row and count of each series
//   the positions
//   the amounts, in thousandths
// Printed: the answer, the cells of the totals, and those of the sum. Every cell that a case does not set was something else than 0.
// A write that fails is not told and the rest is still attempted, as with `lines::print_text`.
#![tactic(auto)]

use lines::words_of;
use series::Field;
use std::alloc::AllocError;
use std::io;

#[derive(Clone, Copy)]
struct Number {
    negative: bool,
    size: u64,
}

impl Number {
    // The number that a word shows, as far as there is room for its digits.
    fn of(word: &[u8]) -> Number {
        let mut size = 0;
        for d in word {
            size = next_size(size, *d);
        }
        Number {
            negative: word.contains(&b'-'),
            size,
        }
    }

    // The number, or 0 where it is too large or too small.
    fn signed(self) -> i64 {
        let number = if self.negative {
            0i64.checked_sub_unsigned(self.size)
        } else {
            i64::try_from(self.size).ok()
        };
        number.unwrap_or(0)
    }

    fn unsigned(self) -> u32 {
        small(self.size)
    }
}

// One decimal digit more, as long as there is room.
fn next_size(size: u64, d: u8) -> u64 {
    if size <= 922337203685477580 && d.is_ascii_digit() {
        return size * 10 + (d - b'0') as u64;
    }
    size
}

fn small(size: u64) -> u32 {
    u32::try_from(size).unwrap_or(0)
}

fn field_of(k: u32) -> Field {
    if k % 2 == 0 {
        Field::FirstRow
    } else {
        Field::Count
    }
}

fn put_series(line: &[u8], t: &mut [u32]) {
    for (k, word) in (0..1000000).zip(words_of(line)) {
        series::set_field(t, k / 2, field_of(k), Number::of(word).unsigned());
    }
}

fn put_positions(line: &[u8], t: &mut [u32]) {
    for (cell, word) in t.iter_mut().zip(words_of(line)) {
        *cell = Number::of(word).unsigned();
    }
}

fn put_amounts(line: &[u8], t: &mut [i64]) {
    for (cell, word) in t.iter_mut().zip(words_of(line)) {
        *cell = Number::of(word).signed();
    }
}

// The first eight numbers of a line, and 0 for one that is not there.
fn head_of(line: &[u8]) -> [u64; 8] {
    let mut head = [0; 8];
    for (cell, word) in head.iter_mut().zip(words_of(line)) {
        *cell = Number::of(word).size;
    }
    head
}

fn print_cells(rt: &impl Print, cells: &[i64]) {
    let _ = print!(rt; ":");
    for cell in cells {
        let _ = print!(rt; " {cell}");
    }
}

// The lines of a case, without the first.
#[derive(Clone, Copy)]
struct Tables<'a> {
    rows: &'a [u8],
    places: &'a [u8],
    values: &'a [u8],
}

fn run_case(
    rt: &(impl Print + AllocGlobal),
    line: &[u8],
    tables: Tables<'_>,
) -> Result<(), AllocError> {
    let head = head_of(line);
    let mut series = vec![in rt.alloc(); 7u32; 2424]?;
    put_series(tables.rows, &mut series);
    series.truncate(head[3] as usize);
    let mut positions = vec![in rt.alloc(); 1u32; 1024]?;
    put_positions(tables.places, &mut positions);
    positions.truncate(head[4] as usize);
    let mut amounts = vec![in rt.alloc(); 5i64; 1024]?;
    put_amounts(tables.values, &mut amounts);
    amounts.truncate(head[5] as usize);
    let mut totals = vec![in rt.alloc(); 9i64; 512]?;
    totals.truncate(head[6] as usize);
    let mut sum = vec![in rt.alloc(); 9i64; 8]?;
    sum.truncate(head[7] as usize);
    let r = totals::lumintayag_totals(
        small(head[0]),
        small(head[1]),
        head[2] as usize,
        &series,
        &positions,
        &amounts,
        &mut totals,
        &mut sum,
    );
    let _ = print!(rt; "{r}");
    print_cells(rt, &totals);
    print_cells(rt, &sum);
    let _ = println!(rt);
    Ok(())
}

fn main(rt: HostRuntime) -> io::Result<()> {
    let input = lines::input_of(&rt, lines::INPUT_MOST)?;
    let mut cases = lines::lines_of(&input);
    // A case has a byte or more.
    for _ in 0..input.len() {
        let Some(head) = cases.next() else {
            break;
        };
        let tables = Tables {
            rows: cases.next().unwrap_or(b""),
            places: cases.next().unwrap_or(b""),
            values: cases.next().unwrap_or(b""),
        };
        run_case(&rt, head, tables)?;
    }
    Ok(())
}
