// Runs the vectors of views. A case is two lines of standard input:
//   three bytes in hexadecimal digits: how many cells the table has, highest byte first, and how many the answer
//   the document
// Printed: what is answered, the cells of the answer, and those of the table. Every cell that is lent was something else than 0.
// A write that fails is not told and the rest is still attempted, as with `lines::print_text`.
#![tactic(auto)]

ghost use Rattle.std.specs.Prelude.{◌≤◌, IfOk, vec_len};

use std::alloc::{AllocError, Global};
use std::io;

// The byte at i, and 0 past the end.
fn byte_at(s: &[u8], i: usize) -> u8 {
    s.get(i).copied().unwrap_or(0)
}

fn print_cells(rt: &impl Print, cells: &[u32]) {
    let _ = print!(rt; ":");
    for cell in cells {
        let _ = print!(rt; " {cell}");
    }
}

// n cells, at most as many as there are.
fn cells(alloc: Global, n: u16, most: u16, old: u32) -> Result<Vec<u32>, AllocError>
    ensures { IfOk result (λ v. vec_len v ≤ most) }
{
    vec![in alloc; old; n.min(most) as usize]
}

fn run_case(rt: &(impl Print + AllocGlobal), head: &[u8], doc: &[u8]) -> Result<(), AllocError> {
    let n = lines::case_bytes(rt.alloc(), head)?;
    let room = u16::from_be_bytes([byte_at(&n, 0), byte_at(&n, 1)]);
    let mut table = cells(rt.alloc(), room, 512, 7)?;
    let mut answer = cells(rt.alloc(), u16::from(byte_at(&n, 2)), 16, 9)?;
    let r = views::lumintayag_views(doc, &mut table, &mut answer);
    let _ = print!(rt; "{r}");
    print_cells(rt, &answer);
    print_cells(rt, &table);
    let _ = println!(rt);
    Ok(())
}

fn main(rt: HostRuntime) -> io::Result<()> {
    let input = lines::input_of(&rt, lines::INPUT_MOST)?;
    let mut cases = lines::lines_of(&input);
    // A case has a byte or more.
    for _ in 0..input.len() {
        let Some(head) = cases.next() else {
            break;
        };
        let doc = cases.next().unwrap_or(b"");
        run_case(&rt, head, doc)?;
    }
    Ok(())
}
