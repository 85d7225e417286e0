// Runs the vectors of references. A line of standard input is the value of an attribute in hexadecimal bytes; printed: `says` and the number of each
// character that it says, or `none` where no tag may have it.
// A write that fails is not told and the rest is still attempted, as with `lines::print_text`.
#![tactic(auto)]

use attributes::Piece;
use std::alloc::{AllocError, Global};
use std::io;

// How many bytes a tag has here.
const TAG: usize = 4096;

fn show_said(rt: &impl Print, v: &[u8]) {
    let _ = print!(rt; "says");
    let mut i: usize = 0;
    while i < v.len() {
        let Some((c, n)) = characters::said_at(&v[i..]) else {
            return;
        };
        let _ = print!(rt; " {c}");
        i += n;
    }
}

// A value that has a double quote stands between single ones.
fn quote_for(v: &[u8]) -> u8 {
    if v.contains(&b'"') { b'\'' } else { b'"' }
}

// The attribute ` v="..."`, as much of it as there is room for, and zeros after it.
fn tag_of(alloc: Global, v: &[u8]) -> Result<Vec<u8>, AllocError> {
    let quote = quote_for(v);
    let mut tag = Vec::new(alloc);
    tag.extend_from_slice(b" v=")?;
    tag.push(quote)?;
    tag.extend_from_slice(v)?;
    tag.push(quote)?;
    tag.resize(TAG, 0)?;
    Ok(tag)
}

// Whether a tag may have an attribute with all of this as its value.
fn is_value(alloc: Global, v: &[u8]) -> Result<bool, AllocError> {
    let tag = tag_of(alloc, v)?;
    let Piece::Attribute { len, .. } = attributes::piece_at(&tag) else {
        return Ok(false);
    };
    Ok(len == v.len())
}

fn run_case(rt: &(impl Print + AllocGlobal), line: &[u8]) -> Result<(), AllocError> {
    let v = lines::case_bytes(rt.alloc(), line)?;
    if is_value(rt.alloc(), &v)? {
        show_said(rt, &v);
    } else {
        let _ = print!(rt; "none");
    }
    let _ = println!(rt);
    Ok(())
}

fn main(rt: HostRuntime) -> io::Result<()> {
    let input = lines::input_of(&rt, lines::INPUT_MOST)?;
    for line in lines::lines_of(&input) {
        run_case(&rt, line)?;
    }
    Ok(())
}
