// Runs the vectors of characters. A line of standard input is a part in hexadecimal bytes; printed: the number and the length of the
// character at its front, or `none`; whether every byte belongs to a character (1 or 0); how many characters it says.
// A write that fails is not told and the rest is still attempted, as with `lines::print_text`.
#![tactic(auto)]

use std::alloc::AllocError;
use std::io;

fn show_char(rt: &impl Print, s: &[u8]) {
    let _ = match characters::char_at(s) {
        Some((c, n)) => print!(rt; " {c} {n}"),
        None => print!(rt; " none"),
    };
}

fn run_case(rt: &(impl Print + AllocGlobal), line: &[u8]) -> Result<(), AllocError> {
    let s = lines::case_bytes(rt.alloc(), line)?;
    let all = u8::from(characters::all_chars(&s));
    let count = characters::count_chars(&s);
    let _ = print!(rt; "char");
    show_char(rt, &s);
    let _ = println!(rt; " all {all} count {count}");
    Ok(())
}

fn main(rt: HostRuntime) -> io::Result<()> {
    let input = lines::input_of(&rt, lines::INPUT_MOST)?;
    for line in lines::lines_of(&input) {
        run_case(&rt, line)?;
    }
    Ok(())
}
