// Explains each line of standard input as a note, with an empty line after each explanation. It sees no document.
#![tactic(auto)]

use std::io;

// Prints what the note on a line means; 370 bytes have room for any explanation (`explanation-fits` of explanations).
// A write that fails is not told and the rest is still attempted, as with `lines::print_text`.
fn explain_line(rt: &impl Print, line: &[u8]) {
    let mut text = [0u8; 370];
    let n = explanations::put_explanation(line, &mut text);
    let _ = rt.write_all(&text[..n]);
    let _ = println!(rt);
}

fn main(rt: HostRuntime) -> io::Result<()> {
    let input = lines::input_of(&rt, lines::INPUT_MOST)?;
    for line in lines::lines_of(&input) {
        explain_line(&rt, line);
    }
    Ok(())
}
