// Reads a document from standard input and prints its note. One byte more than a document may have is read, so that longer input is known.
#![tactic(auto)]

use std::io;

fn main(rt: HostRuntime) -> io::Result<()> {
    let input = lines::input_of(&rt, 65537)?;
    replies::print_reply(&input);
    Ok(())
}
