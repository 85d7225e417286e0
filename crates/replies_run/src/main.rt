// Prints what is replied to short examples of the paper, and to inputs of 65,536 and of 65,537 spaces: the last is too long.
#![tactic(auto)]

use replies::print_reply;

fn main() {
    print_reply(b"");
    print_reply(b"<Kostenblatt>");
    print_reply(b"<Kostenblatt/>");
    print_reply(b"<Kostenblatt DtdBDEWNachrichtenVersion=\"1.0\">");
    print_reply(b"<Kostenblatt DtdBDEWNachrichtenVersion=\"1.1\">");
    let spaces = [32u8; 65537];
    print_reply(&spaces[..65536]);
    print_reply(&spaces);
}
