// Runs the vectors of prolog and items. A line of standard input is a document in hexadecimal bytes; printed: where its first item begins,
// or that its declaration is unreadable; then each item from there on, up to the first unreadable one, with its place, or `over`.
// Of a start or an empty tag: the length of its name; start and length of the values of `v`, `codingScheme` and
// `DtdBDEWNachrichtenVersion`, counted from its `<` (0 0 for one that is not there); whether it has other attributes, and whether all of
// those may be passed over on a root; its length.
// A write that fails is not told and the rest is still attempted, as with `lines::print_text`.
#![tactic(auto)]

ghost use Rattle.std.specs.Prelude.{◌+◌, ◌≤◌, length};

use items::{Item, Tag};
use slices::Span;
use std::io;

fn show_span(rt: &impl Print, name: &str, s: Span) {
    let _ = print!(rt; " {name} {} {}", s.start, s.len);
}

fn show_tag(rt: &impl Print, item: &str, t: Tag) {
    let _ = print!(rt; " {item} name {}", t.name);
    show_span(rt, "v", t.v);
    show_span(rt, "coding", t.coding);
    let dtd = t.dtd;
    show_span(rt, "version", dtd.message);
    let (others, passable) = (u8::from(t.others), u8::from(t.passable));
    let _ = print!(rt; " others {others} passable {passable} len {}", t.len);
}

// The item at the front of s is shown. The answer is how many bytes it takes, and 0 for an unreadable one.
// No Option: the loop that asks has to test for 0 anyhow, so that it is seen to end.
fn show_item(rt: &impl Print, before: usize, s: &[u8]) -> usize
    ensures { result ≤ length s.now + 8 }
{
    match items::item_at(before, s) {
        Item::Start(t) => {
            show_tag(rt, "start", t);
            t.len
        }
        Item::Empty(t) => {
            show_tag(rt, "empty", t);
            t.len
        }
        Item::End(name, n) => {
            let _ = print!(rt; " end name {name} len {n}");
            n
        }
        Item::Text(white, n) => {
            let _ = print!(rt; " text white {} len {n}", u8::from(white));
            n
        }
        Item::Comment(n) => {
            let _ = print!(rt; " comment len {n}");
            n
        }
        Item::Unreadable(place) => {
            let _ = print!(rt; " refused {place}");
            0
        }
    }
}

fn show_items(rt: &impl Print, doc: &[u8], from: usize) {
    let mut at = from;
    while at < doc.len() {
        let _ = print!(rt; ":");
        let n = show_item(rt, at, &doc[at..]);
        if n == 0 {
            return;
        }
        at += n;
    }
    let _ = print!(rt; ": over");
}

fn show_document(rt: &impl Print, doc: &[u8]) {
    match prolog::first_item(doc) {
        Ok(at) => {
            let _ = print!(rt; "from {at}");
            show_items(rt, doc, at);
        }
        Err(at) => {
            let _ = print!(rt; "unreadable {at}");
            show_items(rt, doc, at);
        }
    }
    let _ = println!(rt);
}

fn main(rt: HostRuntime) -> io::Result<()> {
    let input = lines::input_of(&rt, lines::INPUT_MOST)?;
    for line in lines::lines_of(&input) {
        show_document(&rt, &lines::case_bytes(rt.alloc(), line)?);
    }
    Ok(())
}
