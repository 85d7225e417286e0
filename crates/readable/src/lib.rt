// How far a document is readable, item by item.
#![tactic(auto)]

ghost use Rattle.std.specs.Prelude.{◌≡◌, ◌+◌, ◌≤◌, length};
ghost use Rattle.readable.specs.Readable.{passed_bytes, readable};

use items::{Item, item_at};
use prolog::first_item;
use slices::rest;

// How many bytes of items that can be read stand at the front of s.
fn passed_len(s: &[u8]) -> usize
    ensures len { result ≡ passed_bytes s.now }
    ensures size { result ≤ length s.now + 8 }
{
    let mut i = 0;
    while i < s.len() {
        match item_at(0, &s[i..]) {
            Item::Start(t) => {
                i += t.len;
            }
            Item::Empty(t) => {
                i += t.len;
            }
            Item::End(_, n) => {
                i += n;
            }
            Item::Text(_, n) => {
                i += n;
            }
            Item::Comment(n) => {
                i += n;
            }
            Item::Unreadable(_) => return i,
        }
    }
    i
}

// The place of the first unreadable item of a document, or its length.
// Ruled out: the place of the fault inside the item; the length for a document that is cut off in a tag.
pub fn lumintayag_readable_len(doc: &[u8]) -> usize
    ensures { result ≡ readable doc.now }
{
    match first_item(doc) {
        Ok(n) => n + passed_len(rest(doc, n)),
        Err(p) => p,
    }
}
