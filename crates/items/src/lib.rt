// The item at the front of the part of the document that starts after the last item.
#![tactic(auto)]

ghost use Rattle.std.specs.Prelude.{◌≡◌, cond, false, ◌+◌, ◌≤◌, ltb, length};
ghost use Rattle.tags.specs.Tail.{ends, twice_in};
ghost use Rattle.items.specs.Comment.{comment};
ghost use Rattle.items.specs.Text.{text_item};
ghost use Rattle.items.specs.Item.{tag_of, start_tag, end_tag, comment_tag, item, item_end, item_value, read_end};
ghost use Rattle.items.specs.Parts.{name_in, span_of, passed};

use attributes::{is_name_start, name_len, white_len};
use characters::all_chars;
use repeats::has_twice;
use slices::{Span, byte_at, first_at, front, part, rest};
use tags::{Dtd, Known, tail_at};

// A start or empty tag: `<` and the name, whose length is `name`; the values of the attributes that the guideline knows; whether it
// has others, and whether all of those may be passed over on a root; how many bytes it takes.
#[derive(Clone, Copy)]
pub struct Tag {
    pub name: usize,
    pub v: Span,
    pub coding: Span,
    pub dtd: Dtd,
    pub others: bool,
    pub passable: bool,
    pub len: usize,
}

#[derive(Clone, Copy)]
pub enum Item {
    Start(Tag),
    Empty(Tag),
    // the length of its name, and how many bytes it takes
    End(usize, usize),
    // whether it is white space only, and how many bytes it takes
    Text(bool, usize),
    Comment(usize),
    // its place
    Unreadable(usize),
}

// How far a comment reaches, if it is readable.
fn comment_at(s: &[u8]) -> Option<usize>
    ensures reach { result ≡ comment s.now }
    ensures size { (1 ≤ read_end result) × (read_end result ≤ length s.now + 3) }
{
    let n = first_at(b"--", s);
    if byte_at(s, n + 2) == 0x3E {
        if all_chars(front(s, n)) {
            return Some(n + 3);
        }
    }
    None
}

fn comment_tag(before: usize, s: &[u8]) -> Item
    ensures item { result ≡ comment_tag before s.now }
    ensures size { (1 ≤ item_end result) × (item_end result ≤ length s.now + 8) × (item_value result ≤ item_end result) }
{
    if byte_at(s, 2) == 0x2D {
        if byte_at(s, 3) == 0x2D {
            return match comment_at(rest(s, 4)) {
                Some(e) => Item::Comment(4 + e),
                None => Item::Unreadable(before),
            };
        }
    }
    Item::Unreadable(before)
}

fn any_text(before: usize, s: &[u8]) -> Item
    ensures item { result ≡ text_item before s.now }
    ensures size { (1 ≤ item_end result) × (item_end result ≤ length s.now + 8) × (item_value result ≤ item_end result) }
{
    let n = first_at(b"<", s);
    if n == 0 {
        return Item::Unreadable(before);
    }
    if white_len(s) == n {
        return Item::Text(true, n);
    }
    let t = front(s, n);
    if all_chars(t) {
        if first_at(b"&", t) < n {
            return Item::Unreadable(before);
        }
        if first_at(b"]]>", t) < n {
            return Item::Unreadable(before);
        }
        return Item::Text(false, n);
    }
    Item::Unreadable(before)
}

// White space up to a tag, which nearly every text is, is told in one walk.
fn text_at(before: usize, s: &[u8]) -> Item
    ensures item { result ≡ text_item before s.now }
    ensures size { (1 ≤ item_end result) × (item_end result ≤ length s.now + 8) × (item_value result ≤ item_end result) }
{
    let w = white_len(s);
    if 0 < w {
        if byte_at(s, w) == 0x3C {
            return Item::Text(true, w);
        }
    }
    any_text(before, s)
}

fn tag_of(n: usize, k: Known, len: usize) -> Tag
    ensures tag { result ≡ tag_of n k len }
    ensures size { (result.len ≡ len) × (result.v ≡ k.v) }
{
    let v = k.v;
    let coding = k.coding;
    let dtd = k.dtd;
    Tag {
        name: n,
        v,
        coding,
        dtd,
        others: k.others,
        passable: k.passable,
        len,
    }
}

// A tag of at most one attribute has none twice.
fn is_repeated(k: Known, s: &[u8], from: usize) -> bool
    ensures { result ≡ cond (ltb k.many 2) false (twice_in (ends s.now from)) }
{
    if k.many < 2 {
        return false;
    }
    has_twice(s, from)
}

fn start_tag(before: usize, s: &[u8]) -> Item
    ensures item { result ≡ start_tag before s.now }
    ensures size { (1 ≤ item_end result) × (item_end result ≤ length s.now + 8) × (item_value result ≤ item_end result) }
{
    if is_name_start(byte_at(s, 1)) {
        let n = name_len(rest(s, 1));
        let b = 1 + n;
        match tail_at(s, b) {
            Some(tail) => {
                let known = tail.known;
                if is_repeated(known, s, b) {
                    return Item::Unreadable(before);
                }
                let t = tag_of(n, known, tail.end);
                if tail.empty {
                    return Item::Empty(t);
                }
                return Item::Start(t);
            }
            None => return Item::Unreadable(before),
        }
    }
    Item::Unreadable(before)
}

fn end_tag(before: usize, s: &[u8]) -> Item
    ensures item { result ≡ end_tag before s.now }
    ensures size { (1 ≤ item_end result) × (item_end result ≤ length s.now + 8) × (item_value result ≤ item_end result) }
{
    if is_name_start(byte_at(s, 2)) {
        let n = name_len(rest(s, 2));
        let b = 2 + n;
        let e = b + white_len(rest(s, b));
        if byte_at(s, e) == 0x3E {
            return Item::End(n, e + 1);
        }
    }
    Item::Unreadable(before)
}

// The item at the front of s, the part of the document after its first `before` bytes.
// Ruled out: a tag with an attribute twice as readable; other text as white; an end tag with an attribute; the place of the fault
// inside the item in place of the item's.
pub fn item_at(before: usize, s: &[u8]) -> Item
    ensures item { result ≡ item before s.now }
    ensures size { (1 ≤ item_end result) × (item_end result ≤ length s.now + 8) × (item_value result ≤ item_end result) }
{
    if byte_at(s, 0) == 0x3C {
        let b = byte_at(s, 1);
        if b == 0x2F {
            return end_tag(before, s);
        }
        if b == 0x21 {
            return comment_tag(before, s);
        }
        return start_tag(before, s);
    }
    text_at(before, s)
}

// How many bytes the item takes; an unreadable one is passed by no loop, and tells 1.
// Ruled out: the bytes of its name alone.
pub fn item_len(item: Item) -> usize
    ensures { result ≡ item_end item }
{
    match item {
        Item::Start(t) => t.len,
        Item::Empty(t) => t.len,
        Item::End(_, n) => n,
        Item::Text(_, n) => n,
        Item::Comment(n) => n,
        Item::Unreadable(_) => 1,
    }
}

// The name of a tag, and of any other item none.
// Ruled out: a name with its `/`; the name of a start tag for its end tag's place.
pub fn name_in(item: Item, s: &[u8]) -> &[u8]
    ensures { result.now ≡ name_in item s.now }
{
    match item {
        Item::Start(t) => part(s, 1, t.name),
        Item::Empty(t) => part(s, 1, t.name),
        Item::End(n, _) => part(s, 2, n),
        Item::Text(_, _) => part(s, 0, 0),
        Item::Comment(_) => part(s, 0, 0),
        Item::Unreadable(_) => part(s, 0, 0),
    }
}

// Where the value of `v` stands in the item. Ruled out: another attribute's value.
pub fn span_of(item: Item) -> Span
    ensures { result ≡ span_of item }
{
    match item {
        Item::Start(t) => t.v,
        Item::Empty(t) => t.v,
        Item::End(_, _) => Span { start: 0, len: 0 },
        Item::Text(_, _) => Span { start: 0, len: 0 },
        Item::Comment(_) => Span { start: 0, len: 0 },
        Item::Unreadable(_) => Span { start: 0, len: 0 },
    }
}

// Whether the item moves nothing: white text, or a comment. Ruled out: true for any other text.
pub fn is_passed(item: Item) -> bool
    ensures { result ≡ passed item }
{
    match item {
        Item::Start(_) => false,
        Item::Empty(_) => false,
        Item::End(_, _) => false,
        Item::Text(white, _) => white,
        Item::Comment(_) => true,
        Item::Unreadable(_) => false,
    }
}
