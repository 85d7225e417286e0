// A tag after its name: what is kept of its attributes, and where it ends.
#![tactic(auto)]

ghost use Rattle.std.specs.Prelude.{◌≡◌, ◌+◌, ◌≤◌, length};
ghost use Rattle.slices.specs.Same.{same};
ghost use Rattle.slices.specs.Text.{text};
ghost use Rattle.tags.specs.Known.{passed_over, up_to_two, dtd_name, with_dtd, no_dtd, with_attribute, none_known};
ghost use Rattle.tags.specs.First.{v_use, first_known};
ghost use Rattle.tags.specs.Tail.{ends, shut, tail, tail_use, tail_value};

use attributes::{Piece, piece_at, v_len};
use slices::{Span, begins_with, byte_at, is_same, part, rest};

fn is_passed_over(name: &[u8]) -> bool
    ensures { result ≡ passed_over name.now }
{
    if is_same(name, b"xmlns") {
        return true;
    }
    if begins_with(b"xmlns:", name) {
        return true;
    }
    begins_with(b"xsi:", name)
}

// The values of the attributes that a root may have: DtdVersion, DtdRelease and DtdBDEWNachrichtenVersion. Which of them it has is told by its kind.
#[derive(Clone, Copy)]
pub struct Dtd {
    pub version: Span,
    pub release: Span,
    pub message: Span,
}

fn is_dtd_name(name: &[u8]) -> bool
    ensures { result ≡ dtd_name name.now }
{
    if is_same(name, b"DtdBDEWNachrichtenVersion") {
        return true;
    }
    if is_same(name, b"DtdVersion") {
        return true;
    }
    is_same(name, b"DtdRelease")
}

impl Dtd {
    fn none() -> Dtd
        ensures { result ≡ no_dtd }
    {
        let absent = Span { start: 0, len: 0 };
        Dtd {
            version: absent,
            release: absent,
            message: absent,
        }
    }

    // One of the three names, and its value.
    fn noted(mut self, name: &[u8], value: Span) -> Dtd
        ensures { result ≡ with_dtd self name.now value }
    {
        if is_same(name, b"DtdVersion") {
            self.version = value;
            return self;
        }
        if is_same(name, b"DtdRelease") {
            self.release = value;
            return self;
        }
        self.message = value;
        self
    }
}

// What is kept of a tag's attributes while it is read.
#[derive(Clone, Copy)]
pub struct Known {
    pub v: Span,
    pub coding: Span,
    pub dtd: Dtd,
    // whether there are attributes with other names, and whether all of those may be passed over on a root
    pub others: bool,
    pub passable: bool,
    // how many attributes there are: none, one, or 2 for more
    pub many: usize,
}

fn one_more(many: usize) -> usize
    ensures { result ≡ up_to_two many }
{
    if many < 2 { many + 1 } else { many }
}

// Nearly every attribute is named `v`: that is seen without a walk.
fn is_v(name: &[u8]) -> bool
    ensures { result ≡ same name.now (text "v") }
{
    if name.len() == 1 {
        name[0] == 0x76
    } else {
        false
    }
}

impl Known {
    // No attribute yet. Ruled out: a value that is there; others that may not be passed over.
    pub fn none() -> Known
        ensures { result ≡ none_known }
    {
        let absent = Span { start: 0, len: 0 };
        let dtd = Dtd::none();
        Known {
            v: absent,
            coding: absent,
            dtd,
            others: false,
            passable: true,
            many: 0,
        }
    }

    // `v` and no other.
    fn only_v(value: Span) -> Known
        ensures { result ≡ with_attribute none_known (text "v") value }
    {
        let absent = Span { start: 0, len: 0 };
        let dtd = Dtd::none();
        Known {
            v: value,
            coding: absent,
            dtd,
            others: false,
            passable: true,
            many: 1,
        }
    }

    // Ruled out: a value kept under another name; an attribute `vv` or `V` taken for `v`; `xsi` passed over.
    pub fn noted(mut self, name: &[u8], value: Span) -> Known
        ensures { result ≡ with_attribute self name.now value }
    {
        self.many = one_more(self.many);
        if is_v(name) {
            self.v = value;
            return self;
        }
        if is_same(name, b"codingScheme") {
            self.coding = value;
            return self;
        }
        if is_dtd_name(name) {
            let dtd = self.dtd;
            self.dtd = dtd.noted(name, value);
            return self;
        }
        self.others = true;
        if is_passed_over(name) {
            return self;
        }
        self.passable = false;
        self
    }
}

// The rest of a tag that ends: what is kept of the attributes, whether the tag is an empty one, and the place after it.
#[derive(Clone, Copy)]
pub struct Tail {
    pub known: Known,
    pub empty: bool,
    pub end: usize,
}

impl Tail {
    // A tag that ends.
    fn shut(known: Known, empty: bool, end: usize) -> Option<Tail>
        ensures { result ≡ shut known empty end }
    {
        Some(Tail { known, empty, end })
    }
}

// The rest of a tag, where this is known of the attributes before it; none where the tag breaks off.
fn any_tail(s: &[u8], from: usize, known: Known) -> Option<Tail>
    requires { known.v.start + known.v.len ≤ from }
    ensures tail { result ≡ tail known (ends s.now from) }
    ensures size { (1 ≤ tail_use result) × (tail_use result ≤ length s.now + 3) × (tail_value result ≤ tail_use result) }
{
    let mut k = known;
    let mut i = from;
    while i < s.len() {
        let t = rest(s, i);
        match piece_at(t) {
            Piece::Attribute {
                at,
                name,
                value,
                len,
                next,
            } => {
                let start = i + value;
                let after = i + next;
                k = k.noted(part(t, at, name), Span { start, len });
                i = after;
            }
            Piece::Close(n) => return Tail::shut(k, false, i + n),
            Piece::CloseEmpty(n) => return Tail::shut(k, true, i + n),
            Piece::Torn => return None,
        }
    }
    None
}

// How many bytes `v` takes in its shortest form, where m is its `v_len`.
fn v_use(m: usize) -> usize
    requires { m + 4 ≤ 18446744073709551615 }
    ensures { result ≡ v_use m }
{
    if m == 0 { 0 } else { m + 4 }
}

// What is known after it, where it begins at the place `from`.
fn first_known(from: usize, m: usize) -> Known
    requires { from + 4 ≤ 18446744073709551615 }
    ensures { result ≡ first_known from m }
{
    if m == 0 {
        return Known::none();
    }
    let start = from + 4;
    let len = m - 1;
    Known::only_v(Span { start, len })
}

// The rest of the tag at the front of s, from the place `from` on; none where it breaks off. `>`, and `v` alone in an empty tag, which nearly every tag has, are told
// with no turn of a loop.
// Ruled out: the value of another attribute; an empty tag taken for a start; a place before or past the `>`.
pub fn tail_at(s: &[u8], from: usize) -> Option<Tail>
    ensures tail { result ≡ tail none_known (ends s.now from) }
    ensures size { (1 ≤ tail_use result) × (tail_use result ≤ length s.now + 3) × (tail_value result ≤ tail_use result) }
{
    if s.len() <= from {
        return None;
    }
    let t = rest(s, from);
    if byte_at(t, 0) == 0x3E {
        return Tail::shut(Known::none(), false, from + 1);
    }
    let m = v_len(t);
    let k = first_known(from, m);
    let i = from + v_use(m);
    if 0 < m {
        if byte_at(t, m + 4) == 0x2F {
            if byte_at(t, m + 5) == 0x3E {
                return Tail::shut(k, true, i + 2);
            }
        }
    }
    any_tail(s, i, k)
}
