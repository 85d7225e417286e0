// Whether a tag has an attribute twice: two by two where it has few, else by their order, in passes over the tag.
// What the passes find is checked by its own count, so nothing is asked of the heap but that it holds names of the tag.
#![tactic(auto)]

ghost use Rattle.std.specs.Prelude.{◌≡◌, true, cond, ◌+◌, ◌*◌, ◌≤◌, ◌<◌, length};
ghost use Rattle.tags.specs.Tail.{ends, twice_in};
ghost use Rattle.repeats.specs.Order.{name_at, less};
ghost use Rattle.repeats.specs.Bearers.{attributes_of, bearers, bears_at};
ghost use Rattle.repeats.specs.Cells.{Cells, Kept, KeptPast, KeptOr, Fallen};

use attributes::{Piece, name_len, piece_at};
use slices::{front, is_same, part, rest};

// How many attributes a tag has, none where it is torn.
fn count_attributes(s: &[u8], from: usize) -> usize
    ensures { result ≡ length (attributes_of (ends s.now from)) }
{
    let mut n = 0;
    let mut i = from;
    while i < s.len() {
        match piece_at(rest(s, i)) {
            Piece::Attribute {
                at: _,
                name: _,
                value: _,
                len: _,
                next,
            } => {
                n += 1;
                i += next;
            }
            Piece::Close(_) => return n,
            Piece::CloseEmpty(_) => return n,
            Piece::Torn => return 0,
        }
    }
    0
}

fn one_if(is: bool) -> usize
    ensures number { result ≡ cond is 1 0 }
    ensures size { result ≤ 1 }
{
    if is { 1 } else { 0 }
}

// How many attributes of a tag bear the name x.
fn count_bearers(s: &[u8], from: usize, x: &[u8]) -> usize
    ensures { result ≡ bearers x.now (attributes_of (ends s.now from)) }
{
    let mut n = 0;
    let mut i = from;
    while i < s.len() {
        let t = rest(s, i);
        match piece_at(t) {
            Piece::Attribute {
                at,
                name,
                value: _,
                len: _,
                next,
            } => {
                n += one_if(is_same(x, part(t, at, name)));
                i += next;
            }
            Piece::Close(_) => return n,
            Piece::CloseEmpty(_) => return n,
            Piece::Torn => return 0,
        }
    }
    0
}

// Each name is looked for after its attribute.
fn by_pairs(s: &[u8], from: usize) -> bool
    ensures { result ≡ twice_in (ends s.now from) }
{
    let mut i = from;
    while i < s.len() {
        let t = rest(s, i);
        match piece_at(t) {
            Piece::Attribute {
                at,
                name,
                value: _,
                len: _,
                next,
            } => {
                let after = i + next;
                if 0 < count_bearers(s, after, part(t, at, name)) {
                    return true;
                }
                i = after;
            }
            Piece::Close(_) => return false,
            Piece::CloseEmpty(_) => return false,
            Piece::Torn => return false,
        }
    }
    false
}

fn name_at(s: &[u8], p: usize) -> &[u8]
    ensures { result.now ≡ name_at s.now p }
{
    let t = rest(s, p);
    front(t, name_len(t))
}

fn is_less(x: &[u8], y: &[u8]) -> bool
    ensures { result ≡ less x.now y.now }
{
    for i in 0..y.len() {
        if x.len() <= i {
            return true;
        }
        if x[i] < y[i] {
            return true;
        }
        if y[i] < x[i] {
            return false;
        }
    }
    false
}

// Whether the name at p comes before the name at q.
fn is_before(s: &[u8], p: u32, q: u32) -> bool
    ensures { result ≡ less (name_at s.now p) (name_at s.now q) }
{
    is_less(name_at(s, p as usize), name_at(s, q as usize))
}

fn swap(h: &mut [u32], i: usize, j: usize)
    requires { (i < length h.old) × (j < length h.old) }
    ensures { KeptPast i j h.old h.new }
{
    let x = h[i];
    h[i] = h[j];
    h[j] = x;
}

// h is a heap of places, the greatest name first: here its last cell rises to its place.
fn rise(s: &[u8], h: &mut [u32], last: usize)
    requires { last < length h.old }
    ensures { Kept (last + 1) h.old h.new }
{
    let mut i = last;
    while 0 < i {
        let above = (i - 1) / 2;
        if is_before(s, h[above], h[i]) {
            swap(h, above, i);
            i = above;
        } else {
            return;
        }
    }
}

// The greater one of the two below i.
fn below(s: &[u8], h: &[u32], n: usize, i: usize) -> usize
    requires { (n ≤ length h.now) × (2 * i + 1 < n) }
    ensures { (i < result) × (result < n) }
{
    let a = 2 * i + 1;
    let b = a + 1;
    if b < n {
        if is_before(s, h[a], h[b]) {
            return b;
        }
    }
    a
}

// Of the first n cells the first sinks to its place.
fn sink(s: &[u8], h: &mut [u32], n: usize)
    requires { n ≤ length h.old }
    ensures { Kept n h.old h.new }
{
    let mut i = 0;
    while 2 * i + 1 < n {
        let j = below(s, h, n, i);
        if is_before(s, h[i], h[j]) {
            swap(h, i, j);
            i = j;
        } else {
            return;
        }
    }
}

// The place p goes into the heap of n, in place of the greatest where there is no room.
fn put(s: &[u8], h: &mut [u32], n: usize, p: u32) -> usize
    requires { n ≤ length h.old }
    ensures size { result ≤ length h.old }
    ensures cells { KeptOr n result p h.old h.new }
{
    if n < h.len() {
        h[n] = p;
        rise(s, h, n);
        return n + 1;
    }
    if 0 < n {
        if is_before(s, p, h[0]) {
            h[0] = p;
            sink(s, h, n);
        }
    }
    n
}

// The same, if the name at p is still to come after the pass that ended with `last`.
fn put_due(s: &[u8], h: &mut [u32], n: usize, last: u32, p: u32) -> usize
    requires { n ≤ length h.old }
    ensures size { result ≤ length h.old }
    ensures cells { KeptOr n result p h.old h.new }
{
    if p == last {
        return n;
    }
    if is_before(s, p, last) {
        return n;
    }
    put(s, h, n, p)
}

// Of the attributes that are due the first by name, as many as h has room for.
fn collect(s: &[u8], from: usize, last: u32, h: &mut [u32]) -> usize
    requires { length s.now < 4294967296 }
    ensures size { result ≤ length h.old }
    ensures cells { Cells (bears_at s.now from) result h.new }
{
    let mut n = 0;
    let mut i = from;
    while i < s.len() {
        if let Piece::Attribute {
            at,
            name: _,
            value: _,
            len: _,
            next,
        } = piece_at(rest(s, i))
        {
            n = put_due(s, h, n, last, (i + at) as u32);
            i += next;
        } else {
            return n;
        }
    }
    n
}

// Whether the n names of the heap come off it strictly falling, down to a last one that is greater than that at `last`.
// Where they do not, the cell in front has a name that is there again.
fn falls(s: &[u8], last: u32, h: &mut [u32], n: usize) -> bool
    requires { (0 < n) × (n ≤ length h.old) }
    ensures { result ≡ true → Fallen s.now last n h.old }
{
    let mut k = n;
    while 1 < k {
        let top = h[0];
        k -= 1;
        h[0] = h[k];
        sink(s, h, k);
        if !is_before(s, h[0], top) {
            return false;
        }
    }
    is_before(s, last, h[0])
}

// What the name at p tells, if it is there twice; else each is looked for.
fn decided(s: &[u8], from: usize, p: u32) -> bool
    ensures { result ≡ twice_in (ends s.now from) }
{
    if 2 <= count_bearers(s, from, name_at(s, p as usize)) {
        return true;
    }
    by_pairs(s, from)
}

// Passes that take up the names in their order. If all n attributes are seen with names that rise strictly, no name is there twice.
fn by_order(s: &[u8], from: usize, n: usize, h: &mut [u32]) -> bool
    requires { (length s.now < 4294967296) × (n ≡ length (attributes_of (ends s.now from))) × (0 < n) }
    ensures { result ≡ twice_in (ends s.now from) }
{
    let mut last = s.len() as u32;
    let mut seen = 0;
    while seen < n {
        let k = collect(s, from, last, h);
        if k == 0 {
            return by_pairs(s, from);
        }
        let top = h[0];
        if falls(s, last, h, k) {
            seen += k;
            last = top;
        } else {
            return decided(s, from, h[0]);
        }
    }
    false
}

// The heap's 64 KB are cleared here alone, so that a tag of few attributes does not pay for them.
fn by_heap(s: &[u8], from: usize, n: usize) -> bool
    requires { (length s.now < 4294967296) × (n ≡ length (attributes_of (ends s.now from))) × (0 < n) }
    ensures { result ≡ twice_in (ends s.now from) }
{
    let mut h = [0u32; 16384];
    by_order(s, from, n, &mut h)
}

// "An attribute twice in a tag": whether the tag at the front of s has one, s being read from the place `from` on, after its name.
// Up to 16 attributes the pairs are the quicker way; and a place in a tag of 4 GB or more is no u32.
// Ruled out: true for two names of which one only begins with the other; false where the two do not stand side by side; true for a torn tag.
pub fn has_twice(s: &[u8], from: usize) -> bool
    ensures { result ≡ twice_in (ends s.now from) }
{
    let n = count_attributes(s, from);
    if n < 2 {
        return false;
    }
    if 16 < n {
        if s.len() < 4294967296 {
            return by_heap(s, from, n);
        }
    }
    by_pairs(s, from)
}
