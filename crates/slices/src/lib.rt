// Slices read as if they had no end: a byte past the end is 0, a part past the end is empty.
// So no caller tests a length before it looks, and no definition does.
#![tactic(auto)]

ghost use Rattle.std.specs.Prelude.{◌≡◌, ℕ, Bool, ◌-◌, ◌≤◌, length, take, drop};
ghost use Rattle.slices.specs.Bytes.{byte};
ghost use Rattle.slices.specs.Part.{part_of};
ghost use Rattle.slices.specs.Same.{same, begins, first_at};
ghost use Rattle.slices.specs.Run.{run};

// Where a part of a slice stands. Of an attribute's value it is counted from the first byte of its tag, and a start of 0 says that it is not there.
#[derive(Clone, Copy)]
pub struct Span {
    pub start: usize,
    pub len: usize,
}

// The byte at i, and 0 past the end.
// Ruled out: the last byte for an i past the end; the byte after i.
pub fn byte_at(s: &[u8], i: usize) -> u8
    ensures { result ≡ byte s.now i }
{
    if i < s.len() { s[i] } else { 0 }
}

// The part of s from n on, empty where n is past the end.
// Ruled out: the part from n + 1 on; all of s for an n past the end.
pub fn rest(s: &[u8], n: usize) -> &[u8]
    ensures list { result.now ≡ drop n s.now }
    ensures size { length result.now ≡ length s.now - n }
{
    if n <= s.len() { &s[n..] } else { &s[s.len()..] }
}

// The first n bytes of s, all of it where it is shorter.
// Ruled out: nothing where s is shorter; the last n bytes.
pub fn front(s: &[u8], n: usize) -> &[u8]
    ensures list { result.now ≡ take n s.now }
    ensures size { length result.now ≤ n }
{
    if n <= s.len() { &s[..n] } else { s }
}

// The n bytes of s from at on, fewer where s ends before.
// Ruled out: the n bytes before at; bytes past n.
pub fn part(s: &[u8], at: usize, n: usize) -> &[u8]
    ensures { result.now ≡ part_of s.now at n }
{
    front(rest(s, at), n)
}

// Whether two slices hold the same bytes.
// Ruled out: true where one only begins with the other; false for two empty ones.
#[tactic(auto, using(crate::proofs::Sames::same_pointwise))]
pub fn is_same(a: &[u8], b: &[u8]) -> bool
    ensures { result ≡ same a.now b.now }
{
    a == b
}

// Whether s begins with t.
// Ruled out: true where s is only the first part of t; false where s is t.
#[tactic(auto, using(crate::proofs::Sames::same_pointwise), unfolding(crate::specs::Same::begins))]
pub fn begins_with(t: &[u8], s: &[u8]) -> bool
    ensures { result ≡ begins t.now s.now }
{
    s.starts_with(t)
}

// Where t first stands in s, and the length of s where it does not.
// Ruled out: a later place; a place where only a first part of t stands.
pub fn first_at(t: &[u8], s: &[u8]) -> usize
    ensures place { result ≡ first_at t.now s.now }
    ensures size { result ≤ length s.now }
{
    for i in 0..s.len() {
        if begins_with(t, &s[i..]) {
            return i;
        }
    }
    s.len()
}

// A test of bytes, of which a run is told.
pub trait ByteTest {
    ghost test: { Self → ℕ → Bool };

    fn passes(self, b: u8) -> bool
        ensures { result ≡ test self b };
}

// How many bytes at the front of s pass a test.
// Ruled out: a length that takes in the first byte that does not pass; one that stops before it.
pub fn run_len<T: ByteTest + Copy>(s: &[u8], test: T) -> usize
    ensures run { result ≡ run (T.test test) s.now }
    ensures size { result ≤ length s.now }
{
    for i in 0..s.len() {
        if !test.passes(s[i]) {
            return i;
        }
    }
    s.len()
}
