// Check numbers of lent tables: one number made of all cells in their order, so that a line can show a whole table.
ghost use Rattle.std.specs.Prelude.{◌≡◌, map};
ghost use Rattle.samples_run.specs.Sums.{next, sum_from, residue_of};

// The check number after one cell more.
fn next_sum(h: u32, c: u32) -> u32
    ensures { result ≡ next h c }
{
    let wide = h as u64 * 31 + c as u64;
    (wide % 4294967296) as u32
}

// The last 32 bits of an amount in two's complement. -1 - a is never too large, where -a is for the least number.
fn residue(a: i64) -> u32
    ensures { result ≡ residue_of a }
{
    if 0 <= a {
        return (a as u64 % 4294967296) as u32;
    }
    let size = -1 - a;
    4294967295 - (size as u64 % 4294967296) as u32
}

// The check number of a table of numbers.
// Ruled out: a cell left out, the last say, and the cells counted from the back.
pub(crate) fn sum_of_numbers(t: &[u32]) -> u32
    ensures { result ≡ sum_from 0 t.now }
{
    let mut h: u32 = 0;
    for i in 0..t.len() {
        h = next_sum(h, t[i]);
    }
    h
}

// The check number of a table of amounts.
// Ruled out: an amount counted without its sign, and its upper half counted in.
pub(crate) fn sum_of_amounts(t: &[i64]) -> u32
    ensures { result ≡ sum_from 0 (map residue_of t.now) }
{
    let mut h: u32 = 0;
    for i in 0..t.len() {
        h = next_sum(h, residue(t[i]));
    }
    h
}
