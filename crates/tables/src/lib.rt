// The cells of lent tables: all made 0, one set, or one read. A cell past the end is none: setting it changes nothing, and it is read as 0.
#![tactic(auto)]

ghost use Rattle.std.specs.Prelude.{◌≡◌, length, get_or, set, pos};
ghost use Rattle.lists.specs.Zeros.{zeros};
ghost use Rattle.tables.specs.Cells.{no_amounts};

// Makes every number 0. Ruled out: a cell left as it was (the last, say), and another value than 0 anywhere.
pub fn clear_numbers(t: &mut [u32])
    ensures { t.new ≡ zeros (length t.old) }
{
    t.fill(0);
}

// Makes every amount 0. Ruled out: a cell left as it was (the last, say), and another value than 0 anywhere.
pub fn clear_amounts(t: &mut [i64])
    ensures { t.new ≡ no_amounts (length t.old) }
{
    t.fill(0);
}

// Sets cell i to n. Ruled out: another cell set, and a cell left as it was where there is one.
pub fn set_number(t: &mut [u32], i: usize, n: u32)
    ensures { t.new ≡ set t.old i n }
{
    if i < t.len() {
        t[i] = n;
    }
}

// Sets cell i to a. Ruled out: another cell set, and an amount without its sign.
pub fn set_amount(t: &mut [i64], i: usize, a: i64)
    ensures { t.new ≡ set t.old i a }
{
    if i < t.len() {
        t[i] = a;
    }
}

// The number in cell i. Ruled out: the last cell for one past the end.
pub fn number_at(t: &[u32], i: usize) -> u32
    ensures { result ≡ get_or t.now i 0 }
{
    if i < t.len() { t[i] } else { 0 }
}

// The amount in cell i. Ruled out: an amount without its sign.
pub fn amount_at(t: &[i64], i: usize) -> i64
    ensures { result ≡ get_or t.now i (pos 0) }
{
    if i < t.len() { t[i] } else { 0 }
}
