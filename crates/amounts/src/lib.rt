// Amounts and positions as text. Each is put into the lent bytes from the first of them on, as far as they reach; the length of the whole is answered.
#![tactic(auto)]

ghost use Rattle.std.specs.Prelude.{◌≡◌, ◌+◌, ◌<◌, ◌≤◌, length, set};
ghost use Rattle.std.proofs.lemmas.List.Edits.{sets};
ghost use Rattle.wholes.specs.Whole.{numeral, whole_text};
ghost use Rattle.amounts.specs.Texts.{fraction_text, unsigned_text, amount_text};

const MINUS: u8 = 0x2D;

const POINT: u8 = 0x2E;

// Sets the byte at i; past the end there is none.
fn set_byte(t: &mut [u8], i: usize, b: u8)
    ensures { t.new ≡ set t.old i b }
{
    if i < t.len() {
        t[i] = b;
    }
}

fn numeral(d: u64) -> u8
    requires { d < 10 }
    ensures { result ≡ numeral d }
{
    0x30 + d as u8
}

// Puts n from the place `at` on and answers the place after it. Twenty calls at most, one for each digit.
fn put_whole(free: &mut [u8], at: usize, n: u64) -> usize
    requires { at ≤ 1 }
    ensures end { result ≡ at + length (whole_text n) }
    ensures buffer { free.new ≡ sets free.old at (whole_text n) }
{
    if n < 10 {
        set_byte(free, at, numeral(n));
        return at + 1;
    }
    let end = put_whole(free, at, n / 10);
    set_byte(free, end, numeral(n % 10));
    end + 1
}

// Puts what stands after the whole number for f thousandths.
fn put_fraction(free: &mut [u8], at: usize, f: u64) -> usize
    requires place { at ≤ 21 }
    requires part { f < 1000 }
    ensures end { result ≡ at + length (fraction_text f) }
    ensures buffer { free.new ≡ sets free.old at (fraction_text f) }
{
    if f == 0 {
        return at;
    }
    set_byte(free, at, POINT);
    set_byte(free, at + 1, numeral(f / 100));
    if f % 100 == 0 {
        return at + 2;
    }
    set_byte(free, at + 2, numeral(f / 10 % 10));
    if f % 10 == 0 {
        return at + 3;
    }
    set_byte(free, at + 3, numeral(f % 10));
    at + 4
}

fn put_unsigned(free: &mut [u8], at: usize, n: u64) -> usize
    requires { at ≤ 1 }
    ensures end { result ≡ at + length (unsigned_text n) }
    ensures buffer { free.new ≡ sets free.old at (unsigned_text n) }
{
    let end = put_whole(free, at, n / 1000);
    put_fraction(free, end, n % 1000)
}

// "Amounts are shortest: no leading zeros but one before a point, no trailing fraction zeros, no minus at zero." An amount of 10^15 thousandths or more
// in size, which no reader takes, is put with all its digits.
// Ruled out: `0.50`, `5.`, `5.0`, `007`, `.5`, `-0`; an amount without its sign; a byte past the text, or the length of what there was room for.
pub fn put_amount(free: &mut [u8], amount: i64) -> usize
    ensures answer { result ≡ length (amount_text amount) }
    ensures buffer { free.new ≡ sets free.old 0 (amount_text amount) }
{
    if 0 <= amount {
        return put_unsigned(free, 0, amount as u64);
    }
    // -1 - amount is never too large, where -amount is for the least number
    let below = -1 - amount;
    set_byte(free, 0, MINUS);
    put_unsigned(free, 1, below as u64 + 1)
}

// A position: "one to five digits, no leading zero" where it is 1 to 99,999.
// Ruled out: a zero before the number, and the digits in the other order.
pub fn put_position(free: &mut [u8], n: u32) -> usize
    ensures answer { result ≡ length (whole_text n) }
    ensures buffer { free.new ≡ sets free.old 0 (whole_text n) }
{
    put_whole(free, 0, n as u64)
}
