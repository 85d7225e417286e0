// Numbers and amounts, as 01 writes them in values. Every character is read by `said_at`.
#![tactic(auto)]

ghost use Rattle.std.specs.Prelude.{◌≡◌, ◌+◌, ◌*◌, ◌<◌, ◌≤◌, ◌^◌, ltb, take, drop, unwrap_or};
ghost use Rattle.characters.specs.Says.{says};
ghost use Rattle.numbers.specs.Digits.{digits, number_from, nothing_left};
ghost use Rattle.numbers.specs.Number.{at_most_nine, number_within, number_of};
ghost use Rattle.numbers.specs.Amount.{minus, unsigned, amount_of};
ghost use Rattle.numbers.specs.Parts.{point_of, fraction_of, unsigned_of, signed_of};

use characters::said_at;
use pictures::is_digit;
use slices::rest;

// Digits at the front of a value: how many, the number that they say, and the place of the byte after them.
#[derive(Clone, Copy)]
struct Digits {
    count: usize,
    value: u64,
    end: usize,
}

fn digits_of(v: &[u8], most: usize, before: u64) -> Digits
    requires { (before + 1) * 10 ^ most ≤ 10 ^ 15 }
    ensures count { result.count ≡ digits most (says v.now) }
    ensures value { result.value ≡ number_from before (take result.count (says v.now)) }
    ensures left { says (drop result.end v.now) ≡ drop result.count (says v.now) }
    ensures size { (result.count ≤ most) × (result.value < (before + 1) * 10 ^ result.count) }
{
    let mut count = 0;
    let mut value = before;
    let mut end = 0;
    while end < v.len() {
        if most <= count {
            return Digits { count, value, end };
        }
        let Some((c, k)) = said_at(&v[end..]) else {
            return Digits { count, value, end };
        };
        if is_digit(c) {
            value = value * 10 + ((c - 0x30) as u64);
            end += k;
            count += 1;
        } else {
            return Digits { count, value, end };
        }
    }
    Digits { count, value, end }
}

fn is_over(v: &[u8]) -> bool
    ensures { result ≡ nothing_left (says v.now) }
{
    said_at(v).is_none()
}

#[tactic(auto, unfolding(crate::specs::Number::at_most_nine))]
fn at_most_nine(most: usize) -> usize
    ensures most { result ≡ at_most_nine most }
    ensures size { result ≤ 9 }
{
    if most < 9 { most } else { 9 }
}

fn number_within(v: &[u8], most: usize) -> Option<u32>
    requires { most ≤ 9 }
    ensures { result ≡ number_within most (says v.now) }
{
    match said_at(v) {
        None => None,
        Some((c, _)) => {
            if c == 0x30 {
                return None;
            }
            let d = digits_of(v, most, 0);
            if d.count == 0 || !is_over(rest(v, d.end)) {
                return None;
            }
            Some(d.value as u32)
        }
    }
}

// A number of at most `most` digits; nine at most.
// Ruled out: a number for `0`, `07` or `1x`; none for `999` where most is 3; a number for `1000` there.
#[tactic(auto, unfolding(crate::specs::Number::number_of))]
pub fn number_of(v: &[u8], most: usize) -> Option<u32>
    ensures { result ≡ number_of (says v.now) most }
{
    number_within(v, at_most_nine(most))
}

// What stands after a point: 1 to 3 digits.
fn point_of(s: &[u8], whole: u64) -> Option<u64>
    requires { whole < 10 ^ 12 }
    ensures parts { result ≡ point_of (says s.now) whole }
    ensures size { unwrap_or result 0 < 10 ^ 17 }
{
    let d = digits_of(s, 3, whole);
    if d.count == 0 || !is_over(rest(s, d.end)) {
        return None;
    }
    match d.count {
        1 => Some(d.value * 100),
        2 => Some(d.value * 10),
        _ => Some(d.value),
    }
}

// What follows the digits before the point: nothing, or a point with digits.
fn fraction_of(s: &[u8], whole: u64) -> Option<u64>
    requires { whole < 10 ^ 12 }
    ensures parts { result ≡ fraction_of (says s.now) whole }
    ensures size { unwrap_or result 0 < 10 ^ 17 }
{
    match said_at(s) {
        None => Some(whole * 1000),
        Some((c, n)) => {
            if c == 0x2E {
                point_of(rest(s, n), whole)
            } else {
                None
            }
        }
    }
}

// An amount with no sign, in thousandths.
fn unsigned_of(s: &[u8]) -> Option<u64>
    ensures parts { result ≡ unsigned_of (says s.now) }
    ensures size { unwrap_or result 0 < 10 ^ 17 }
{
    let d = digits_of(s, 12, 0);
    if d.count == 0 {
        return None;
    }
    fraction_of(rest(s, d.end), d.value)
}

fn signed_of(minus: bool, u: Option<u64>) -> Option<i64>
    requires { unwrap_or u 0 < 10 ^ 17 }
    ensures { result ≡ signed_of minus u }
{
    let n = u? as i64;
    Some(if minus { -n } else { n })
}

// How many bytes a minus at the front takes, 0 where there is none.
fn minus_len(v: &[u8]) -> usize
    ensures sign { ltb 0 result ≡ minus (says v.now) }
    ensures left { says (drop result v.now) ≡ unsigned (says v.now) }
{
    let Some((c, n)) = said_at(v) else {
        return 0;
    };
    if c == 0x2D { n } else { 0 }
}

// An amount in thousandths; its spaces are dropped already.
// Ruled out: -5 for `-0.05`; an amount for `5.`, `.5`, `+5`, `1.0000` or thirteen digits; none for `-0` or for twelve nines.
pub fn amount_of(v: &[u8]) -> Option<i64>
    ensures { result ≡ amount_of (says v.now) }
{
    let n = minus_len(v);
    signed_of(0 < n, unsigned_of(rest(v, n)))
}
