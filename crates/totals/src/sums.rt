// Sums in two words. One series passes an i64 in thousandths, so whole numbers and thousandths are added apart; and 10^15 is added to each amount, so that no
// sum is below 0 before the end. 200 series of 35,136 quarter hours then stay below 2^64 in whole numbers.
ghost use Rattle.std.specs.Prelude.{◌≡◌, true, [], ◌∷◌, ◌+◌, ◌*◌, ◌≤◌, ◌<◌, pos, length, set};
ghost use Rattle.std.proofs.Math.IntN.{sub_ℕ};
ghost use Rattle.tables.specs.Cells.{no_amounts};
ghost use Rattle.totals.specs.Given.{handed_of};
ghost use Rattle.totals.specs.Rules.{most_series, most_quarters, too_large, is_allowed, own_of};
ghost use Rattle.totals.specs.Totals.{last_quarter, added, each_total, pair_cells, stands_from};
ghost use Rattle.totals.specs.Shifted.{shifted_of, added_from, shifted_at, held_in, Holds, shift, most_held, Rising, Adds};

use crate::allowed::{Given, end_row};
use series::{Field, field_of};
use tables::set_amount;

// 10^15, and what it is in whole numbers.
pub(crate) const TOO_LARGE: u64 = 1_000_000_000_000_000;

const SHIFT: u64 = 1_000_000_000_000;

// 1000 times `whole` and `rest`, which is below 1000.
#[derive(Clone, Copy)]
pub(crate) struct Words {
    whole: u64,
    rest: u64,
}

// -1 - a is never too large, where -a is for the least number.
pub(crate) fn shifted(a: i64) -> u64
    ensures { result ≡ shifted_of a }
{
    if 0 <= a {
        return TOO_LARGE + a as u64;
    }
    let size = -1 - a;
    let n = size as u64 + 1;
    if n <= TOO_LARGE { TOO_LARGE - n } else { 0 }
}

// b, n times more.
fn with_times(w: Words, b: u64, n: u64) -> Words
    requires held { held_in w ≤ most_held most_quarters }
    requires rest { w.rest < 1000 }
    requires amount { b < 2 * too_large }
    requires times { n ≤ most_quarters }
    ensures { Holds result (held_in w + b * n) }
{
    let rest = w.rest + b % 1000 * n;
    let whole = w.whole + b / 1000 * n + rest / 1000;
    Words {
        whole,
        rest: rest % 1000,
    }
}

fn with_words(w: Words, v: Words) -> Words
    requires held { held_in w ≤ most_held (most_series * most_quarters) }
    requires rest { w.rest < 1000 }
    requires more { held_in v ≤ most_held most_quarters }
    requires morerest { v.rest < 1000 }
    ensures { Holds result (held_in w + held_in v) }
{
    let rest = w.rest + v.rest;
    let whole = w.whole + v.whole + rest / 1000;
    Words {
        whole,
        rest: rest % 1000,
    }
}

// The quarter hour in which row j begins to stand; after the last row, the one after the last quarter hour.
#[tactic(auto, unfolding(crate::specs::Totals::stands_from))]
fn stands_from(positions: &[u32], last: u32, j: usize) -> u32
    requires { last ≤ most_quarters }
    ensures { result ≡ stands_from positions.now last j }
{
    if j < positions.len() {
        positions[j]
    } else {
        last + 1
    }
}

// The quarter hours from 1 to `last`, each with what stands there.
fn rows_sum(positions: &[u32], amounts: &[i64], last: u32) -> Words
    requires { Rising positions.now amounts.now last }
    ensures { Holds result (added_from (shifted_at positions.now amounts.now) 1 last) }
{
    let mut w = Words { whole: 0, rest: 0 };
    for j in 0..positions.len() {
        let p = stands_from(positions, last, j);
        let next = stands_from(positions, last, j + 1);
        let n = next - p;
        let a = amounts[j];
        w = with_times(w, shifted(a), n as u64);
    }
    w
}

#[tactic(auto, unfolding(crate::specs::Totals::last_quarter))]
fn last_quarter(kind: u32, quarters: u32, n: u32) -> u32
    ensures { result ≡ last_quarter kind quarters n }
{
    if kind == 2 { quarters } else { n }
}

fn series_sum(series: &[u32], positions: &[u32], amounts: &[i64], i: u32, last: u32) -> Words
    requires { Adds series.now positions.now amounts.now i last }
    ensures { Holds result (added_from (shifted_at (own_of series.now i positions.now) (own_of series.now i amounts.now)) 1 last) }
{
    let first = field_of(series, i, Field::FirstRow) as usize;
    let end = end_row(series, i);
    rows_sum(&positions[first..end], &amounts[first..end], last)
}

// w less v.
fn whole_less(w: u64, v: u64) -> i64
    requires above { w < v + 9223372036854775808 }
    requires below { v < w + 9223372036854775808 }
    ensures { result ≡ sub_ℕ w v }
{
    if v <= w {
        return (w - v) as i64;
    }
    let n = v - w - 1;
    -1 - (n as i64)
}

// The pair of a sum over n quarter hours.
fn put_pair(t: &mut [i64], at: usize, w: Words, n: u64)
    requires place { at ≤ 2 * most_series }
    requires quarters { n ≤ most_series * most_quarters }
    requires held { held_in w ≤ most_held n }
    requires rest { w.rest < 1000 }
    ensures { t.new ≡ set (set t.old at (sub_ℕ w.whole (shift * n))) (at + 1) (pos w.rest) }
{
    let whole = w.whole;
    let rest = w.rest;
    set_amount(t, at, whole_less(whole, SHIFT * n));
    set_amount(t, at + 1, rest as i64);
}

impl Given<'_> {
    pub(crate) fn put_totals(self, totals: &mut [i64], sum: &mut [i64])
        requires allowed { is_allowed (handed_of self) ≡ true }
        requires most { self.count ≤ most_series }
        requires blank { totals.old ≡ no_amounts (length totals.old) }
        requires empty { sum.old ≡ no_amounts (length sum.old) }
        ensures each { totals.new ≡ pair_cells (length totals.old) (each_total (handed_of self.entry)) }
        ensures all { sum.new ≡ pair_cells (length sum.old) (added (each_total (handed_of self.entry)) ∷ []) }
    {
        let mut w = Words { whole: 0, rest: 0 };
        let mut n: u64 = 0;
        for i in 0..self.count {
            let last = last_quarter(
                self.kind,
                self.quarters,
                field_of(self.series, i, Field::Count),
            );
            let v = series_sum(self.series, self.positions, self.amounts, i, last);
            put_pair(totals, 2 * (i as usize), v, last as u64);
            w = with_words(w, v);
            n += last as u64;
        }
        put_pair(sum, 0, w, n);
    }
}
