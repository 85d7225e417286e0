// What refuses the tables with 18.
ghost use Rattle.std.specs.Prelude.{◌≡◌, ◌<◌, pos, length, get_or};
ghost use Rattle.totals.specs.Given.{handed_of};
ghost use Rattle.totals.specs.Rules.{has_totals, period_allows, count_allowed, pos_allowed, size_allowed, row_allowed, all_below, end_row, due_row, series_allowed, is_allowed};

use crate::sums::{TOO_LARGE, shifted};
use series::{Field, field_of, rows_in};
use tables::number_at;

const MOST_QUARTERS: u32 = 35136;

const MOST_INTERVALS: u32 = 100;

#[tactic(auto, unfolding(crate::specs::Rules::has_totals))]
fn has_totals(kind: u32) -> bool
    ensures { result ≡ has_totals kind }
{
    (1..=3).contains(&kind)
}

#[tactic(auto, unfolding(crate::specs::Rules::period_allows))]
fn period_allows(kind: u32, n: u32) -> bool
    ensures { result ≡ period_allows kind n }
{
    if kind == 1 {
        return n == 92 || n == 96 || n == 100;
    }
    (1..=MOST_QUARTERS).contains(&n)
}

#[tactic(auto, unfolding(crate::specs::Rules::count_allowed))]
fn is_count_allowed(kind: u32, quarters: u32, n: u32) -> bool
    ensures { result ≡ count_allowed kind quarters n }
{
    if kind == 1 {
        return n == quarters;
    }
    1 <= n && (kind == 2 || n <= MOST_INTERVALS)
}

#[tactic(auto, unfolding(crate::specs::Rules::pos_allowed))]
fn is_pos_allowed(kind: u32, quarters: u32, positions: &[u32], j: usize) -> bool
    requires { j < length positions.now }
    ensures { result ≡ pos_allowed kind quarters positions.now j }
{
    let p = number_at(positions, j);
    if quarters < p {
        return false;
    }
    if kind == 2 {
        if j == 0 {
            return p == 1;
        }
        let before = number_at(positions, j - 1);
        return before < p;
    }
    p as usize == j + 1
}

fn is_size_allowed(a: i64) -> bool
    ensures { result ≡ size_allowed a }
{
    let b = shifted(a);
    (1..2 * TOO_LARGE).contains(&b)
}

#[tactic(auto, unfolding(crate::specs::Rules::size_allowed))]
fn is_amount_allowed(amounts: &[i64], j: usize) -> bool
    ensures { result ≡ size_allowed (get_or amounts.now j (pos 0)) }
{
    if j < amounts.len() {
        is_size_allowed(amounts[j])
    } else {
        true
    }
}

#[tactic(auto, unfolding(crate::specs::Rules::row_allowed))]
fn is_row_allowed(kind: u32, quarters: u32, positions: &[u32], amounts: &[i64], j: usize) -> bool
    requires { j < length positions.now }
    ensures { result ≡ row_allowed kind quarters positions.now amounts.now j }
{
    is_pos_allowed(kind, quarters, positions, j) && is_amount_allowed(amounts, j)
}

fn are_rows_allowed(kind: u32, quarters: u32, positions: &[u32], amounts: &[i64]) -> bool
    ensures { result ≡ all_below (row_allowed kind quarters positions.now amounts.now) (length positions.now) }
{
    (0..positions.len()).all(|j| is_row_allowed(kind, quarters, positions, amounts, j))
}

// The row after those of series i.
#[tactic(auto, unfolding(crate::specs::Rules::end_row))]
pub(crate) fn end_row(series: &[u32], i: u32) -> usize
    ensures { result ≡ end_row series.now i }
{
    field_of(series, i, Field::FirstRow) as usize + field_of(series, i, Field::Count) as usize
}

#[tactic(auto, unfolding(crate::specs::Rules::due_row))]
fn due_row(series: &[u32], i: u32) -> usize
    ensures { result ≡ due_row series.now i }
{
    if i == 0 { 0 } else { end_row(series, i - 1) }
}

// What a call is given: kind and N of a sheet, the number of its series, and its tables.
#[derive(Clone, Copy)]
pub(crate) struct Given<'a> {
    pub(crate) kind: u32,
    pub(crate) quarters: u32,
    pub(crate) count: u32,
    pub(crate) series: &'a [u32],
    pub(crate) positions: &'a [u32],
    pub(crate) amounts: &'a [i64],
}

impl Given<'_> {
    fn is_series_allowed(self, i: u32) -> bool
        ensures { result ≡ series_allowed (handed_of self.entry) i }
    {
        let positions = self.positions;
        let amounts = self.amounts;
        let first = field_of(self.series, i, Field::FirstRow) as usize;
        let n = field_of(self.series, i, Field::Count);
        let end = first + n as usize;
        if positions.len() < end {
            return false;
        }
        if amounts.len() < end {
            return false;
        }
        let due = due_row(self.series, i);
        if first != due {
            return false;
        }
        if is_count_allowed(self.kind, self.quarters, n) {
            return are_rows_allowed(
                self.kind,
                self.quarters,
                &positions[first..end],
                &amounts[first..end],
            );
        }
        false
    }

    fn all_allowed(self) -> bool
        ensures { result ≡ all_below (series_allowed (handed_of self.entry)) self.entry.count }
    {
        (0..self.count).all(|i| self.is_series_allowed(i))
    }

    #[tactic(auto, unfolding(crate::specs::Rules::is_allowed))]
    pub(crate) fn is_allowed(self) -> bool
        ensures { result ≡ is_allowed (handed_of self.entry) }
    {
        has_totals(self.kind)
            && period_allows(self.kind, self.quarters)
            && self.count as usize <= rows_in(self.series.len())
            && self.all_allowed()
    }
}
