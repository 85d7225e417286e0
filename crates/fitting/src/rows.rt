// The series of a draft: what of the tables is lent, the rules of a series, and of the series beside each other.
ghost use Rattle.std.specs.Prelude.{◌≡◌, ◌≤◌, length};
ghost use Rattle.fitting.specs.Told.{count_lent, amount_told, row_told, rows_told, count_told, rows_lent, series_told, used_before, every_told};

use crate::values::{originals_in, singles_fit};
use columns::SERIES_ROLE;
use drafts::{HEADER_PAIRS, SERIES_PAIRS, role_row, shown};
use guideline::{has_enough, kind_at, takes_another};
use rules::is_position;
use series::{Field, field_of, rows_in};
use slices::is_same;
use tables::{amount_at, number_at};
use times::quarter_hours;

// The most that a Pos of five digits can be.
const MOST_POS: u32 = 99999;

// An amount of so many thousandths in size has too many digits.
const TOO_LARGE: i64 = 1000000000000000;

// Whether there are as many pairs and series as are counted, and one series at least.
pub(crate) fn is_count_lent(pairs: &[u32], count: u32, series: &[u32]) -> bool
    ensures { result ≡ count_lent (length pairs.now) count (length series.now) }
{
    let n = count as usize;
    if n < 1 {
        return false;
    }
    if pairs.len() < 2 * (HEADER_PAIRS + SERIES_PAIRS * n) {
        return false;
    }
    n <= rows_in(series.len())
}

fn is_amount_told(a: i64) -> bool
    ensures { result ≡ amount_told a }
{
    -TOO_LARGE < a && a < TOO_LARGE
}

// Whether a Pos comes after the last one, and its amount can be written.
fn row_fits(kind: u32, quarters: u32, last: u32, p: u32, a: i64) -> bool
    ensures { result ≡ row_told kind quarters last p a }
{
    if MOST_POS < p {
        return false;
    }
    if !is_position(kind, quarters, last, p) {
        return false;
    }
    is_amount_told(a)
}

fn rows_fit(
    kind: u32,
    quarters: u32,
    positions: &[u32],
    amounts: &[i64],
    first: u32,
    count: u32,
) -> bool
    ensures { result ≡ rows_told kind quarters positions.now amounts.now 0 first count }
{
    let end = first as usize + count as usize;
    let mut last: u32 = 0;
    for j in first as usize..end {
        let p = number_at(positions, j);
        if !row_fits(kind, quarters, last, p, amount_at(amounts, j)) {
            return false;
        }
        last = p;
    }
    true
}

// Whether a Period may have so many Intervals.
fn count_fits(kind: u32, quarters: u32, n: u32) -> bool
    ensures { result ≡ count_told kind quarters n }
{
    if n == 0 {
        return false;
    }
    if !has_enough(kind, n as usize) {
        return false;
    }
    if !takes_another(kind, n as usize - 1) {
        return false;
    }
    if kind_at(kind).full {
        n == quarters
    } else {
        true
    }
}

// Whether the rows of a series are all in both tables.
fn are_rows_lent(first: u32, count: u32, positions: &[u32], amounts: &[i64]) -> bool
    ensures { result ≡ rows_lent first count (length positions.now) (length amounts.now) }
{
    let end = first as usize + count as usize;
    end <= positions.len() && end <= amounts.len()
}

// Series i, whose values stand in the rows from `row` on and whose first pair is k.
fn series_fits(
    kind: u32,
    from: u32,
    to: u32,
    text: &[u8],
    pairs: &[u32],
    rows: &[usize],
    row: usize,
    k: usize,
    first: u32,
    count: u32,
    positions: &[u32],
    amounts: &[i64],
) -> bool
    requires rows { length rows.now ≤ 34 }
    requires pair { k ≤ 99999999000 }
    ensures { result ≡ series_told kind from to text.now pairs.now rows.now row k first count positions.now amounts.now }
{
    if !are_rows_lent(first, count, positions, amounts) {
        return false;
    }
    let quarters = quarter_hours(from, to);
    if !count_fits(kind, quarters, count) {
        return false;
    }
    if !singles_fit(kind, from, to, text, pairs, rows, row, k) {
        return false;
    }
    let originals = originals_in(pairs, rows, row, k);
    if originals != 0 && originals != 5 {
        return false;
    }
    rows_fit(kind, quarters, positions, amounts, first, count)
}

// Whether a series before series i has its identification, which is the first value of a series.
fn is_used_before(text: &[u8], pairs: &[u32], i: u32) -> bool
    ensures { result ≡ used_before text.now pairs.now i i }
{
    let id = shown(
        text,
        pairs,
        2 * (HEADER_PAIRS + SERIES_PAIRS * (i as usize)),
    );
    for j in 0..i {
        if is_same(
            id,
            shown(
                text,
                pairs,
                2 * (HEADER_PAIRS + SERIES_PAIRS * (j as usize)),
            ),
        ) {
            return true;
        }
    }
    false
}

pub(crate) fn every_series_fits(
    kind: u32,
    from: u32,
    to: u32,
    text: &[u8],
    pairs: &[u32],
    rows: &[usize],
    count: u32,
    series: &[u32],
    positions: &[u32],
    amounts: &[i64],
) -> bool
    requires rows { length rows.now ≤ 34 }
    ensures { result ≡ every_told kind from to text.now pairs.now rows.now series.now positions.now amounts.now 0 count }
{
    let row = role_row(rows, SERIES_ROLE) + 1;
    for i in 0..count {
        let k = HEADER_PAIRS + SERIES_PAIRS * (i as usize);
        let first = field_of(series, i, Field::FirstRow);
        let n = field_of(series, i, Field::Count);
        if !series_fits(
            kind, from, to, text, pairs, rows, row, k, first, n, positions, amounts,
        ) || is_used_before(text, pairs, i)
        {
            return false;
        }
    }
    true
}
