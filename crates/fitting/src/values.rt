// The values of a draft: where they stand in the text, and whether each is what its row asks. The text is literal, so that a value says its own characters, and where
// it has no `&` the reader's rules can be asked as it stands.
ghost use Rattle.std.specs.Prelude.{◌≡◌, ◌+◌, ◌*◌, ◌≤◌, length, drop};
ghost use Rattle.characters.specs.Says.{says};
ghost use Rattle.escapes.specs.Spelled.{chars_of};
ghost use Rattle.views.specs.Layout.{header_pairs, series_pairs};
ghost use Rattle.fitting.specs.Told.{is_text, texts_told, has_ampersand, said_of, is_id, text_fits, scheme_told, single_told, singles_told, originals_told, root_told, covered_pair, covered_told};

use characters::{all_chars, char_at};
use codes::is_listed;
use columns::{
    BY_LIST, IDENTIFICATION_FORM, ORIGINAL_ROLE, PERIOD_FORM, PERIOD_ROLE, SERIES_ID_FORM, form_of,
    is_collapsed, role_of, scheme_of,
};
use drafts::{HEADER_PAIRS, SERIES_PAIRS, is_given, pairs_of, shown};
use guideline::{DTD_MESSAGE, is_fixed};
use rules::{Held, judge_value};
use slices::rest;
use states::{asks_scheme, asks_v};
use structure::is_required;
use tables::number_at;
use times::{interval_of, quarter_hours};
use trims::trimmed;

// The most characters of an identification.
const LONGEST: usize = 35;

const AMPERSAND: u8 = 0x26;

// Whether a pair lies in the text and shows XML characters.
fn is_text(text: &[u8], pairs: &[u32], k: usize) -> bool
    requires { k ≤ 200000000000 }
    ensures { result ≡ is_text text.now pairs.now k }
{
    if text.len() < number_at(pairs, 2 * k) as usize + number_at(pairs, 2 * k + 1) as usize {
        return false;
    }
    all_chars(shown(text, pairs, 2 * k))
}

// The pairs of the header and of so many series, used or not.
pub(crate) fn are_texts(text: &[u8], pairs: &[u32], count: u32) -> bool
    ensures { result ≡ texts_told text.now pairs.now 0 (header_pairs + series_pairs * count) }
{
    let n = HEADER_PAIRS + SERIES_PAIRS * (count as usize);
    for k in 0..n {
        if !is_text(text, pairs, k) {
            return false;
        }
    }
    true
}

fn has_ampersand(v: &[u8]) -> bool
    ensures { result ≡ has_ampersand v.now }
{
    v.contains(&AMPERSAND)
}

// How many characters a text has, in which `&` stands for itself.
fn count_literal(v: &[u8]) -> usize
    ensures { result ≡ length (chars_of v.now) }
{
    let mut n: usize = 0;
    let mut i: usize = 0;
    while i < v.len() {
        let (_, k) = char_at(rest(v, i)).unwrap_or((0, 1));
        i += k;
        n += 1;
    }
    n
}

fn is_id(form: usize) -> bool
    ensures { result ≡ is_id form }
{
    if form == IDENTIFICATION_FORM {
        return true;
    }
    form == SERIES_ID_FORM
}

// A value without `&`, and without the spaces at its ends where the row drops them.
fn said_of(w: usize, v: &[u8]) -> &[u8]
    ensures { says result.now ≡ said_of w v.now }
{
    if is_collapsed(w) {
        return trimmed(v);
    }
    v
}

// Whether `v` is what its row asks. Identifications alone may have an `&`; of them nothing is dropped.
fn text_fits(kind: u32, from: u32, to: u32, w: usize, v: &[u8]) -> bool
    ensures { result ≡ text_fits kind from to w v.now }
{
    let form = form_of(w);
    if is_id(form) {
        return count_literal(v) <= LONGEST;
    }
    if has_ampersand(v) {
        return false;
    }
    let held = Held {
        kind,
        from,
        to,
        quarters: quarter_hours(from, to),
        last: 0,
    };
    judge_value(form, said_of(w, v), held).is_ok()
}

// Whether codingScheme, which is collapsed in every row that has it, is in its code list.
fn scheme_fits(w: usize, v: &[u8]) -> bool
    ensures { result ≡ scheme_told w v.now }
{
    if has_ampersand(v) {
        return false;
    }
    let k = scheme_of(w);
    if k < BY_LIST {
        return false;
    }
    is_listed(k - BY_LIST, trimmed(v))
}

// Whether an element of a single value is as its row asks, or is not there and need not come; its first pair is k.
fn single_fits(
    kind: u32,
    from: u32,
    to: u32,
    text: &[u8],
    pairs: &[u32],
    w: usize,
    k: usize,
) -> bool
    requires { k ≤ 100000000000 }
    ensures { result ≡ single_told kind from to text.now pairs.now w k }
{
    if !is_given(pairs, 2 * k) {
        if is_required(w) {
            return false;
        }
        if asks_scheme(w) {
            return !is_given(pairs, 2 * (k + 1));
        }
        return true;
    }
    if asks_scheme(w) {
        if !is_given(pairs, 2 * (k + 1)) {
            return false;
        }
        if !scheme_fits(w, shown(text, pairs, 2 * (k + 1))) {
            return false;
        }
    }
    text_fits(kind, from, to, w, shown(text, pairs, 2 * k))
}

// The elements of single values from a row on, whose first pair is k, through the Period and up to what else has no `v`: the series, or the Intervals.
pub(crate) fn singles_fit(
    kind: u32,
    from: u32,
    to: u32,
    text: &[u8],
    pairs: &[u32],
    rows: &[usize],
    row: usize,
    k: usize,
) -> bool
    requires rows { length rows.now ≤ 34 }
    requires pair { k ≤ 99999999000 }
    ensures { result ≡ singles_told kind from to text.now pairs.now k (drop row rows.now) }
{
    let mut next = k;
    for q in row..rows.len() {
        let w = rows[q];
        if asks_v(w) {
            if !single_fits(kind, from, to, text, pairs, w, next) {
                return false;
            }
            next += pairs_of(w);
        } else if role_of(w) != PERIOD_ROLE {
            return true;
        }
    }
    true
}

// How many of the five Original elements are there, among the rows up to one that has no `v`.
pub(crate) fn originals_in(pairs: &[u32], rows: &[usize], row: usize, k: usize) -> usize
    requires rows { length rows.now ≤ 34 }
    requires pair { k ≤ 99999999000 }
    ensures { result ≡ originals_told pairs.now k (drop row rows.now) }
{
    let mut n: usize = 0;
    let mut next = k;
    for q in row..rows.len() {
        let w = rows[q];
        if !asks_v(w) {
            return n;
        }
        if role_of(w) == ORIGINAL_ROLE && is_given(pairs, 2 * next) {
            n += 1;
        }
        next += pairs_of(w);
    }
    n
}

// Whether the root has what these two kinds ask: the message's version alone, and its fixed value.
pub(crate) fn root_fits(kind: u32, text: &[u8], pairs: &[u32]) -> bool
    ensures { result ≡ root_told kind text.now pairs.now }
{
    if is_given(pairs, 0) {
        return false;
    }
    if is_given(pairs, 2) {
        return false;
    }
    if !is_given(pairs, 4) {
        return false;
    }
    let v = shown(text, pairs, 4);
    if has_ampersand(v) {
        return false;
    }
    is_fixed(kind, DTD_MESSAGE, v)
}

// The pair of TimePeriodCovered, told by its form, or that after all rows.
fn covered_pair(rows: &[usize]) -> usize
    requires { length rows.now ≤ 34 }
    ensures pair { result ≡ covered_pair 3 (drop 2 rows.now) }
    ensures size { result ≤ 71 }
{
    let mut k: usize = 3;
    for q in 2..rows.len() {
        let w = rows[q];
        if form_of(w) == PERIOD_FORM {
            return k;
        }
        k += pairs_of(w);
    }
    k
}

// TimePeriodCovered, against which later values are held.
pub(crate) fn covered(text: &[u8], pairs: &[u32], rows: &[usize]) -> Option<(u32, u32)>
    requires { length rows.now ≤ 34 }
    ensures { result ≡ covered_told text.now pairs.now rows.now }
{
    let k = covered_pair(rows);
    if !is_given(pairs, 2 * k) {
        return None;
    }
    let v = shown(text, pairs, 2 * k);
    if has_ampersand(v) {
        return None;
    }
    interval_of(v)
}
