// Where each attribute value stands in the table of views, told by the rows of the kind.
ghost use Rattle.std.specs.Prelude.{◌≡◌, ◌+◌, ◌*◌, ◌≤◌, length, get_or};
ghost use Rattle.views.specs.Layout.{one_if, values_of, pair_after, first_pair, pair_in, row_named};

use columns::{POS_ROLE, QTY_ROLE, ROOT_ROLE, SERIES_ROLE, role_of};
use states::{asks_scheme, asks_v};
use structure::name_of;

// The pairs of a header, and those of a series.
pub const HEADER_PAIRS: usize = 16;

pub const SERIES_PAIRS: usize = 22;

pub(crate) fn one_if(b: bool) -> usize
    ensures one { result ≡ one_if b }
    ensures size { result ≤ 1 }
{
    if b { 1 } else { 0 }
}

// How many values a row has.
#[tactic(auto, unfolding(crate::specs::Layout::values_of))]
pub(crate) fn values_of(w: usize) -> usize
    ensures many { result ≡ values_of w }
    ensures size { result ≤ 3 }
{
    let role = role_of(w);
    if role == ROOT_ROLE {
        return 3;
    }
    if role == POS_ROLE {
        return 0;
    }
    if role == QTY_ROLE {
        return 0;
    }
    one_if(asks_v(w)) + one_if(asks_scheme(w))
}

#[tactic(auto, unfolding(crate::specs::Layout::pair_after))]
fn pair_after(k: usize, w: usize) -> usize
    requires { k ≤ 1000 }
    ensures pair { result ≡ pair_after k w }
    ensures size { result ≤ k + 19 }
{
    if role_of(w) == SERIES_ROLE {
        return HEADER_PAIRS;
    }
    k + values_of(w)
}

// A row, and 0 past the end. Ruled out: the last row for one past the end.
pub fn row_at(rows: &[usize], row: usize) -> usize
    ensures { result ≡ get_or rows.now row 0 }
{
    if row < rows.len() { rows[row] } else { 0 }
}

// The first pair of a row, in the header or in the first series.
pub(crate) fn first_pair(rows: &[usize], row: usize) -> usize
    requires { row ≤ 34 }
    ensures pair { result ≡ first_pair rows.now row }
    ensures size { result ≤ 1000 }
{
    let mut k: usize = 0;
    for i in 0..row {
        k = pair_after(k, row_at(rows, i));
    }
    k
}

// Where it stands for the last of n series.
#[tactic(auto, unfolding(crate::specs::Layout::pair_in))]
pub(crate) fn pair_in(k: usize, n: u32) -> usize
    requires { k ≤ 1000 }
    ensures pair { result ≡ pair_in k n }
    ensures size { result ≤ 1000 + 22 * 4294967295 }
{
    if k < HEADER_PAIRS {
        return k;
    }
    if n == 0 {
        return k;
    }
    k + SERIES_PAIRS * ((n - 1) as usize)
}

// The row of an element, or the end of the rows where there is none of this name.
pub(crate) fn row_named(rows: &[usize], name: usize) -> usize
    ensures row { result ≡ row_named name rows.now }
    ensures size { result ≤ length rows.now }
{
    rows.iter()
        .position(|w| name_of(*w) == name)
        .unwrap_or(rows.len())
}
