// What is lent to the writer: the pairs of a draft, which of them are there, the text that each shows, and how they stand by the rows of the kind.
// specs/Draft.antt has the content that a draft gives.
#![tactic(auto)]

ghost use Rattle.std.specs.Prelude.{◌≡◌, not, ◌+◌, ◌≤◌, length, get_or};
ghost use Rattle.slices.specs.Part.{part_of};
ghost use Rattle.drafts.specs.Draft.{is_no_pair, role_row};
ghost use Rattle.drafts.specs.Pairs.{pairs_of};

use columns::role_of;
use slices::part;
use states::asks_scheme;
use tables::number_at;
pub use views::{HEADER_PAIRS, SERIES_PAIRS, row_at};

// Whether a value is given, by its pair in this cell and the next: "absent where its cells are 0 and 0". Ruled out: an empty value taken for an absent one.
pub fn is_given(pairs: &[u32], cell: usize) -> bool
    ensures { result ≡ not (is_no_pair (get_or pairs.now cell 0) (get_or pairs.now (cell + 1) 0)) }
{
    if pairs.len() <= cell {
        return false;
    }
    if number_at(pairs, cell) != 0 {
        return true;
    }
    number_at(pairs, cell + 1) != 0
}

// The part of the text that a pair shows. Ruled out: a byte past the text; a part of another length where it lies in the text.
pub fn shown<'a>(text: &'a [u8], pairs: &[u32], cell: usize) -> &'a [u8]
    ensures { result.now ≡ part_of text.now (get_or pairs.now cell 0) (get_or pairs.now (cell + 1) 0) }
{
    if pairs.len() <= cell {
        return part(text, 0, 0);
    }
    let start = number_at(pairs, cell) as usize;
    let len = number_at(pairs, cell + 1) as usize;
    part(text, start, len)
}

// How many pairs an element of a single value has. Ruled out: a pair for a codingScheme that the row has not.
pub fn pairs_of(w: usize) -> usize
    ensures many { result ≡ pairs_of w }
    ensures size { result ≤ 2 }
{
    if asks_scheme(w) { 2 } else { 1 }
}

// The first row with this role, or the end of the rows where there is none. Ruled out: a later one.
pub fn role_row(rows: &[usize], role: usize) -> usize
    ensures row { result ≡ role_row role rows.now }
    ensures size { result ≤ length rows.now }
{
    rows.iter()
        .position(|w| role_of(*w) == role)
        .unwrap_or(rows.len())
}
