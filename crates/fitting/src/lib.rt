// Whether what is lent to the writer is fit to be written: each pair and row that is counted is there, and the content is legal, judged by the reader's own rules.
#![tactic(auto)]

mod rows;
mod values;

ghost use Rattle.std.specs.Prelude.{◌≡◌, ◌≤◌, length};
ghost use Rattle.fitting.specs.Told.{sheet_told};
ghost use Rattle.drafts.specs.Fit.{draft_of, draft_fits};

use guideline::{every_row, rows_of};
use rows::{every_series_fits, is_count_lent};
use values::{are_texts, covered, root_fits, singles_fit};

// The values of the header and the series, by the rows of the kind, where all of it is lent.
#[tactic(auto, unfolding(crate::specs::Told::sheet_told, crate::specs::Told::sheet_by))]
fn sheet_fits(
    kind: u32,
    rows: &[usize],
    text: &[u8],
    pairs: &[u32],
    count: u32,
    series: &[u32],
    positions: &[u32],
    amounts: &[i64],
) -> bool
    requires { length rows.now ≤ 34 }
    ensures { result ≡ sheet_told kind rows.now text.now pairs.now count series.now positions.now amounts.now }
{
    let Some((from, to)) = covered(text, pairs, rows) else {
        return false;
    };
    if !root_fits(kind, text, pairs) {
        return false;
    }
    if !singles_fit(kind, from, to, text, pairs, rows, 2, 3) {
        return false;
    }
    every_series_fits(
        kind, from, to, text, pairs, rows, count, series, positions, amounts,
    )
}

// Whether a draft is fit: its kind is one of the two that are written, all that it counts is lent, and its content is legal.
// Ruled out: a row past the table; a pair past the text; a value judged otherwise than the reader would; an identification used twice.
pub fn is_fit(
    kind: u32,
    text: &[u8],
    pairs: &[u32],
    count: u32,
    series: &[u32],
    positions: &[u32],
    amounts: &[i64],
) -> bool
    ensures { result ≡ draft_fits (draft_of kind text.now pairs.now count series.now positions.now amounts.now) }
{
    if kind != 1 && kind != 2 {
        return false;
    }
    if !is_count_lent(pairs, count, series) {
        return false;
    }
    if !are_texts(text, pairs, count) {
        return false;
    }
    let rows = every_row();
    sheet_fits(
        kind,
        rows_of(&rows, kind),
        text,
        pairs,
        count,
        series,
        positions,
        amounts,
    )
}
