// Every attribute value of a sheet, where it stands: a document comes in, the reader judges it, and a second walk over the items of an accepted one fills the
// lent table of pairs.
#![tactic(auto)]

mod cells;
mod layout;

ghost use Rattle.std.specs.Prelude.{◌≡◌, ◌+◌, ◌≤◌, length};
ghost use Rattle.refusals.specs.Refusals.{table_full};
ghost use Rattle.states.specs.Moves.{begun};
ghost use Rattle.reader.specs.Items.{items_from};
ghost use Rattle.reader.specs.Reading.{refused_at};
ghost use Rattle.views.specs.Layout.{view_room};
ghost use Rattle.views.specs.Shown.{items_shown};
ghost use Rattle.views.specs.Views.{sheet_shown, sight, sheet_viewed, six_in, views_of, PermittedViews};

use cells::show_item;
use guideline::{every_row, rows_of};
use items::{item_at, item_len};
pub use layout::{HEADER_PAIRS, SERIES_PAIRS, row_at};
use prolog::first_item;
use reader::{Found, judge};
use refusals::{NO_REFUSAL, Refusal};
use slices::rest;
use states::Room;
use tables::{clear_numbers, set_number};

#[tactic(auto, unfolding(reader::specs::Reading::refused_at, states::specs::Moves::begun, structure::specs::Depth::depth_of, structure::specs::Depth::height_in, guideline::specs::Rows::rows_of))]
fn too_short() -> Found
    ensures { result ≡ refused_at table_full 0 begun }
{
    Found {
        refusal: Refusal::TableFull.number(),
        place: 0,
        kind: 0,
        series: 0,
        intervals: 0,
        depth: 0,
        quarters: 0,
        from: 0,
        to: 0,
    }
}

// No table is lent for intervals, so that they never lack room.
#[tactic(auto, unfolding(crate::specs::Layout::view_room))]
fn room_in(n: usize) -> Room
    requires { 32 ≤ n }
    ensures { result ≡ view_room n }
{
    Room {
        series: (n - 2 * HEADER_PAIRS) / (2 * SERIES_PAIRS),
        intervals: 4294967296,
    }
}

// The items from the place `from` on. `rows` are those of the kind.
fn show_items(doc: &[u8], from: usize, rows: &[usize], t: &mut [u32])
    requires short { length doc.now ≤ 1048576 }
    requires rows { length rows.now ≤ 34 }
    ensures { t.new ≡ items_shown rows.now (items_from doc.now from) 0 t.old }
{
    let mut n: u32 = 0;
    let mut at = from;
    while at < doc.len() {
        let s = rest(doc, at);
        let item = item_at(at, s);
        n = show_item(t, rows, at, item, s, n);
        at += item_len(item);
    }
}

// An accepted document has its first item; where the XML declaration is unreadable there is none.
fn show_sheet(doc: &[u8], rows: &[usize], t: &mut [u32])
    requires short { length doc.now ≤ 1048576 }
    requires rows { length rows.now ≤ 34 }
    ensures { t.new ≡ sheet_shown rows.now doc.now t.old }
{
    match first_item(doc) {
        Ok(n) => show_items(doc, n, rows, t),
        Err(_) => {}
    }
}

fn view_sheet(doc: &[u8], t: &mut [u32]) -> Found
    ensures { sight result t.new ≡ sheet_viewed doc.now (length t.old) }
{
    if t.len() < 2 * HEADER_PAIRS {
        clear_numbers(t);
        return too_short();
    }
    let found = judge(doc, room_in(t.len()), t);
    if found.refusal == NO_REFUSAL {
        let rows = every_row();
        show_sheet(doc, rows_of(&rows, found.kind), t);
    }
    found
}

// The six numbers, as far as there are cells, and 0 in those after them.
#[tactic(auto, unfolding(crate::specs::Views::six_in))]
fn put_six(t: &mut [u32], f: Found)
    ensures { t.new ≡ six_in (length t.old) f }
{
    clear_numbers(t);
    set_number(t, 0, f.refusal);
    set_number(t, 1, f.place);
    set_number(t, 2, f.kind);
    set_number(t, 3, f.series);
    set_number(t, 4, f.from);
    set_number(t, 5, f.to);
}

// Reads a document into a table of pairs, "start and length between the quotes", first those of the header, then those of each series; puts refusal, place,
// kind, series and the period's two ends into `answer`, and answers the refusal.
// Ruled out: the value of a comment shown; OutArea in InArea's pair; a space kept where the row drops it; a pair left behind by a refused document; a pair of
// another series; a cell of `answer` past the sixth left as it was.
pub fn lumintayag_views(doc: &[u8], table: &mut [u32], answer: &mut [u32]) -> u32
    ensures { PermittedViews (views_of doc.now table.old) (length answer.old)
        result table.new answer.new }
{
    let found = view_sheet(doc, table);
    let refusal = found.refusal;
    put_six(answer, found);
    refusal
}
