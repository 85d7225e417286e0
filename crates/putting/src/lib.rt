// The fixed layout of a sheet, put into lent bytes as far as they reach: "no declaration, no text between tags, double quotes, guideline order of attributes, empty tags
// for single values". A place is never more than one past the last byte, which stands for all that find no room.
#![tactic(auto)]

mod names;
mod texts;

ghost use Rattle.std.specs.Prelude.{◌≡◌, ◌+◌, ◌*◌, ◌≤◌, min, length, drop};
ghost use Rattle.std.proofs.lemmas.List.Edits.{sets};
ghost use Rattle.guideline.specs.Rows.{rows_of};
ghost use Rattle.putting.specs.Sheet.{landed, attribute_of, has_value, scheme_text, single_text, singles_text, interval_text, intervals_text, open_text, close_text, series_text, every_series_text, root_text, sheet_text};

use columns::{PERIOD_ROLE, SERIES_ROLE, role_of};
use drafts::{HEADER_PAIRS, SERIES_PAIRS, is_given, pairs_of, role_row, row_at, shown};
use guideline::{every_row, rows_of};
use names::put_name;
use series::{Field, field_of};
use states::{asks_scheme, asks_v};
use structure::name_of;
use tables::{amount_at, number_at};
use texts::{put_amount_at, put_bytes, put_escaped_at, put_position_at};

// An attribute whose value is pair k, where it is there: `opens` is the space, the name, `=` and the first quote.
fn put_attribute(
    out: &mut [u8],
    at: usize,
    opens: &[u8],
    text: &[u8],
    pairs: &[u32],
    k: usize,
) -> usize
    requires place { at ≤ length out.old + 1 }
    requires pair { k ≤ 200000000000 }
    ensures answer { result ≡ landed out.old at (attribute_of opens.now text.now pairs.now k) }
    ensures buffer { out.new ≡ sets out.old at (attribute_of opens.now text.now pairs.now k) }
{
    if !is_given(pairs, 2 * k) {
        return at;
    }
    let value = put_bytes(out, at, opens);
    let end = put_escaped_at(out, value, shown(text, pairs, 2 * k));
    put_bytes(out, end, b"\"")
}

// `<` and the name of row w's element.
fn put_open(out: &mut [u8], at: usize, w: usize) -> usize
    requires { at ≤ length out.old + 1 }
    ensures answer { result ≡ landed out.old at (open_text w) }
    ensures buffer { out.new ≡ sets out.old at (open_text w) }
{
    let name = put_bytes(out, at, b"<");
    put_name(out, name, name_of(w))
}

fn put_close(out: &mut [u8], at: usize, w: usize) -> usize
    requires { at ≤ length out.old + 1 }
    ensures answer { result ≡ landed out.old at (close_text w) }
    ensures buffer { out.new ≡ sets out.old at (close_text w) }
{
    let name = put_bytes(out, at, b"</");
    let end = put_name(out, name, name_of(w));
    put_bytes(out, end, b">")
}

// Whether one of the attributes is there that an element of row w has, whose first pair is k.
fn has_value(pairs: &[u32], w: usize, k: usize) -> bool
    requires { k ≤ 100000000000 }
    ensures { result ≡ has_value pairs.now w k }
{
    if is_given(pairs, 2 * k) {
        return true;
    }
    if asks_scheme(w) {
        return is_given(pairs, 2 * (k + 1));
    }
    false
}

// The codingScheme, in a row that has it.
fn put_scheme(out: &mut [u8], at: usize, text: &[u8], pairs: &[u32], w: usize, k: usize) -> usize
    requires place { at ≤ length out.old + 1 }
    requires pair { k ≤ 100000000000 }
    ensures answer { result ≡ landed out.old at (scheme_text text.now pairs.now w k) }
    ensures buffer { out.new ≡ sets out.old at (scheme_text text.now pairs.now w k) }
{
    if asks_scheme(w) {
        return put_attribute(out, at, b" codingScheme=\"", text, pairs, k + 1);
    }
    at
}

// An element of a single value, whose first pair is k, where one of its attributes is there.
fn put_single(out: &mut [u8], at: usize, text: &[u8], pairs: &[u32], w: usize, k: usize) -> usize
    requires place { at ≤ length out.old + 1 }
    requires pair { k ≤ 100000000000 }
    ensures answer { result ≡ landed out.old at (single_text text.now pairs.now w k) }
    ensures buffer { out.new ≡ sets out.old at (single_text text.now pairs.now w k) }
{
    if !has_value(pairs, w, k) {
        return at;
    }
    let name_end = put_open(out, at, w);
    let v_end = put_attribute(out, name_end, b" v=\"", text, pairs, k);
    let end = put_scheme(out, v_end, text, pairs, w, k);
    put_bytes(out, end, b"/>")
}

// The elements of single values from a row on, whose first pair is k, with the start tag of the Period on the way, up to what else has no `v`.
fn put_singles(
    out: &mut [u8],
    at: usize,
    text: &[u8],
    pairs: &[u32],
    rows: &[usize],
    row: usize,
    k: usize,
) -> usize
    requires place { at ≤ length out.old + 1 }
    requires rows { length rows.now ≤ 34 }
    requires pair { k ≤ 99999999000 }
    ensures answer { result ≡ landed out.old at (singles_text text.now pairs.now k (drop row rows.now)) }
    ensures buffer { out.new ≡ sets out.old at (singles_text text.now pairs.now k (drop row rows.now)) }
{
    let mut end = at;
    let mut next = k;
    for q in row..rows.len() {
        let w = rows[q];
        if asks_v(w) {
            end = put_single(out, end, text, pairs, w, next);
            next += pairs_of(w);
        } else if role_of(w) == PERIOD_ROLE {
            end = put_bytes(out, end, b"<Period>");
        } else {
            return end;
        }
    }
    end
}

fn put_interval(out: &mut [u8], at: usize, p: u32, a: i64) -> usize
    requires { at ≤ length out.old + 1 }
    ensures answer { result ≡ landed out.old at (interval_text p a) }
    ensures buffer { out.new ≡ sets out.old at (interval_text p a) }
{
    let pos = put_bytes(out, at, b"<Interval><Pos v=\"");
    let pos_end = put_position_at(out, pos, p);
    let qty = put_bytes(out, pos_end, b"\"/><Qty v=\"");
    let qty_end = put_amount_at(out, qty, a);
    put_bytes(out, qty_end, b"\"/></Interval>")
}

fn put_intervals(
    out: &mut [u8],
    at: usize,
    positions: &[u32],
    amounts: &[i64],
    first: u32,
    count: u32,
) -> usize
    requires { at ≤ length out.old + 1 }
    ensures answer { result ≡ landed out.old at (intervals_text positions.now amounts.now first count) }
    ensures buffer { out.new ≡ sets out.old at (intervals_text positions.now amounts.now first count) }
{
    let mut end = at;
    let last = first as usize + count as usize;
    for j in first as usize..last {
        end = put_interval(out, end, number_at(positions, j), amount_at(amounts, j));
    }
    end
}

// A series of row w, whose values stand in the rows from `row` on and whose first pair is k.
fn put_series(
    out: &mut [u8],
    at: usize,
    text: &[u8],
    pairs: &[u32],
    rows: &[usize],
    row: usize,
    k: usize,
    positions: &[u32],
    amounts: &[i64],
    first: u32,
    count: u32,
) -> usize
    requires place { at ≤ length out.old + 1 }
    requires rows { length rows.now ≤ 34 }
    requires row { row ≤ 34 }
    requires pair { k ≤ 99999999000 }
    ensures answer { result ≡ landed out.old at (series_text text.now pairs.now rows.now row k positions.now amounts.now first count) }
    ensures buffer { out.new ≡ sets out.old at (series_text text.now pairs.now rows.now row k positions.now amounts.now first count) }
{
    let w = row_at(rows, row);
    let name_end = put_open(out, at, w);
    let inside = put_bytes(out, name_end, b">");
    let period = put_singles(out, inside, text, pairs, rows, row + 1, k);
    let intervals = put_intervals(out, period, positions, amounts, first, count);
    let end = put_bytes(out, intervals, b"</Period>");
    put_close(out, end, w)
}

fn put_every_series(
    out: &mut [u8],
    at: usize,
    text: &[u8],
    pairs: &[u32],
    rows: &[usize],
    count: u32,
    series: &[u32],
    positions: &[u32],
    amounts: &[i64],
) -> usize
    requires place { at ≤ length out.old + 1 }
    requires rows { length rows.now ≤ 34 }
    ensures answer { result ≡ landed out.old at (every_series_text text.now pairs.now rows.now series.now positions.now amounts.now 0 count) }
    ensures buffer { out.new ≡ sets out.old at (every_series_text text.now pairs.now rows.now series.now positions.now amounts.now 0 count) }
{
    let row = role_row(rows, SERIES_ROLE);
    let mut end = at;
    for i in 0..count {
        let first = field_of(series, i, Field::FirstRow);
        let n = field_of(series, i, Field::Count);
        end = put_series(
            out,
            end,
            text,
            pairs,
            rows,
            row,
            HEADER_PAIRS + SERIES_PAIRS * (i as usize),
            positions,
            amounts,
            first,
            n,
        );
    }
    end
}

// The root's start tag: row 1, and the first three pairs.
fn put_root(out: &mut [u8], text: &[u8], pairs: &[u32], w: usize) -> usize
    ensures answer { result ≡ landed out.old 0 (root_text text.now pairs.now w) }
    ensures buffer { out.new ≡ sets out.old 0 (root_text text.now pairs.now w) }
{
    let mut end = put_open(out, 0, w);
    end = put_attribute(out, end, b" DtdVersion=\"", text, pairs, 0);
    end = put_attribute(out, end, b" DtdRelease=\"", text, pairs, 1);
    end = put_attribute(out, end, b" DtdBDEWNachrichtenVersion=\"", text, pairs, 2);
    put_bytes(out, end, b">")
}

fn put_by(
    out: &mut [u8],
    rows: &[usize],
    text: &[u8],
    pairs: &[u32],
    count: u32,
    series: &[u32],
    positions: &[u32],
    amounts: &[i64],
) -> usize
    requires { length rows.now ≤ 34 }
    ensures answer { result ≡ landed out.old 0 (sheet_text rows.now text.now pairs.now count series.now positions.now amounts.now) }
    ensures buffer { out.new ≡ sets out.old 0 (sheet_text rows.now text.now pairs.now count series.now positions.now amounts.now) }
{
    let root = row_at(rows, 1);
    let header = put_root(out, text, pairs, root);
    let from = put_singles(out, header, text, pairs, rows, 2, 3);
    let end = put_every_series(
        out, from, text, pairs, rows, count, series, positions, amounts,
    );
    put_close(out, end, root)
}

// Puts the document of a draft into lent bytes, as far as there are bytes, and answers its length, or one more than there is room for.
// Ruled out: a byte past the document; an answer that fits where the document does not; any other text of the same content.
pub fn put_sheet(
    out: &mut [u8],
    kind: u32,
    text: &[u8],
    pairs: &[u32],
    count: u32,
    series: &[u32],
    positions: &[u32],
    amounts: &[i64],
) -> usize
    ensures answer { result ≡ landed out.old 0 (sheet_text (rows_of kind) text.now pairs.now count series.now positions.now amounts.now) }
    ensures buffer { out.new ≡ sets out.old 0 (sheet_text (rows_of kind) text.now pairs.now count series.now positions.now amounts.now) }
{
    let rows = every_row();
    put_by(
        out,
        rows_of(&rows, kind),
        text,
        pairs,
        count,
        series,
        positions,
        amounts,
    )
}
