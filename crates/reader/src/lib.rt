// The document reader: a sheet comes in, the lent tables are filled, and a note is written.
#![tactic(auto)]

mod rows;

ghost use Rattle.std.specs.Prelude.{◌≡◌, ◌≤◌, length};
ghost use Rattle.refusals.specs.Refusals.{number};
ghost use Rattle.items.specs.Item.{item_end};
ghost use Rattle.notes.specs.Note.{note_of, left};
ghost use Rattle.guideline.specs.Rows.{rows_of};
ghost use Rattle.states.specs.Moves.{begun, step_by};
ghost use Rattle.states.specs.Step.{step_told};
ghost use Rattle.items.specs.Parts.{passed};
ghost use Rattle.reader.specs.Reading.{tab, blank_as, room_of, refused_at, accepted_at, ended_at, without_used, out, items_read, read_into, sheet_into};
ghost use Rattle.lists.specs.Zeros.{zeros};
ghost use Rattle.reader.specs.Judging.{judged_into, judged};
ghost use Rattle.reader.specs.Answer.{note_for, told, outcome_of, Permitted};

use guideline::{every_row, rows_of};
use items::{Item, is_passed, item_at, item_len, span_of};
use lists::clear_bytes;
use notes::{Note, Shape, write_note};
use prolog::first_item;
use refusals::{NO_REFUSAL, Refusal};
pub use rows::quoted_of;
use rows::{enter, is_used_before};
use series::rows_in;
use slices::{Span, rest};
use states::{Entry, Room, State};
use structure::{depth_after, is_over};
use tables::{clear_amounts, clear_numbers};

// What the items of a document come to. `quarters` is N, `depth` "the count of elements open before the faulty item"; `from` and `to` are the two ends of
// TimePeriodCovered in minutes since 2000-01-01T00:00Z, 0 on every refusal.
#[derive(Clone, Copy)]
pub struct Found {
    pub refusal: u32,
    pub place: u32,
    pub kind: u32,
    pub series: u32,
    pub intervals: u32,
    pub depth: u32,
    pub quarters: u32,
    pub from: u32,
    pub to: u32,
}

// The answer to a document: the five numbers of the note, N, and the note's length.
#[derive(Clone, Copy)]
pub struct Answer {
    pub refusal: u32,
    pub place: u32,
    pub kind: u32,
    pub series: u32,
    pub intervals: u32,
    pub quarters: u32,
    pub note: usize,
}

#[tactic(auto, unfolding(crate::specs::Reading::room_of))]
fn room_of(ns: usize, np: usize, na: usize) -> Room
    ensures { result ≡ room_of ns np na }
{
    let series = rows_in(ns);
    if np <= na {
        return Room {
            series,
            intervals: np,
        };
    }
    Room {
        series,
        intervals: na,
    }
}

// `rows` are the rows of the kind. The depth is asked for here alone, so that no item costs more for it.
fn refused_at(r: Refusal, place: u32, st: State, rows: &[usize]) -> Found
    requires { rows.now ≡ rows_of st.kind }
    ensures { result ≡ refused_at (number r) place st }
{
    let depth = depth_after(rows, st.row, st.inside);
    Found {
        refusal: r.number(),
        place,
        kind: st.kind,
        series: st.series,
        intervals: st.intervals,
        depth,
        quarters: 0,
        from: 0,
        to: 0,
    }
}

// Before the first item nothing is counted and nothing is open.
fn refused_first(refusal: Refusal, place: u32) -> Found
    ensures { result ≡ refused_at (number refusal) place begun }
{
    Found {
        refusal: refusal.number(),
        place,
        kind: 0,
        series: 0,
        intervals: 0,
        depth: 0,
        quarters: 0,
        from: 0,
        to: 0,
    }
}

fn accepted_at(place: u32, st: State) -> Found
    ensures { result ≡ accepted_at place st }
{
    Found {
        refusal: NO_REFUSAL,
        place,
        kind: st.kind,
        series: st.series,
        intervals: st.intervals,
        depth: 0,
        quarters: st.quarters,
        from: st.from,
        to: st.to,
    }
}

// At the end of the document. `rows` are the rows of the kind.
fn ended_at(place: u32, st: State, rows: &[usize]) -> Found
    requires { rows.now ≡ rows_of st.kind }
    ensures { result ≡ ended_at rows.now place st }
{
    if is_over(rows, st.row, st.inside) {
        return accepted_at(place, st);
    }
    refused_at(Refusal::NotDue, place, st, rows)
}

fn clear_tables(series: &mut [u32], positions: &mut [u32], amounts: &mut [i64])
    ensures { tab series.new positions.new amounts.new
        ≡ blank_as (tab series.old positions.old amounts.old) }
{
    clear_numbers(series);
    clear_numbers(positions);
    clear_amounts(amounts);
}

// An item moves the state, or is refused.
fn step_in(
    doc: &[u8],
    t: &[u32],
    room: Room,
    item: Item,
    s: &[u8],
    st: State,
    rows: &[usize],
) -> Result<(State, Entry), Refusal>
    ensures { step_told result ≡ without_used doc.now t.now item s.now (step_by st rows.now item s.now room) }
{
    let (next, entry) = st.step(rows, item, s, room)?;
    if is_used_before(doc, t, span_of(item), s, next.series, entry) {
        return Err(Refusal::UsedAgain);
    }
    Ok((next, entry))
}

// The items from the place `from` on, into tables that are blank.
fn read_items(
    doc: &[u8],
    from: usize,
    room: Room,
    series: &mut [u32],
    positions: &mut [u32],
    amounts: &mut [i64],
) -> Found
    requires { length doc.now ≤ 1048576 }
    ensures { out result series.new positions.new amounts.new
        ≡ items_read doc.now room from (tab series.old positions.old amounts.old) }
{
    let rows = every_row();
    let mut st = State::begin();
    let mut at = from;
    while at < doc.len() {
        let s = rest(doc, at);
        let item = item_at(at, s);
        if let Item::Unreadable(p) = item {
            return refused_at(
                Refusal::UnreadableItem,
                p as u32,
                st,
                rows_of(&rows, st.kind),
            );
        }
        if is_passed(item) {
            at += item_len(item);
            continue;
        }
        match step_in(doc, series, room, item, s, st, &rows) {
            Ok((next, entry)) => {
                enter(series, positions, amounts, at, item, s, next, entry);
                st = next;
            }
            Err(r) => return refused_at(r, at as u32, st, rows_of(&rows, st.kind)),
        }
        at += item_len(item);
    }
    ended_at(doc.len() as u32, st, rows_of(&rows, st.kind))
}

// From the first item on, or not at all where the XML declaration is unreadable.
fn read_all(doc: &[u8], series: &mut [u32], positions: &mut [u32], amounts: &mut [i64]) -> Found
    requires { length doc.now ≤ 1048576 }
    ensures { out result series.new positions.new amounts.new
        ≡ read_into doc.now (tab series.old positions.old amounts.old) }
{
    let room = room_of(series.len(), positions.len(), amounts.len());
    match first_item(doc) {
        Ok(n) => read_items(doc, n, room, series, positions, amounts),
        Err(p) => refused_first(Refusal::UnreadableItem, p as u32),
    }
}

// The tables are blank where the document is refused.
fn read_sheet(doc: &[u8], series: &mut [u32], positions: &mut [u32], amounts: &mut [i64]) -> Found
    ensures { out result series.new positions.new amounts.new
        ≡ sheet_into doc.now (tab series.old positions.old amounts.old) }
{
    clear_tables(series, positions, amounts);
    if 1048576 < doc.len() {
        return refused_first(Refusal::TooLong, 0);
    }
    let found = read_all(doc, series, positions, amounts);
    if found.refusal == NO_REFUSAL {
        return found;
    }
    clear_tables(series, positions, amounts);
    found
}

// With a series table alone: what the intervals say has no cell.
fn judge_all(doc: &[u8], room: Room, series: &mut [u32]) -> Found
    requires { length doc.now ≤ 1048576 }
    ensures { result ≡ judged_into room doc.now series.old }
{
    let mut positions = [0u32; 1];
    let mut amounts = [0i64; 1];
    match first_item(doc) {
        Ok(n) => read_items(doc, n, room, series, &mut positions, &mut amounts),
        Err(p) => refused_first(Refusal::UnreadableItem, p as u32),
    }
}

// Judges a document for a caller with tables of another layout, who says what room they have: what `read` would find with as much room. The lent numbers serve as
// a series table, and are 0 afterwards.
// Ruled out: room for more series than is said; an identification taken that was used before, where there is a row for each series; a number left behind.
pub fn judge(doc: &[u8], room: Room, series: &mut [u32]) -> Found
    ensures found { result ≡ judged room doc.now (length series.old) }
    ensures blank { series.new ≡ zeros (length series.old) }
{
    clear_numbers(series);
    if 1048576 < doc.len() {
        return refused_first(Refusal::TooLong, 0);
    }
    let found = judge_all(doc, room, series);
    clear_numbers(series);
    found
}

// Writes the note of what was found.
fn tell(shape: Shape, note: &mut [u8], f: Found) -> Answer
    ensures answer { result ≡ told shape f }
    ensures note { note.new ≡ left (note_of shape (note_for f)) (length note.old) }
{
    let n = Note {
        refusal: f.refusal,
        place: f.place,
        kind: f.kind,
        series: f.series,
        intervals: f.intervals,
        depth: f.depth,
    };
    let len = write_note(note, shape, n);
    Answer {
        refusal: f.refusal,
        place: f.place,
        kind: f.kind,
        series: f.series,
        intervals: f.intervals,
        quarters: f.quarters,
        note: len,
    }
}

// Reads a document into the lent tables, and writes the note of it in the shape that the caller picks.
// Ruled out: rows left behind where a later item is refused; a place inside the item; an answer that is the same for all; counts of
// start tags that stand after the faulty item; a depth that counts what the faulty item opens, or leaves out what it would close; a note that holds anything
// else than the numbers of its shape.
pub fn read(
    doc: &[u8],
    series: &mut [u32],
    positions: &mut [u32],
    amounts: &mut [i64],
    shape: Shape,
    note: &mut [u8],
) -> Answer
    ensures { Permitted
        (outcome_of doc.now series.old positions.old amounts.old shape note.old)
        result series.new positions.new amounts.new note.new }
{
    if note.len() < 16 {
        clear_tables(series, positions, amounts);
        clear_bytes(note);
        return Answer {
            refusal: Refusal::BufferShort.number(),
            place: 0,
            kind: 0,
            series: 0,
            intervals: 0,
            quarters: 0,
            note: 0,
        };
    }
    let found = read_sheet(doc, series, positions, amounts);
    tell(shape, note, found)
}
