// What an item brings into the lent tables.
ghost use Rattle.std.specs.Prelude.{◌≡◌, ◌+◌, ◌-◌, ◌≤◌, length};
ghost use Rattle.slices.specs.Same.{same};
ghost use Rattle.characters.specs.Says.{own_end, says};
ghost use Rattle.trims.specs.Trim.{lead_of, trimmed_of};
ghost use Rattle.items.specs.Parts.{span_of};
ghost use Rattle.items.specs.Item.{item_value};
ghost use Rattle.numbers.specs.Amount.{amount_of};
ghost use Rattle.series.specs.declared.Field.TheVariants.{Identification};
ghost use Rattle.series.specs.Row.{with_view, view};
ghost use Rattle.reader.specs.Rows.{brought_by, quoted, count_for, field_after, thousandths_of, used, used_in, used_before};
ghost use Rattle.reader.specs.Reading.{tab, tables_after};

use characters::{ends_otherwise, own_end, says_same};
use items::{Item, span_of};
use numbers::amount_of;
use series::{Field, set_field, set_view, view_of};
use slices::{Span, part};
use states::{Entry, State, count_of};
use tables::{set_amount, set_number};
use trims::{leading_spaces, trimmed, without_spaces};

// What an item brings, by where it goes: a field of its series' row, or the position or the amount of its interval's.
#[derive(Clone, Copy)]
enum Brought {
    NoCell,
    InRow(Field),
    AtPosition(u32),
    AtAmount,
}

#[tactic(auto, unfolding(crate::specs::Rows::brought_by))]
fn brought_by(entry: Entry) -> Brought
    ensures { result ≡ brought_by entry }
{
    match entry {
        Entry::Nothing => Brought::NoCell,
        Entry::Series => Brought::InRow(Field::FirstRow),
        Entry::Identification => Brought::InRow(Field::Identification),
        Entry::Object => Brought::InRow(Field::Object),
        Entry::BusinessType => Brought::InRow(Field::BusinessType),
        Entry::Direction => Brought::InRow(Field::Direction),
        Entry::Area => Brought::InRow(Field::Area),
        Entry::Interval => Brought::InRow(Field::Count),
        Entry::Position(p) => Brought::AtPosition(p),
        Entry::Amount => Brought::AtAmount,
    }
}

// The part of a tag that a value is. Ruled out: a quote taken in; the bytes of the document's start.
#[tactic(auto, unfolding(crate::specs::Rows::quoted))]
pub fn quoted_of(v: Span, s: &[u8]) -> &[u8]
    ensures { result.now ≡ quoted v s.now }
{
    let start = v.start;
    let len = v.len;
    part(s, start, len)
}

fn last_of(n: u32) -> u32
    ensures { result ≡ n - 1 }
{
    if n == 0 {
        return 0;
    }
    n - 1
}

// A view with "spaces dropped"; its value is b, which starts at the place `at`.
fn set_trimmed(t: &mut [u32], row: u32, f: Field, at: usize, b: &[u8])
    requires { at + length b.now ≤ 4294967295 }
    ensures { t.new ≡ with_view t.old row f (at + lead_of b.now) (length (trimmed_of b.now)) }
{
    let from = at + leading_spaces(b);
    let len = without_spaces(b).len();
    set_view(t, row, f, from as u32, len as u32);
}

// The first interval row of the last series, and its interval count.
fn count_for(st: State, f: Field) -> u32
    ensures { result ≡ count_for st f }
{
    match f {
        Field::FirstRow => st.first,
        Field::Count => count_of(st.intervals, st.first),
        _ => 0,
    }
}

// A field of the row of the last series; st is the state after the item, which is at the place `at`, and v the value in it. Each setter is called in one place,
// so that the compiler makes one loop of them.
fn enter_field(t: &mut [u32], at: usize, v: Span, s: &[u8], st: State, f: Field)
    requires { at + (v.start + v.len) ≤ 4294967295 }
    ensures { t.new ≡ field_after at v s.now st f t.old }
{
    let row = last_of(st.series);
    let from = at + v.start;
    if f.is_view() {
        if f.drops_spaces() {
            set_trimmed(t, row, f, from, quoted_of(v, s));
        } else {
            set_view(t, row, f, from as u32, v.len as u32);
        }
    } else {
        set_field(t, row, f, count_for(st, f));
    }
}

#[tactic(auto, unfolding(crate::specs::Rows::thousandths_of))]
fn thousandths_of(v: &[u8]) -> i64
    ensures { result ≡ thousandths_of (amount_of (says v.now)) }
{
    amount_of(v).unwrap_or(0)
}

// What the item at the place `at` brings into the tables; st is the state after it.
pub(crate) fn enter(
    series: &mut [u32],
    positions: &mut [u32],
    amounts: &mut [i64],
    at: usize,
    item: Item,
    s: &[u8],
    st: State,
    entry: Entry,
)
    requires { at + item_value item ≤ 4294967295 }
    ensures { tab series.new positions.new amounts.new
        ≡ tables_after (record { at = at; item = item; rest = s.now }) st entry
        (tab series.old positions.old amounts.old) }
{
    let v = span_of(item);
    let row = last_of(st.intervals) as usize;
    match brought_by(entry) {
        Brought::NoCell => {}
        Brought::InRow(f) => {
            enter_field(series, at, v, s, st, f);
        }
        Brought::AtPosition(p) => {
            set_number(positions, row, p);
        }
        Brought::AtAmount => {
            set_amount(amounts, row, thousandths_of(trimmed(quoted_of(v, s))));
        }
    }
}

// Whether row i shows an identification that says the same, `last` being its `own_end`. Those of one document mostly differ at the end, so that is looked at first.
fn is_shown(doc: &[u8], t: &[u32], i: u32, id: &[u8], last: u8) -> bool
    requires { last ≡ own_end id.now }
    ensures { result ≡ same (says (view doc.now t.now i Identification)) (says id.now) }
{
    let shown = view_of(doc, t, i, Field::Identification);
    if ends_otherwise(shown, last) {
        return false;
    }
    says_same(shown, id)
}

// Whether one of the first n rows shows this identification. The last row first, so that one that repeats the series just before is told at once.
fn is_used(doc: &[u8], t: &[u32], n: u32, id: &[u8]) -> bool
    ensures { result ≡ used doc.now t.now n (says id.now) }
{
    let last = own_end(id);
    for i in (0..n).rev() {
        if is_shown(doc, t, i, id, last) {
            return true;
        }
    }
    false
}

// Whether a field of the row of this many series, with v in the item, brings an identification that a series before has.
#[tactic(auto, unfolding(crate::specs::Rows::used_in))]
fn is_used_in(doc: &[u8], t: &[u32], v: Span, s: &[u8], series: u32, f: Field) -> bool
    ensures { result ≡ used_in doc.now t.now v s.now series f }
{
    match f {
        Field::Identification => is_used(doc, t, last_of(series), quoted_of(v, s)),
        _ => false,
    }
}

// Whether the item, with v in it, brings an identification that a series before this one has.
#[tactic(auto, unfolding(crate::specs::Rows::used_before, crate::specs::Rows::used_with))]
pub(crate) fn is_used_before(
    doc: &[u8],
    t: &[u32],
    v: Span,
    s: &[u8],
    series: u32,
    entry: Entry,
) -> bool
    ensures { result ≡ used_before doc.now t.now v s.now series entry }
{
    match brought_by(entry) {
        Brought::InRow(f) => is_used_in(doc, t, v, s, series, f),
        _ => false,
    }
}
