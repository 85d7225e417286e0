// What an item shows in the table of views.
ghost use Rattle.std.specs.Prelude.{◌≡◌, ◌+◌, ◌≤◌, ◌<◌, length};
ghost use Rattle.views.specs.Shown.{value_start, value_length, with_pair, with_value, root_shown, v_shown, scheme_shown, tag_shown, tag_row, series_at, tag_counts, tag_shows, item_counts, item_shows, SpanInside, TagInside, ItemInside};

use crate::layout::{first_pair, one_if, pair_in, row_at, row_named, values_of};
use columns::{ROOT_ROLE, SERIES_ROLE, is_collapsed, role_of};
use elements::element_no;
use items::{Item, Tag};
use reader::quoted_of;
use slices::{Span, part};
use states::{asks_scheme, asks_v, is_there};
use tables::set_number;
use tags::Dtd;
use trims::{leading_spaces, trimmed};

// Where a value starts in the document, without its leading spaces where they are dropped.
fn start_of(drops: bool, at: usize, x: Span, s: &[u8]) -> u32
    requires { SpanInside at x }
    ensures { result ≡ value_start drops at x s.now }
{
    if is_there(x) {
        let from = at + x.start;
        if drops {
            let start = from + leading_spaces(quoted_of(x, s));
            return start as u32;
        }
        return from as u32;
    }
    0
}

fn length_of(drops: bool, x: Span, s: &[u8]) -> u32
    requires { x.start + x.len ≤ 4294967295 }
    ensures { result ≡ value_length drops x s.now }
{
    if is_there(x) {
        if drops {
            return trimmed(quoted_of(x, s)).len() as u32;
        }
        return x.len as u32;
    }
    0
}

#[tactic(auto, unfolding(crate::specs::Shown::with_pair))]
fn set_pair(t: &mut [u32], k: usize, start: u32, len: u32)
    requires { k ≤ 1099511627776 }
    ensures { t.new ≡ with_pair t.old k start len }
{
    set_number(t, 2 * k, start);
    set_number(t, 2 * k + 1, len);
}

#[tactic(auto, unfolding(crate::specs::Shown::with_value))]
fn put_value(t: &mut [u32], k: usize, drops: bool, at: usize, x: Span, s: &[u8])
    requires pair { k ≤ 1099511627776 }
    requires inside { SpanInside at x }
    ensures { t.new ≡ with_value k drops at x s.now t.old }
{
    let start = start_of(drops, at, x, s);
    let len = length_of(drops, x, s);
    set_pair(t, k, start, len);
}

// The attributes that a root may have.
#[tactic(auto, unfolding(crate::specs::Shown::root_shown))]
fn show_root(t: &mut [u32], k: usize, at: usize, d: Dtd, s: &[u8])
    requires pair { k ≤ 1000000000000 }
    requires version { SpanInside at d.version }
    requires release { SpanInside at d.release }
    requires message { SpanInside at d.message }
    ensures { t.new ≡ root_shown k at d s.now t.old }
{
    let version = d.version;
    let release = d.release;
    let message = d.message;
    put_value(t, k, false, at, version, s);
    put_value(t, k + 1, false, at, release, s);
    put_value(t, k + 2, false, at, message, s);
}

#[tactic(auto, unfolding(crate::specs::Shown::v_shown))]
fn show_v(t: &mut [u32], k: usize, at: usize, w: usize, x: Span, s: &[u8])
    requires pair { k ≤ 1000000000000 }
    requires inside { SpanInside at x }
    ensures { t.new ≡ v_shown k at w x s.now t.old }
{
    if asks_v(w) {
        put_value(t, k, is_collapsed(w), at, x, s);
    }
}

// codingScheme, which is collapsed in every row that has it.
#[tactic(auto, unfolding(crate::specs::Shown::scheme_shown))]
fn show_scheme(t: &mut [u32], k: usize, at: usize, w: usize, x: Span, s: &[u8])
    requires pair { k ≤ 1000000000000 }
    requires inside { SpanInside at x }
    ensures { t.new ≡ scheme_shown k at w x s.now t.old }
{
    if asks_scheme(w) {
        put_value(t, k + one_if(asks_v(w)), true, at, x, s);
    }
}

// The values of a tag of row w, whose first pair is k.
#[tactic(auto, unfolding(crate::specs::Shown::tag_shown))]
fn show_tag(t: &mut [u32], k: usize, at: usize, w: usize, tag: Tag, s: &[u8])
    requires pair { k ≤ 1000000000000 }
    requires inside { TagInside at tag }
    ensures { t.new ≡ tag_shown k at w tag s.now t.old }
{
    if role_of(w) == ROOT_ROLE {
        let dtd = tag.dtd;
        show_root(t, k, at, dtd, s);
        return;
    }
    let v = tag.v;
    let coding = tag.coding;
    show_v(t, k, at, w, v, s);
    show_scheme(t, k, at, w, coding, s);
}

#[tactic(auto, unfolding(crate::specs::Shown::series_at))]
fn series_at(w: usize, n: u32) -> u32
    requires { n < 4294967295 }
    ensures { result ≡ series_at w n }
{
    if role_of(w) == SERIES_ROLE { n + 1 } else { n }
}

#[tactic(auto, unfolding(crate::specs::Shown::tag_row))]
fn tag_row(rows: &[usize], tag: Tag, s: &[u8]) -> usize
    ensures row { result ≡ tag_row rows.now tag s.now }
    ensures size { result ≤ length rows.now }
{
    let name = tag.name;
    row_named(rows, element_no(part(s, 1, name)))
}

// A tag after n series: shows its values, and answers how many series there are after it.
#[tactic(auto, unfolding(crate::specs::Shown::tag_counts, crate::specs::Shown::tag_shows))]
fn open_tag(t: &mut [u32], rows: &[usize], at: usize, tag: Tag, s: &[u8], n: u32) -> u32
    requires rows { length rows.now ≤ 34 }
    requires few { n < 4294967295 }
    requires inside { TagInside at tag }
    ensures counts { result ≡ tag_counts rows.now tag s.now n }
    ensures shows { t.new ≡ tag_shows rows.now at tag s.now n t.old }
{
    let row = tag_row(rows, tag, s);
    let w = row_at(rows, row);
    let m = series_at(w, n);
    if values_of(w) != 0 {
        show_tag(t, pair_in(first_pair(rows, row), m), at, w, tag, s);
    }
    m
}

pub(crate) fn show_item(
    t: &mut [u32],
    rows: &[usize],
    at: usize,
    item: Item,
    s: &[u8],
    n: u32,
) -> u32
    requires rows { length rows.now ≤ 34 }
    requires few { n < 4294967295 }
    requires inside { ItemInside at item }
    ensures counts { result ≡ item_counts rows.now item s.now n }
    ensures shows { t.new ≡ item_shows rows.now at item s.now n t.old }
{
    match item {
        Item::Start(tag) => open_tag(t, rows, at, tag, s, n),
        Item::Empty(tag) => open_tag(t, rows, at, tag, s, n),
        Item::End(_, _) => n,
        Item::Text(_, _) => n,
        Item::Comment(_) => n,
        Item::Unreadable(_) => n,
    }
}
