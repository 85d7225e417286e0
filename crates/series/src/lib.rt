// The row of a series in the series table: which cell holds what, and for how many rows a table has room.
#![tactic(auto)]

ghost use Rattle.std.specs.Prelude.{◌≡◌, ◌≤◌, ◌<◌};
ghost use Rattle.series.specs.Row.{cell_of, is_view, drops_spaces, row_width, room_for, cell_at, field_at, with_field, with_view, view};

use slices::part;
use tables::{number_at, set_number};

// The fields of a row, in their order. The first five are views: start and length in two cells.
#[derive(Clone, Copy)]
pub enum Field {
    Identification,
    Object,
    BusinessType,
    Direction,
    Area,
    FirstRow,
    Count,
}

// How many numbers a series takes.
pub const WIDTH: usize = 12;

// How many rows a table of n cells has room for. Ruled out: a row that runs past the table.
pub fn rows_in(n: usize) -> usize
    ensures { result ≡ room_for n }
{
    n / WIDTH
}

impl Field {
    // Whether a field is a view. Ruled out: a count taken for the start of one.
    pub fn is_view(self) -> bool
        ensures { result ≡ is_view self }
    {
        !matches!(self, Field::FirstRow | Field::Count)
    }

    // Whether a view has its "spaces dropped". Ruled out: an area without its spaces.
    pub fn drops_spaces(self) -> bool
        ensures { result ≡ drops_spaces self }
    {
        matches!(self, Field::BusinessType | Field::Direction)
    }

    fn cell(self) -> usize
        ensures cell { result ≡ cell_of self }
        ensures size { result < row_width }
    {
        match self {
            Field::Identification => 0,
            Field::Object => 2,
            Field::BusinessType => 4,
            Field::Direction => 6,
            Field::Area => 8,
            Field::FirstRow => 10,
            Field::Count => 11,
        }
    }
}

fn cell_at(row: u32, f: Field) -> usize
    ensures cell { result ≡ cell_at row f }
    ensures size { result ≤ 1099511627776 }
{
    WIDTH * (row as usize) + f.cell()
}

// The number in a field of a row, and 0 past the end of the table. Ruled out: another row's number, and that of another field.
pub fn field_of(t: &[u32], row: u32, f: Field) -> u32
    ensures { result ≡ field_at t.now row f }
{
    number_at(t, cell_at(row, f))
}

// Sets a field of a row to n. Ruled out: another row's field set, and another field of the row.
pub fn set_field(t: &mut [u32], row: u32, f: Field, n: u32)
    ensures { t.new ≡ with_field t.old row f n }
{
    set_number(t, cell_at(row, f), n);
}

// Sets a view of a row. Ruled out: a start without its length, and the length in the start's cell.
#[tactic(auto, unfolding(crate::specs::Row::with_view))]
pub fn set_view(t: &mut [u32], row: u32, f: Field, start: u32, len: u32)
    ensures { t.new ≡ with_view t.old row f start len }
{
    let i = cell_at(row, f);
    set_number(t, i, start);
    set_number(t, i + 1, len);
}

// The part of the document that a view of a row shows. Ruled out: the bytes from the start on, however long the view is.
#[tactic(auto, unfolding(crate::specs::Row::view))]
pub fn view_of<'a>(doc: &'a [u8], t: &[u32], row: u32, f: Field) -> &'a [u8]
    ensures { result.now ≡ view doc.now t.now row f }
{
    let i = cell_at(row, f);
    let start = number_at(t, i) as usize;
    let len = number_at(t, i + 1) as usize;
    part(doc, start, len)
}
