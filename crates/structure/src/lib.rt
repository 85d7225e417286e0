// The structure of a document kind, by a table of rows that the caller lends: which start tag and which end tag is due.
// A row is a number of columns; the first four are read here, each by one function.
#![tactic(auto)]

ghost use Rattle.std.specs.Prelude.{◌≡◌, ◌<◌, ◌+◌, length, drop, get_or};
ghost use Rattle.structure.specs.Rows.{name_of, parent_of, required, repeated, next_in, ends_in, start_of, end_at, end_of, ends_at_once, over_of};
ghost use Rattle.structure.specs.Depth.{height_in, depth_of};

// The name of row 0, the document as a whole: no element has it.
pub const DOCUMENT: usize = 255;

// The number of the element's name. Ruled out: another column, and the columns after it left in.
pub fn name_of(w: usize) -> usize
    ensures { result ≡ name_of w }
{
    w % 256
}

// The row that the element stands in. Ruled out: another column, and the columns after it left in.
pub fn parent_of(w: usize) -> usize
    ensures { result ≡ parent_of w }
{
    w / 256 % 256
}

// Whether the element has to come. Ruled out: whether it may come again, and true for every row.
pub fn is_required(w: usize) -> bool
    ensures { result ≡ required w }
{
    w / 65536 % 2 == 1
}

// Whether the element may come again right after itself. Ruled out: whether it has to come, and true for every row.
pub fn is_repeated(w: usize) -> bool
    ensures { result ≡ repeated w }
{
    w / 131072 % 2 == 1
}

// The first of the rows from `from` on that stand in p and bears the name, if no row that has to come stands before it.
fn next_in(t: &[usize], from: usize, p: usize, name: usize) -> Option<usize>
    ensures { result ≡ next_in (drop from t.now) from p name }
{
    for i in from..t.len() {
        let w = t[i];
        if parent_of(w) == p {
            if name_of(w) == name {
                return Some(i);
            }
            if is_required(w) {
                return None;
            }
        }
    }
    None
}

// Whether none of the rows from `from` on stands in p and has to come.
fn ends_in(t: &[usize], from: usize, p: usize) -> bool
    ensures { result ≡ ends_in (drop from t.now) p }
{
    for i in from..t.len() {
        let w = t[i];
        if parent_of(w) == p {
            if is_required(w) {
                return false;
            }
        }
    }
    true
}

// The row that a start tag takes after `row`, the last that was started, which is open or closed.
// Ruled out: a row past one that has to come; the first row of that name wherever it stands; an element that may come once, again.
pub fn start_after(t: &[usize], row: usize, inside: bool, name: usize) -> Option<usize>
    ensures { result ≡ start_of t.now row inside name }
{
    if t.len() <= row {
        return None;
    }
    if inside {
        return next_in(t, row + 1, row, name);
    }
    let w = t[row];
    if is_repeated(w) {
        if name_of(w) == name {
            return Some(row);
        }
    }
    next_in(t, row + 1, parent_of(w), name)
}

// Row p, if it bears the name and may end after `row`.
fn end_at(t: &[usize], row: usize, p: usize, name: usize) -> Option<usize>
    requires { row < length t.now }
    ensures { result ≡ end_at t.now row p name }
{
    if t.len() <= p {
        return None;
    }
    if name_of(t[p]) == name {
        if ends_in(t, row + 1, p) {
            return Some(p);
        }
    }
    None
}

// The row that an end tag closes after `row`, the last that was started, which is open or closed.
// Ruled out: an end with a child missing; an end tag of another name than the open element's; the row itself where it is closed already.
pub fn end_after(t: &[usize], row: usize, inside: bool, name: usize) -> Option<usize>
    ensures { result ≡ end_of t.now row inside name }
{
    if t.len() <= row {
        return None;
    }
    if inside {
        return end_at(t, row, row, name);
    }
    end_at(t, row, parent_of(t[row]), name)
}

// Whether the row has no child that has to come, so that an empty tag may be its start and end.
// Ruled out: true for a row with only its last child required; false for a row with children that need not come.
pub fn ends_at_once(t: &[usize], row: usize) -> bool
    ensures { result ≡ ends_at_once t.now row }
{
    if t.len() <= row {
        return true;
    }
    ends_in(t, row + 1, row)
}

// Whether the document may end here: an end of row 0, the document as a whole, is due.
// Ruled out: true before the root, or with an element open; false after the root's end.
pub fn is_over(t: &[usize], row: usize, inside: bool) -> bool
    ensures { result ≡ over_of t.now row inside }
{
    end_after(t, row, inside, DOCUMENT) == Some(0)
}

// Row r, and 0 past the last.
fn row_at(t: &[usize], r: usize) -> usize
    ensures { result ≡ get_or t.now r 0 }
{
    if r < t.len() {
        return t[r];
    }
    0
}

// How many elements are open where the innermost of them is the row. What is counted ends at 16, so that it ends for any table.
fn height(t: &[usize], row: usize) -> u32
    ensures { result ≡ height_in 16 t.now row }
{
    let mut r = row;
    for n in 0..16 {
        if r == 0 {
            return n;
        }
        r = parent_of(row_at(t, r));
    }
    16
}

// "The count of elements open" after `row`, the last that was started, which is open or closed.
// Ruled out: an element counted that is closed already; the one that is not counted because it has no child yet; row 0, the document, counted as an element.
pub fn depth_after(t: &[usize], row: usize, inside: bool) -> u32
    ensures { result ≡ depth_of t.now row inside }
{
    if inside {
        return height(t, row);
    }
    height(t, parent_of(row_at(t, row)))
}
