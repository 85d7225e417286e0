// The document reader, the note reader and the converter of notes, as library_c exports them to C and Rust: each takes lent slices alone, and an answer's numbers
// stand in one of them.
#![tactic(auto)]

ghost use Rattle.std.specs.Prelude.{◌≡◌, ◌≤◌, [], ◌∷◌, length, Err};
ghost use Rattle.notes.specs.Reader.{note_in};
ghost use Rattle.notes.specs.Converter.{convert_refusal, convert_length};
ghost use Rattle.reader.specs.Answer.{outcome_of};
ghost use Rattle.library.specs.Cells.{cells, shape_of, seven_of, two_of, PermittedCall, PermittedNote, PermittedConversion};
ghost use Rattle.library.specs.Version.{library_version};

use notes::{ConvertError, Shape, convert_note, read_note};
use reader::{Answer, read};
use refusals::{NO_REFUSAL, Refusal};
use tables::set_number;

// A function whose arguments, cells or rows are laid out anew gets a new name, so that no program is linked with a layout it does not know.
const VERSION: u32 = 800;

// The version of the exported functions, by which a program tells whether it was compiled with the header of this archive.
pub fn lumintayag_version() -> u32
    ensures { result ≡ library_version }
{
    VERSION
}

// The numbers from the first cell on, as far as there are cells, and 0 in those after them.
fn put_numbers(t: &mut [u32], ns: &[u32])
    ensures { t.new ≡ cells (length t.old) ns.now }
{
    t.fill(0);
    for i in 0..ns.len() {
        set_number(t, i, ns[i]);
    }
}

// The old shape for 0, and the new one for any other number. No From: which number asks for which shape is the C interface's, not the note's.
fn shape_of(n: u32) -> Shape
    ensures { result ≡ shape_of n }
{
    if n == 0 {
        return Shape::Old;
    }
    Shape::New
}

fn put_answer(t: &mut [u32], a: Answer)
    requires { a.note ≤ 35 }
    ensures { t.new ≡ cells (length t.old) (seven_of a) }
{
    let len = a.note as u32;
    let ns = [
        a.refusal,
        a.place,
        a.kind,
        a.series,
        a.intervals,
        a.quarters,
        len,
    ];
    put_numbers(t, &ns);
}

// Reads a document into the lent tables, writes the note of it, in the old shape for 0 and in the new one for any other number, puts the answer's seven numbers
// into `answer`, and answers the refusal.
// Ruled out: a number of the answer in another one's cell; 0 for a refused document, or a refusal for an accepted one; a cell past the
// seventh left as it was; tables or a note that are not the document reader's; a note in the other shape.
pub fn lumintayag_read_v3(
    doc: &[u8],
    series: &mut [u32],
    positions: &mut [u32],
    amounts: &mut [i64],
    shape: u32,
    note: &mut [u8],
    answer: &mut [u32],
) -> u32
    ensures { PermittedCall
        (outcome_of doc.now series.old positions.old amounts.old (shape_of shape) note.old)
        (length answer.old)
        result series.new positions.new amounts.new note.new answer.new }
{
    let a = read(doc, series, positions, amounts, shape_of(shape), note);
    put_answer(answer, a);
    a.refusal
}

// Puts the numbers of a note of either shape into `six`, the depth last, and answers 0; where the bytes aren't one note, six zeros and 11.
// Ruled out: numbers left in `six` on 11; 0 for bytes with anything after the note; the six in another order; a depth for an old note.
pub fn lumintayag_read_note_v2(note: &[u8], six: &mut [u32]) -> u32
    ensures { PermittedNote (note_in note.now) (length six.old) result six.new }
{
    match read_note(note) {
        Some(n) => {
            let ns = [n.refusal, n.place, n.kind, n.series, n.intervals, n.depth];
            put_numbers(six, &ns);
            NO_REFUSAL
        }
        None => {
            let none = [0u32; 6];
            put_numbers(six, &none);
            Refusal::NotOneNote.number()
        }
    }
}

// A refusal and a length in the first two cells; the refusal is answered.
fn put_pair(t: &mut [u32], refusal: u32, len: u32) -> u32
    ensures answer { result ≡ refusal }
    ensures pair { t.new ≡ cells (length t.old) (refusal ∷ len ∷ []) }
{
    let ns = [refusal, len];
    put_numbers(t, &ns);
    refusal
}

fn refusal_of(e: ConvertError) -> u32
    ensures { result ≡ convert_refusal (Err e) }
{
    match e {
        ConvertError::OutShort => Refusal::BufferShort.number(),
        ConvertError::NeitherShape => Refusal::NotOneNote.number(),
    }
}

fn put_converted(t: &mut [u32], c: Result<usize, ConvertError>) -> u32
    requires { convert_length c ≤ 35 }
    ensures answer { result ≡ convert_refusal c }
    ensures pair { t.new ≡ cells (length t.old) (two_of c) }
{
    match c {
        Ok(k) => put_pair(t, NO_REFUSAL, k as u32),
        Err(e) => put_pair(t, refusal_of(e), 0),
    }
}

// Writes the note in the shape that is asked for, the old one for 0 and the new one for any other number, puts the refusal and the note's length into `answer`, and answers the refusal.
// Ruled out: bytes left past the note, or on a refusal; 11 where the output is too short as well; the length of the note that was read; a third cell of `answer` left as it was.
pub fn lumintayag_convert_note(note: &[u8], shape: u32, out: &mut [u8], answer: &mut [u32]) -> u32
    ensures { PermittedConversion note.now (shape_of shape) (length out.old) (length answer.old)
        result out.new answer.new }
{
    let c = convert_note(note, shape_of(shape), out);
    put_converted(answer, c)
}
