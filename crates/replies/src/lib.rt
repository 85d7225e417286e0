// What the program prints for its input: the note of a document as a line, or that the input is too long.
#![tactic(auto)]

ghost use Rattle.std.specs.Prelude.{◌≡◌, length};
ghost use Rattle.series.specs.Row.{cells_of};
ghost use Rattle.notes.specs.declared.Shape.TheVariants.{Old};
ghost use Rattle.reader.specs.Answer.{read_of};
ghost use Rattle.replies.specs.Reply.{reply_to, PermittedReply};

use lines::{put_byte, put_hex, put_text};
use notes::Shape;
use series::WIDTH;
use slices::front;

// Writes the note of a document, read into tables of "64 series and 2,048 intervals", in the old shape, and answers the note's length.
fn put_note(doc: &[u8], note: &mut [u8]) -> usize
    ensures count { result ≡ (read_of doc.now (cells_of 64) 2048 2048 Old (length note.old)).answer.note }
    ensures note { note.new ≡ (read_of doc.now (cells_of 64) 2048 2048 Old (length note.old)).note }
{
    let mut series = [0u32; 64 * WIDTH];
    let mut positions = [0u32; 2048];
    let mut amounts = [0i64; 2048];
    let answer = reader::read(
        doc,
        &mut series,
        &mut positions,
        &mut amounts,
        Shape::Old,
        note,
    );
    answer.note
}

// Puts what the program prints for an input at the start of out, as much as it has room for, and answers how many characters.
// Ruled out: the zeros past the note printed as a part of it, and 65,536 bytes taken as too long.
pub fn put_reply(input: &[u8], out: &mut [u8]) -> usize
    ensures { PermittedReply (reply_to input.now) out.old result out.new }
{
    if 65536 < input.len() {
        return put_text(b"too long\n", out);
    }
    let mut note = [0u8; 16];
    let n = put_note(input, &mut note);
    let at = put_hex(front(&note, n), out);
    put_byte(out, at, 10)
}

// Writes the reply to an input to standard output; 48 bytes have room for any (`reply-fits` of proofs/Promises.antt). The contract says
// nothing: what is written is no answer and no lent buffer.
pub fn print_reply(input: &[u8]) {
    let mut text = [0u8; 48];
    let n = put_reply(input, &mut text);
    lines::print_text(&text[..n]);
}
