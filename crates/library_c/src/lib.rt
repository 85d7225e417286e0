// The document reader, the note reader and the converter of notes, exported to C and Rust: a lent slice is a pointer and a length there.
#![tactic(auto)]

ghost use Rattle.std.specs.Prelude.{◌≡◌, length};
ghost use Rattle.notes.specs.Reader.{note_in};
ghost use Rattle.reader.specs.Answer.{outcome_of};
ghost use Rattle.library.specs.Cells.{shape_of, PermittedCall, PermittedNote, PermittedConversion};
ghost use Rattle.library.specs.Version.{library_version};

#[unsafe(no_mangle)]
pub extern "C" fn lumintayag_version() -> u32
    ensures { result ≡ library_version }
{
    library::lumintayag_version()
}

#[unsafe(no_mangle)]
pub extern "C" fn lumintayag_read_v3(
    doc: &[u8],
    series: &mut [u32],
    positions: &mut [u32],
    amounts: &mut [i64],
    shape: u32,
    note: &mut [u8],
    answer: &mut [u32],
) -> u32
    ensures { PermittedCall
        (outcome_of doc.now series.old positions.old amounts.old (shape_of shape) note.old)
        (length answer.old)
        result series.new positions.new amounts.new note.new answer.new }
{
    library::lumintayag_read_v3(doc, series, positions, amounts, shape, note, answer)
}

#[unsafe(no_mangle)]
pub extern "C" fn lumintayag_read_note_v2(note: &[u8], six: &mut [u32]) -> u32
    ensures { PermittedNote (note_in note.now) (length six.old) result six.new }
{
    library::lumintayag_read_note_v2(note, six)
}

#[unsafe(no_mangle)]
pub extern "C" fn lumintayag_convert_note(
    note: &[u8],
    shape: u32,
    out: &mut [u8],
    answer: &mut [u32],
) -> u32
    ensures { PermittedConversion note.now (shape_of shape) (length out.old) (length answer.old)
        result out.new answer.new }
{
    library::lumintayag_convert_note(note, shape, out, answer)
}
