// The writer, and a value of a document as the text that it says, exported to C and Rust.
#![tactic(auto)]

ghost use Rattle.std.specs.Prelude.{length};
ghost use Rattle.drafts.specs.Fit.{draft_of};
ghost use Rattle.drafts.specs.Written.{written_of};
ghost use Rattle.writer.specs.Permitted.{PermittedWrite, PermittedText};

#[unsafe(no_mangle)]
pub extern "C" fn lumintayag_write(
    kind: u32,
    text: &[u8],
    pairs: &[u32],
    count: u32,
    series: &[u32],
    positions: &[u32],
    amounts: &[i64],
    out: &mut [u8],
    answer: &mut [u32],
) -> u32
    ensures { PermittedWrite (written_of (draft_of kind text.now pairs.now count series.now positions.now amounts.now)
        (length out.old)) (length answer.old) result out.new answer.new }
{
    writer::lumintayag_write(
        kind, text, pairs, count, series, positions, amounts, out, answer,
    )
}

#[unsafe(no_mangle)]
pub extern "C" fn lumintayag_unescape(value: &[u8], out: &mut [u8]) -> usize
    ensures { PermittedText value.now out.old result out.new }
{
    writer::lumintayag_unescape(value, out)
}
