// The writer: a draft is judged, then put into the lent output; and a value of a document is put as the text that it says, so that what was read can be written.
#![tactic(auto)]

ghost use Rattle.std.specs.Prelude.{◌≡◌, ◌≤◌, length};
ghost use Rattle.refusals.specs.Refusals.{number};
ghost use Rattle.escapes.specs.Spelled.{unescaped};
ghost use Rattle.drafts.specs.Fit.{draft_of};
ghost use Rattle.drafts.specs.Written.{longest, room_in, written_of};
ghost use Rattle.writer.specs.Permitted.{written, two_in, PermittedWrite, PermittedText};

use escapes::put_unescaped;
use fitting::is_fit;
use lists::clear_bytes;
use putting::put_sheet;
use refusals::{NO_REFUSAL, Refusal};
use tables::{clear_numbers, set_number};

// The longest document.
const LONGEST: usize = 1048576;

// How many bytes of an output a document may take.
fn room_in(n: usize) -> usize
    ensures room { result ≡ room_in n }
    ensures least { result ≤ n }
    ensures most { result ≤ longest }
{
    if n < LONGEST { n } else { LONGEST }
}

// Writes the document of a fit draft into an output that is cleared here, and answers its length, or 0 where it finds no room and the output is left cleared.
fn write_fit(
    kind: u32,
    text: &[u8],
    pairs: &[u32],
    count: u32,
    series: &[u32],
    positions: &[u32],
    amounts: &[i64],
    out: &mut [u8],
) -> usize
    ensures answer { result ≡ (written kind text.now pairs.now count series.now positions.now amounts.now (length out.old)).len }
    ensures buffer { out.new ≡ (written kind text.now pairs.now count series.now positions.now amounts.now (length out.old)).output }
    ensures size { result ≤ longest }
{
    clear_bytes(out);
    let room = room_in(out.len());
    let len = put_sheet(
        &mut out[..room],
        kind,
        text,
        pairs,
        count,
        series,
        positions,
        amounts,
    );
    if room < len {
        clear_bytes(out);
        return 0;
    }
    len
}

// Refusal and length, as far as there are cells, and 0 in those after them.
fn put_two(t: &mut [u32], refusal: u32, len: u32)
    ensures { t.new ≡ two_in (length t.old) refusal len }
{
    clear_numbers(t);
    set_number(t, 0, refusal);
    set_number(t, 1, len);
}

// Answers the refusal too.
fn put_refusal(t: &mut [u32], refusal: Refusal) -> u32
    ensures answer { result ≡ number refusal }
    ensures cells { t.new ≡ two_in (length t.old) (number refusal) 0 }
{
    let n = refusal.number();
    put_two(t, n, 0);
    n
}

// Writes a Beschaffungsanforderung or Kostenblatt into `out` from a text of unescaped values, a pair (start and length in the text) for each value as
// `lumintayag_views` lays them, and the tables that the reader fills; puts refusal and length into `answer`, and answers the refusal.
// Ruled out: a document that the reader would refuse; 12 where a legal document has this content; 13 before 12; a byte left behind in the output of a refusal, or past the document.
pub fn lumintayag_write(
    kind: u32,
    text: &[u8],
    pairs: &[u32],
    count: u32,
    series: &[u32],
    positions: &[u32],
    amounts: &[i64],
    out: &mut [u8],
    answer: &mut [u32],
) -> u32
    ensures { PermittedWrite (written_of (draft_of kind text.now pairs.now count series.now positions.now amounts.now)
        (length out.old)) (length answer.old) result out.new answer.new }
{
    if !is_fit(kind, text, pairs, count, series, positions, amounts) {
        clear_bytes(out);
        return put_refusal(answer, Refusal::ContentUnfit);
    }
    let len = write_fit(kind, text, pairs, count, series, positions, amounts, out);
    if len == 0 {
        return put_refusal(answer, Refusal::NoRoomToWrite);
    }
    put_two(answer, NO_REFUSAL, len as u32);
    NO_REFUSAL
}

// Puts what a value of a document says into `out`, as far as there is room, and answers how many bytes that is: no more than the value has. Bytes past it stay as they were.
// Ruled out: a reference left as it is; a length that counts only what found room.
pub fn lumintayag_unescape(value: &[u8], out: &mut [u8]) -> usize
    ensures { PermittedText value.now out.old result out.new }
{
    put_unescaped(out, value)
}
