// The names of elements, by their numbers.
ghost use Rattle.std.specs.Prelude.{◌≡◌, ◌+◌, ◌≤◌, length};
ghost use Rattle.std.proofs.lemmas.List.Edits.{sets};
ghost use Rattle.putting.specs.Sheet.{landed, name_text, later_text};

use crate::texts::put_bytes;

// What Kostenblatt and NetworkConstraintDocument have besides, and no bytes for a number that no element has.
fn put_later_name(out: &mut [u8], at: usize, e: usize) -> usize
    requires place { at ≤ length out.old + 1 }
    ensures answer { result ≡ landed out.old at (later_text e) }
    ensures buffer { out.new ≡ sets out.old at (later_text e) }
{
    match e {
        32 => put_bytes(out, at, b"Kostenblatt"),
        33 => put_bytes(out, at, b"CostTimeSeries"),
        34 => put_bytes(out, at, b"Direction"),
        35 => put_bytes(out, at, b"ConnectingArea"),
        36 => put_bytes(out, at, b"ResourceObject"),
        37 => put_bytes(out, at, b"ResourceProvider"),
        38 => put_bytes(out, at, b"CurveType"),
        39 => put_bytes(out, at, b"Status"),
        40 => put_bytes(out, at, b"NetworkConstraintDocument"),
        41 => put_bytes(out, at, b"DocStatus"),
        42 => put_bytes(out, at, b"NetworkConstraintTimeSeries"),
        43 => put_bytes(out, at, b"RequestingGridOperator"),
        44 => put_bytes(out, at, b"GridElement"),
        _ => at,
    }
}

// Those of Beschaffungsanforderung, and the others.
pub(crate) fn put_name(out: &mut [u8], at: usize, e: usize) -> usize
    requires place { at ≤ length out.old + 1 }
    ensures answer { result ≡ landed out.old at (name_text e) }
    ensures buffer { out.new ≡ sets out.old at (name_text e) }
{
    match e {
        1 => put_bytes(out, at, b"Beschaffungsanforderung"),
        2 => put_bytes(out, at, b"DocumentIdentification"),
        3 => put_bytes(out, at, b"DocumentVersion"),
        4 => put_bytes(out, at, b"DocumentType"),
        5 => put_bytes(out, at, b"ProcessType"),
        6 => put_bytes(out, at, b"SenderIdentification"),
        7 => put_bytes(out, at, b"SenderRole"),
        8 => put_bytes(out, at, b"ReceiverIdentification"),
        9 => put_bytes(out, at, b"ReceiverRole"),
        10 => put_bytes(out, at, b"DocumentDateTime"),
        11 => put_bytes(out, at, b"TimePeriodCovered"),
        12 => put_bytes(out, at, b"ScheduleTimeSeries"),
        13 => put_bytes(out, at, b"TimeSeriesIdentification"),
        14 => put_bytes(out, at, b"BusinessType"),
        15 => put_bytes(out, at, b"Product"),
        16 => put_bytes(out, at, b"InArea"),
        17 => put_bytes(out, at, b"OutArea"),
        18 => put_bytes(out, at, b"InParty"),
        19 => put_bytes(out, at, b"OutParty"),
        20 => put_bytes(out, at, b"MeasurementUnit"),
        21 => put_bytes(out, at, b"OriginalSenderIdentification"),
        22 => put_bytes(out, at, b"OriginalDocumentIdentification"),
        23 => put_bytes(out, at, b"OriginalDocumentVersion"),
        24 => put_bytes(out, at, b"OriginalDocumentDateTime"),
        25 => put_bytes(out, at, b"OriginalTimeSeriesIdentification"),
        26 => put_bytes(out, at, b"Period"),
        27 => put_bytes(out, at, b"TimeInterval"),
        28 => put_bytes(out, at, b"Resolution"),
        29 => put_bytes(out, at, b"Interval"),
        30 => put_bytes(out, at, b"Pos"),
        31 => put_bytes(out, at, b"Qty"),
        _ => put_later_name(out, at, e),
    }
}
