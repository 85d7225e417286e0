// The elements of all kinds by number, so that the rest compares numbers and no names.
#![tactic(auto)]

ghost use Rattle.std.specs.Prelude.{◌≡◌, ◌+◌, ◌≤◌, length, drop};
ghost use Rattle.elements.specs.Names.{element_no};
ghost use Rattle.elements.specs.Row.{picked, told_in};

use slices::is_same;

// The elements of Beschaffungsanforderung, in the order of its structure table.
pub const BESCHAFFUNGSANFORDERUNG: usize = 1;

pub const DOCUMENT_IDENTIFICATION: usize = 2;

pub const DOCUMENT_VERSION: usize = 3;

pub const DOCUMENT_TYPE: usize = 4;

pub const PROCESS_TYPE: usize = 5;

pub const SENDER_IDENTIFICATION: usize = 6;

pub const SENDER_ROLE: usize = 7;

pub const RECEIVER_IDENTIFICATION: usize = 8;

pub const RECEIVER_ROLE: usize = 9;

pub const DOCUMENT_DATE_TIME: usize = 10;

pub const TIME_PERIOD_COVERED: usize = 11;

pub const SCHEDULE_TIME_SERIES: usize = 12;

pub const TIME_SERIES_IDENTIFICATION: usize = 13;

pub const BUSINESS_TYPE: usize = 14;

pub const PRODUCT: usize = 15;

pub const IN_AREA: usize = 16;

pub const OUT_AREA: usize = 17;

pub const IN_PARTY: usize = 18;

pub const OUT_PARTY: usize = 19;

pub const MEASUREMENT_UNIT: usize = 20;

pub const ORIGINAL_SENDER_IDENTIFICATION: usize = 21;

pub const ORIGINAL_DOCUMENT_IDENTIFICATION: usize = 22;

pub const ORIGINAL_DOCUMENT_VERSION: usize = 23;

pub const ORIGINAL_DOCUMENT_DATE_TIME: usize = 24;

pub const ORIGINAL_TIME_SERIES_IDENTIFICATION: usize = 25;

pub const PERIOD: usize = 26;

pub const TIME_INTERVAL: usize = 27;

pub const RESOLUTION: usize = 28;

pub const INTERVAL: usize = 29;

pub const POS: usize = 30;

pub const QTY: usize = 31;

// What Kostenblatt has besides.
pub const KOSTENBLATT: usize = 32;

pub const COST_TIME_SERIES: usize = 33;

pub const DIRECTION: usize = 34;

pub const CONNECTING_AREA: usize = 35;

pub const RESOURCE_OBJECT: usize = 36;

pub const RESOURCE_PROVIDER: usize = 37;

pub const CURVE_TYPE: usize = 38;

pub const STATUS: usize = 39;

// What NetworkConstraintDocument has besides.
pub const NETWORK_CONSTRAINT_DOCUMENT: usize = 40;

pub const DOC_STATUS: usize = 41;

pub const NETWORK_CONSTRAINT_TIME_SERIES: usize = 42;

pub const REQUESTING_GRID_OPERATOR: usize = 43;

pub const GRID_ELEMENT: usize = 44;

// The number of the entry at i in a row of names, where its n letters are the name: the two digits after them. Else `other`.
fn pick(row: &[u8], i: usize, n: usize, name: &[u8], other: usize) -> usize
    requires { i + n + 2 ≤ length row.now }
    ensures { result ≡ picked n name.now other (drop i row.now) }
{
    let to = i + n;
    if is_same(&row[i..to], name) {
        return (row[to] % 16) as usize * 10 + (row[to + 1] % 16) as usize;
    }
    other
}

// The number of the name in a row of names of n letters, each with its two digits after it and a space before the next; 0 where it is none of them.
// It looks at all of them: with a return in the loop LLVM would put the row into memory at each call.
fn told(row: &[u8], n: usize, name: &[u8]) -> usize
    requires { n ≤ 32 }
    ensures { result ≡ told_in n name.now row.now }
{
    let mut found = 0;
    let mut i = 0;
    while i + n + 2 <= row.len() {
        found = pick(row, i, n, name, found);
        i += n + 3;
    }
    found
}

// The number of an element's name, 0 for a name that no kind has. The names of each length stand in a row, that with the highest number first.
// Ruled out: 0 for the last name of the table; the number of a name that only begins alike; a known name in other letter case.
// Longer than other functions since it is a table, an arm for each length: in two parts it is no plainer.
pub fn element_no(name: &[u8]) -> usize
    ensures { result ≡ element_no name.now }
{
    match name.len() {
        0 => told(b"", 0, name),
        1 => told(b"", 1, name),
        2 => told(b"", 2, name),
        3 => told(b"Qty31 Pos30", 3, name),
        4 => told(b"", 4, name),
        5 => told(b"", 5, name),
        6 => told(b"Status39 Period26 InArea16", 6, name),
        7 => told(b"InParty18 OutArea17 Product15", 7, name),
        8 => told(b"Interval29 OutParty19", 8, name),
        9 => told(b"DocStatus41 CurveType38 Direction34", 9, name),
        10 => told(b"Resolution28 SenderRole07", 10, name),
        11 => told(b"GridElement44 Kostenblatt32 ProcessType05", 11, name),
        12 => told(
            b"TimeInterval27 BusinessType14 ReceiverRole09 DocumentType04",
            12,
            name,
        ),
        13 => told(b"", 13, name),
        14 => told(
            b"ResourceObject36 ConnectingArea35 CostTimeSeries33",
            14,
            name,
        ),
        15 => told(b"MeasurementUnit20 DocumentVersion03", 15, name),
        16 => told(b"ResourceProvider37 DocumentDateTime10", 16, name),
        17 => told(b"TimePeriodCovered11", 17, name),
        18 => told(b"ScheduleTimeSeries12", 18, name),
        19 => told(b"", 19, name),
        20 => told(b"SenderIdentification06", 20, name),
        21 => told(b"", 21, name),
        22 => told(
            b"RequestingGridOperator43 ReceiverIdentification08 DocumentIdentification02",
            22,
            name,
        ),
        23 => told(
            b"OriginalDocumentVersion23 Beschaffungsanforderung01",
            23,
            name,
        ),
        24 => told(
            b"OriginalDocumentDateTime24 TimeSeriesIdentification13",
            24,
            name,
        ),
        25 => told(b"NetworkConstraintDocument40", 25, name),
        26 => told(b"", 26, name),
        27 => told(b"NetworkConstraintTimeSeries42", 27, name),
        28 => told(b"OriginalSenderIdentification21", 28, name),
        29 => told(b"", 29, name),
        30 => told(b"OriginalDocumentIdentification22", 30, name),
        31 => told(b"", 31, name),
        32 => told(b"OriginalTimeSeriesIdentification25", 32, name),
        33.. => 0,
    }
}
