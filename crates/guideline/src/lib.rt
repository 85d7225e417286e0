// What the guideline says of the kinds, as data: the rows of each, as docs/GUIDELINE.md has them in sections 2 to 4, and what else differs by kind.
// The rows of all kinds are one table. It is made once, where the reading begins, and lent down as a slice.
#![tactic(auto)]

ghost use Rattle.std.specs.Prelude.{◌≡◌, length, take, drop};
ghost use Rattle.slices.specs.Same.{same};
ghost use Rattle.characters.specs.Says.{says};
ghost use Rattle.guideline.specs.Rows.{every_row, rows_in};
ghost use Rattle.guideline.specs.Kinds.{no_demands, message_alone, version_and_release, no_kind, kind_one, kind_two, kind_three, kind_at, kind_of, fixed_one, fixed_two, fixed_three, fixed_for, takes_another, has_enough};

use columns::AGAIN;
use columns::AMOUNT_FORM;
use columns::AREA_LIST;
use columns::AREA_ROLE;
use columns::AS;
use columns::BUSINESS_ROLE;
use columns::BUSINESS_TYPE_ONE_LIST;
use columns::BUSINESS_TYPE_THREE_LIST;
use columns::BUSINESS_TYPE_TWO_LIST;
use columns::BY;
use columns::BY_LIST;
use columns::COLLAPSED;
use columns::CURVE_TYPE_LIST;
use columns::DATE_TIME_FORM;
use columns::DIRECTION_LIST;
use columns::DIRECTION_ROLE;
use columns::DOC_STATUS_LIST;
use columns::DOCUMENT_TYPE_ONE_LIST;
use columns::DOCUMENT_TYPE_THREE_LIST;
use columns::DOCUMENT_TYPE_TWO_LIST;
use columns::EIC_SCHEME_LIST;
use columns::GRID_ELEMENT_FORM;
use columns::GRID_SCHEME_LIST;
use columns::IDENTIFICATION_FORM;
use columns::IN;
use columns::IN_LIST;
use columns::INTERVAL_FORM;
use columns::INTERVAL_ROLE;
use columns::NEEDED;
use columns::OBJECT_FORM;
use columns::OBJECT_ROLE;
use columns::ORIGINAL_ROLE;
use columns::PARTNER_FORM;
use columns::PARTY_FORM;
use columns::PARTY_SCHEME_LIST;
use columns::PERIOD_FORM;
use columns::PERIOD_ROLE;
use columns::POS_FORM;
use columns::POS_ROLE;
use columns::PROCESS_TYPE_LIST;
use columns::PRODUCT_LIST;
use columns::QTY_ROLE;
use columns::RESOLUTION_FORM;
use columns::RESOURCE_SCHEME_LIST;
use columns::RESOURCE_SCHEME_THREE_LIST;
use columns::ROLE_LIST;
use columns::ROOT_ROLE;
use columns::SENDER_ROLE_TWO_LIST;
use columns::SERIES_ID_FORM;
use columns::SERIES_ID_ROLE;
use columns::SERIES_ROLE;
use columns::STATUS_LIST;
use columns::UNIT_ONE_LIST;
use columns::UNIT_THREE_LIST;
use columns::UNIT_TWO_LIST;
use columns::V;
use columns::VERSION_FORM;
use elements::BESCHAFFUNGSANFORDERUNG;
use elements::BUSINESS_TYPE;
use elements::CONNECTING_AREA;
use elements::COST_TIME_SERIES;
use elements::CURVE_TYPE;
use elements::DIRECTION;
use elements::DOC_STATUS;
use elements::DOCUMENT_DATE_TIME;
use elements::DOCUMENT_IDENTIFICATION;
use elements::DOCUMENT_TYPE;
use elements::DOCUMENT_VERSION;
use elements::GRID_ELEMENT;
use elements::IN_AREA;
use elements::IN_PARTY;
use elements::INTERVAL;
use elements::KOSTENBLATT;
use elements::MEASUREMENT_UNIT;
use elements::NETWORK_CONSTRAINT_DOCUMENT;
use elements::NETWORK_CONSTRAINT_TIME_SERIES;
use elements::ORIGINAL_DOCUMENT_DATE_TIME;
use elements::ORIGINAL_DOCUMENT_IDENTIFICATION;
use elements::ORIGINAL_DOCUMENT_VERSION;
use elements::ORIGINAL_SENDER_IDENTIFICATION;
use elements::ORIGINAL_TIME_SERIES_IDENTIFICATION;
use elements::OUT_AREA;
use elements::OUT_PARTY;
use elements::PERIOD;
use elements::POS;
use elements::PROCESS_TYPE;
use elements::PRODUCT;
use elements::QTY;
use elements::RECEIVER_IDENTIFICATION;
use elements::RECEIVER_ROLE;
use elements::REQUESTING_GRID_OPERATOR;
use elements::RESOLUTION;
use elements::RESOURCE_OBJECT;
use elements::RESOURCE_PROVIDER;
use elements::SCHEDULE_TIME_SERIES;
use elements::SENDER_IDENTIFICATION;
use elements::SENDER_ROLE;
use elements::STATUS;
use elements::TIME_INTERVAL;
use elements::TIME_PERIOD_COVERED;
use elements::TIME_SERIES_IDENTIFICATION;
use pictures::is_said;
use structure::DOCUMENT;

// What a kind asks of an attribute that a root may have: the root may not have it, has it, or may have it.
#[derive(Clone, Copy)]
pub enum Demand {
    NotKnown,
    Asked,
    Optional,
}

// What a kind asks of each of those attributes.
#[derive(Clone, Copy)]
pub struct Demands {
    pub version: Demand,
    pub release: Demand,
    pub message: Demand,
}

impl Demands {
    // Ruled out: one of the three asked for, or let through.
    pub fn none() -> Demands
        ensures { result ≡ no_demands }
    {
        Demands {
            version: Demand::NotKnown,
            release: Demand::NotKnown,
            message: Demand::NotKnown,
        }
    }

    fn message_alone() -> Demands
        ensures { result ≡ message_alone }
    {
        Demands {
            version: Demand::NotKnown,
            release: Demand::NotKnown,
            message: Demand::Asked,
        }
    }

    fn version_and_release() -> Demands
        ensures { result ≡ version_and_release }
    {
        Demands {
            version: Demand::Asked,
            release: Demand::Asked,
            message: Demand::Optional,
        }
    }
}

// Those attributes: DtdVersion, DtdRelease, DtdBDEWNachrichtenVersion. Numbers, since `is_fixed` is promised for any.
pub const DTD_VERSION: usize = 0;

pub const DTD_RELEASE: usize = 1;

pub const DTD_MESSAGE: usize = 2;

// What differs by kind, but for the rows and the fixed values.
#[derive(Clone, Copy)]
pub struct Kind {
    // the number of the root's name
    pub root: usize,
    pub dtd: Demands,
    // the first of its rows among those of all kinds, and how many they are
    pub first: usize,
    pub count: usize,
    // whether TimePeriodCovered is a delivery day
    pub daily: bool,
    // how many Intervals a Period has at least, and at most; UNBOUNDED is no bound
    pub least: usize,
    pub most: usize,
    // whether it has one for each quarter hour
    pub full: bool,
    // whether Pos is counted up by one
    pub counted: bool,
    // whether its series are those of one constraint, by the rules on A77, B59, Direction and DocStatus
    pub constrained: bool,
}

pub const UNBOUNDED: usize = 0;

// The rows of all kinds, one kind after the other; `first` and `count` of a kind say which are its own.
pub const EVERY_ROW: [usize; 100] = [
    // Beschaffungsanforderung
    DOCUMENT + IN * 255 + NEEDED,
    BESCHAFFUNGSANFORDERUNG + IN * 0 + NEEDED + AS * ROOT_ROLE,
    DOCUMENT_IDENTIFICATION + IN * 1 + NEEDED + V * IDENTIFICATION_FORM,
    DOCUMENT_VERSION + IN * 1 + NEEDED + V * VERSION_FORM + COLLAPSED,
    DOCUMENT_TYPE + IN * 1 + NEEDED + V * (IN_LIST + DOCUMENT_TYPE_ONE_LIST) + COLLAPSED,
    PROCESS_TYPE + IN * 1 + NEEDED + V * (IN_LIST + PROCESS_TYPE_LIST) + COLLAPSED,
    SENDER_IDENTIFICATION + IN * 1 + NEEDED + V * PARTNER_FORM + BY * (BY_LIST + PARTY_SCHEME_LIST),
    SENDER_ROLE + IN * 1 + NEEDED + V * (IN_LIST + ROLE_LIST) + COLLAPSED,
    RECEIVER_IDENTIFICATION
        + IN * 1
        + NEEDED
        + V * PARTNER_FORM
        + BY * (BY_LIST + PARTY_SCHEME_LIST),
    RECEIVER_ROLE + IN * 1 + NEEDED + V * (IN_LIST + ROLE_LIST) + COLLAPSED,
    DOCUMENT_DATE_TIME + IN * 1 + NEEDED + V * DATE_TIME_FORM + COLLAPSED,
    TIME_PERIOD_COVERED + IN * 1 + NEEDED + V * PERIOD_FORM,
    SCHEDULE_TIME_SERIES + IN * 1 + NEEDED + AGAIN + AS * SERIES_ROLE,
    TIME_SERIES_IDENTIFICATION + IN * 12 + NEEDED + V * SERIES_ID_FORM + AS * SERIES_ID_ROLE,
    BUSINESS_TYPE
        + IN * 12
        + NEEDED
        + V * (IN_LIST + BUSINESS_TYPE_ONE_LIST)
        + COLLAPSED
        + AS * BUSINESS_ROLE,
    PRODUCT + IN * 12 + NEEDED + V * (IN_LIST + PRODUCT_LIST) + COLLAPSED,
    IN_AREA
        + IN * 12
        + NEEDED
        + V * (IN_LIST + AREA_LIST)
        + BY * (BY_LIST + EIC_SCHEME_LIST)
        + AS * AREA_ROLE,
    OUT_AREA + IN * 12 + NEEDED + V * (IN_LIST + AREA_LIST) + BY * (BY_LIST + EIC_SCHEME_LIST),
    IN_PARTY
        + IN * 12
        + NEEDED
        + V * PARTY_FORM
        + BY * (BY_LIST + EIC_SCHEME_LIST)
        + AS * OBJECT_ROLE,
    OUT_PARTY + IN * 12 + NEEDED + V * PARTY_FORM + BY * (BY_LIST + EIC_SCHEME_LIST),
    MEASUREMENT_UNIT + IN * 12 + NEEDED + V * (IN_LIST + UNIT_ONE_LIST) + COLLAPSED,
    ORIGINAL_SENDER_IDENTIFICATION
        + IN * 12
        + V * PARTNER_FORM
        + BY * (BY_LIST + PARTY_SCHEME_LIST)
        + AS * ORIGINAL_ROLE,
    ORIGINAL_DOCUMENT_IDENTIFICATION + IN * 12 + V * IDENTIFICATION_FORM + AS * ORIGINAL_ROLE,
    ORIGINAL_DOCUMENT_VERSION + IN * 12 + V * VERSION_FORM + AS * ORIGINAL_ROLE,
    ORIGINAL_DOCUMENT_DATE_TIME + IN * 12 + V * DATE_TIME_FORM + COLLAPSED + AS * ORIGINAL_ROLE,
    ORIGINAL_TIME_SERIES_IDENTIFICATION + IN * 12 + V * IDENTIFICATION_FORM + AS * ORIGINAL_ROLE,
    PERIOD + IN * 12 + NEEDED + AS * PERIOD_ROLE,
    TIME_INTERVAL + IN * 26 + NEEDED + V * INTERVAL_FORM,
    RESOLUTION + IN * 26 + NEEDED + V * RESOLUTION_FORM + COLLAPSED,
    INTERVAL + IN * 26 + NEEDED + AGAIN + AS * INTERVAL_ROLE,
    POS + IN * 29 + NEEDED + V * POS_FORM + COLLAPSED + AS * POS_ROLE,
    QTY + IN * 29 + NEEDED + V * AMOUNT_FORM + COLLAPSED + AS * QTY_ROLE,
    // Kostenblatt
    DOCUMENT + IN * 255 + NEEDED,
    KOSTENBLATT + IN * 0 + NEEDED + AS * ROOT_ROLE,
    DOCUMENT_IDENTIFICATION + IN * 1 + NEEDED + V * IDENTIFICATION_FORM,
    DOCUMENT_VERSION + IN * 1 + NEEDED + V * VERSION_FORM + COLLAPSED,
    DOCUMENT_TYPE + IN * 1 + NEEDED + V * (IN_LIST + DOCUMENT_TYPE_TWO_LIST) + COLLAPSED,
    PROCESS_TYPE + IN * 1 + NEEDED + V * (IN_LIST + PROCESS_TYPE_LIST) + COLLAPSED,
    SENDER_IDENTIFICATION + IN * 1 + NEEDED + V * PARTNER_FORM + BY * (BY_LIST + PARTY_SCHEME_LIST),
    SENDER_ROLE + IN * 1 + NEEDED + V * (IN_LIST + SENDER_ROLE_TWO_LIST) + COLLAPSED,
    RECEIVER_IDENTIFICATION
        + IN * 1
        + NEEDED
        + V * PARTNER_FORM
        + BY * (BY_LIST + PARTY_SCHEME_LIST),
    RECEIVER_ROLE + IN * 1 + NEEDED + V * (IN_LIST + ROLE_LIST) + COLLAPSED,
    DOCUMENT_DATE_TIME + IN * 1 + NEEDED + V * DATE_TIME_FORM + COLLAPSED,
    TIME_PERIOD_COVERED + IN * 1 + NEEDED + V * PERIOD_FORM,
    COST_TIME_SERIES + IN * 1 + NEEDED + AGAIN + AS * SERIES_ROLE,
    TIME_SERIES_IDENTIFICATION + IN * 12 + NEEDED + V * SERIES_ID_FORM + AS * SERIES_ID_ROLE,
    BUSINESS_TYPE
        + IN * 12
        + NEEDED
        + V * (IN_LIST + BUSINESS_TYPE_TWO_LIST)
        + COLLAPSED
        + AS * BUSINESS_ROLE,
    DIRECTION + IN * 12 + V * (IN_LIST + DIRECTION_LIST) + COLLAPSED + AS * DIRECTION_ROLE,
    PRODUCT + IN * 12 + NEEDED + V * (IN_LIST + PRODUCT_LIST) + COLLAPSED,
    CONNECTING_AREA
        + IN * 12
        + V * (IN_LIST + AREA_LIST)
        + BY * (BY_LIST + EIC_SCHEME_LIST)
        + AS * AREA_ROLE,
    RESOURCE_OBJECT
        + IN * 12
        + NEEDED
        + V * OBJECT_FORM
        + BY * (BY_LIST + RESOURCE_SCHEME_LIST)
        + AS * OBJECT_ROLE,
    RESOURCE_PROVIDER + IN * 12 + NEEDED + V * PARTNER_FORM + BY * (BY_LIST + PARTY_SCHEME_LIST),
    CURVE_TYPE + IN * 12 + NEEDED + V * (IN_LIST + CURVE_TYPE_LIST) + COLLAPSED,
    MEASUREMENT_UNIT + IN * 12 + NEEDED + V * (IN_LIST + UNIT_TWO_LIST) + COLLAPSED,
    STATUS + IN * 12 + V * (IN_LIST + STATUS_LIST) + COLLAPSED,
    ORIGINAL_SENDER_IDENTIFICATION
        + IN * 12
        + V * PARTNER_FORM
        + BY * (BY_LIST + PARTY_SCHEME_LIST)
        + AS * ORIGINAL_ROLE,
    ORIGINAL_DOCUMENT_IDENTIFICATION + IN * 12 + V * IDENTIFICATION_FORM + AS * ORIGINAL_ROLE,
    ORIGINAL_DOCUMENT_VERSION + IN * 12 + V * VERSION_FORM + AS * ORIGINAL_ROLE,
    ORIGINAL_DOCUMENT_DATE_TIME + IN * 12 + V * DATE_TIME_FORM + COLLAPSED + AS * ORIGINAL_ROLE,
    ORIGINAL_TIME_SERIES_IDENTIFICATION + IN * 12 + V * IDENTIFICATION_FORM + AS * ORIGINAL_ROLE,
    PERIOD + IN * 12 + NEEDED + AS * PERIOD_ROLE,
    TIME_INTERVAL + IN * 28 + NEEDED + V * INTERVAL_FORM,
    RESOLUTION + IN * 28 + NEEDED + V * RESOLUTION_FORM + COLLAPSED,
    INTERVAL + IN * 28 + NEEDED + AGAIN + AS * INTERVAL_ROLE,
    POS + IN * 31 + NEEDED + V * POS_FORM + COLLAPSED + AS * POS_ROLE,
    QTY + IN * 31 + NEEDED + V * AMOUNT_FORM + COLLAPSED + AS * QTY_ROLE,
    // NetworkConstraintDocument
    DOCUMENT + IN * 255 + NEEDED,
    NETWORK_CONSTRAINT_DOCUMENT + IN * 0 + NEEDED + AS * ROOT_ROLE,
    DOCUMENT_IDENTIFICATION + IN * 1 + NEEDED + V * IDENTIFICATION_FORM,
    DOCUMENT_VERSION + IN * 1 + NEEDED + V * VERSION_FORM + COLLAPSED,
    DOCUMENT_TYPE + IN * 1 + NEEDED + V * (IN_LIST + DOCUMENT_TYPE_THREE_LIST) + COLLAPSED,
    PROCESS_TYPE + IN * 1 + NEEDED + V * (IN_LIST + PROCESS_TYPE_LIST) + COLLAPSED,
    SENDER_IDENTIFICATION + IN * 1 + NEEDED + V * PARTNER_FORM + BY * (BY_LIST + PARTY_SCHEME_LIST),
    SENDER_ROLE + IN * 1 + NEEDED + V * (IN_LIST + ROLE_LIST) + COLLAPSED,
    RECEIVER_IDENTIFICATION
        + IN * 1
        + NEEDED
        + V * PARTNER_FORM
        + BY * (BY_LIST + PARTY_SCHEME_LIST),
    RECEIVER_ROLE + IN * 1 + NEEDED + V * (IN_LIST + ROLE_LIST) + COLLAPSED,
    DOCUMENT_DATE_TIME + IN * 1 + NEEDED + V * DATE_TIME_FORM + COLLAPSED,
    TIME_PERIOD_COVERED + IN * 1 + NEEDED + V * PERIOD_FORM,
    DOC_STATUS + IN * 1 + V * (IN_LIST + DOC_STATUS_LIST) + COLLAPSED,
    NETWORK_CONSTRAINT_TIME_SERIES + IN * 1 + AGAIN + AS * SERIES_ROLE,
    TIME_SERIES_IDENTIFICATION + IN * 13 + NEEDED + V * SERIES_ID_FORM + AS * SERIES_ID_ROLE,
    BUSINESS_TYPE
        + IN * 13
        + NEEDED
        + V * (IN_LIST + BUSINESS_TYPE_THREE_LIST)
        + COLLAPSED
        + AS * BUSINESS_ROLE,
    DIRECTION + IN * 13 + NEEDED + V * (IN_LIST + DIRECTION_LIST) + COLLAPSED + AS * DIRECTION_ROLE,
    CONNECTING_AREA
        + IN * 13
        + NEEDED
        + V * (IN_LIST + AREA_LIST)
        + BY * (BY_LIST + EIC_SCHEME_LIST)
        + AS * AREA_ROLE,
    RESOURCE_OBJECT
        + IN * 13
        + NEEDED
        + V * GRID_ELEMENT_FORM
        + BY * (BY_LIST + RESOURCE_SCHEME_THREE_LIST)
        + AS * OBJECT_ROLE,
    RESOURCE_PROVIDER + IN * 13 + V * PARTNER_FORM + BY * (BY_LIST + PARTY_SCHEME_LIST),
    REQUESTING_GRID_OPERATOR + IN * 13 + V * PARTNER_FORM + BY * (BY_LIST + PARTY_SCHEME_LIST),
    GRID_ELEMENT + IN * 13 + V * GRID_ELEMENT_FORM + BY * (BY_LIST + GRID_SCHEME_LIST),
    MEASUREMENT_UNIT + IN * 13 + NEEDED + V * (IN_LIST + UNIT_THREE_LIST) + COLLAPSED,
    ORIGINAL_SENDER_IDENTIFICATION
        + IN * 13
        + V * PARTNER_FORM
        + BY * (BY_LIST + PARTY_SCHEME_LIST)
        + AS * ORIGINAL_ROLE,
    ORIGINAL_DOCUMENT_IDENTIFICATION + IN * 13 + V * IDENTIFICATION_FORM + AS * ORIGINAL_ROLE,
    ORIGINAL_DOCUMENT_VERSION + IN * 13 + V * VERSION_FORM + AS * ORIGINAL_ROLE,
    ORIGINAL_DOCUMENT_DATE_TIME + IN * 13 + V * DATE_TIME_FORM + COLLAPSED + AS * ORIGINAL_ROLE,
    ORIGINAL_TIME_SERIES_IDENTIFICATION + IN * 13 + V * IDENTIFICATION_FORM + AS * ORIGINAL_ROLE,
    PERIOD + IN * 13 + NEEDED + AS * PERIOD_ROLE,
    TIME_INTERVAL + IN * 28 + NEEDED + V * INTERVAL_FORM,
    RESOLUTION + IN * 28 + NEEDED + V * RESOLUTION_FORM + COLLAPSED,
    INTERVAL + IN * 28 + NEEDED + AGAIN + AS * INTERVAL_ROLE,
    POS + IN * 31 + NEEDED + V * POS_FORM + COLLAPSED + AS * POS_ROLE,
    QTY + IN * 31 + NEEDED + V * AMOUNT_FORM + COLLAPSED + AS * QTY_ROLE,
];

// The rows of all kinds. Ruled out: the kinds in another order, and a row that differs in any column from the guideline's.
pub fn every_row() -> [usize; 100]
    ensures rows { result ≡ every_row }
    ensures size { 100 ≡ length result }
{
    EVERY_ROW
}

impl Kind {
    fn one() -> Kind
        ensures { result ≡ kind_one }
    {
        let dtd = Demands::message_alone();
        Kind {
            root: BESCHAFFUNGSANFORDERUNG,
            dtd,
            first: 0,
            count: 32,
            daily: true,
            least: 92,
            most: 100,
            full: true,
            counted: true,
            constrained: false,
        }
    }

    fn two() -> Kind
        ensures { result ≡ kind_two }
    {
        let dtd = Demands::message_alone();
        Kind {
            root: KOSTENBLATT,
            dtd,
            first: 32,
            count: 34,
            daily: false,
            least: 1,
            most: UNBOUNDED,
            full: false,
            counted: false,
            constrained: false,
        }
    }

    fn three() -> Kind
        ensures { result ≡ kind_three }
    {
        let dtd = Demands::version_and_release();
        Kind {
            root: NETWORK_CONSTRAINT_DOCUMENT,
            dtd,
            first: 66,
            count: 34,
            daily: false,
            least: 1,
            most: 100,
            full: false,
            counted: true,
            constrained: true,
        }
    }

    fn unknown() -> Kind
        ensures { result ≡ no_kind }
    {
        let dtd = Demands::none();
        Kind {
            root: 0,
            dtd,
            first: 0,
            count: 0,
            daily: false,
            least: 0,
            most: UNBOUNDED,
            full: false,
            counted: false,
            constrained: false,
        }
    }
}

// What the kind of a number is; a number that no kind has gets no rows. Ruled out: another kind's; kind 2's for every number but 1.
pub fn kind_at(kind: u32) -> Kind
    ensures { result ≡ kind_at kind }
{
    match kind {
        1 => Kind::one(),
        2 => Kind::two(),
        3 => Kind::three(),
        _ => Kind::unknown(),
    }
}

fn rows_from(rows: &[usize], n: usize) -> &[usize]
    ensures { result.now ≡ drop n rows.now }
{
    if n <= rows.len() {
        &rows[n..]
    } else {
        &rows[rows.len()..]
    }
}

fn rows_up_to(rows: &[usize], n: usize) -> &[usize]
    ensures { result.now ≡ take n rows.now }
{
    if n <= rows.len() { &rows[..n] } else { rows }
}

// Of the rows of all kinds those of one. Ruled out: those of the kind before it; a row of another kind; any row before the root has told the kind.
pub fn rows_of(rows: &[usize], kind: u32) -> &[usize]
    ensures { result.now ≡ rows_in rows.now kind }
{
    let k = kind_at(kind);
    rows_up_to(rows_from(rows, k.first), k.count)
}

// The kind that a root's name tells, 0 for a name that is no root's. Ruled out: 2 for every name that is not kind 1's; a kind for the name of another element.
pub fn kind_of_root(name: usize) -> u32
    ensures { result ≡ kind_of name }
{
    if name == BESCHAFFUNGSANFORDERUNG {
        return 1;
    }
    if name == KOSTENBLATT {
        return 2;
    }
    if name == NETWORK_CONSTRAINT_DOCUMENT {
        return 3;
    }
    0
}

#[tactic(auto, unfolding(crate::specs::Kinds::fixed_for, crate::specs::Kinds::fixed_one, crate::specs::Kinds::fixed_two, crate::specs::Kinds::fixed_three))]
fn fixed_for(kind: u32, attribute: usize) -> &'static [u8]
    ensures { result.now ≡ fixed_for kind attribute }
{
    match (kind, attribute) {
        (1 | 2, DTD_MESSAGE) => b"1.0",
        (3, DTD_VERSION) => b"4",
        (3, DTD_RELEASE) => b"1",
        (3, DTD_MESSAGE) => b"1.1a",
        _ => b"",
    }
}

// Whether a value is the fixed one of an attribute of the root, which is no text for an attribute that the kind does not know.
// Ruled out, of DtdBDEWNachrichtenVersion in kinds 1 and 2: true for `1.1`, for `1.0` with a space after it, or for an empty value; in kind 3: for `1.0`.
pub fn is_fixed(kind: u32, attribute: usize, v: &[u8]) -> bool
    ensures { result ≡ same (fixed_for kind attribute) (says v.now) }
{
    is_said(fixed_for(kind, attribute), v)
}

// Whether a Period that has n Intervals takes another. Ruled out: a 101st in kinds 1 and 3; an end to the Intervals of kind 2.
pub fn takes_another(kind: u32, n: usize) -> bool
    ensures { result ≡ takes_another kind n }
{
    let most = kind_at(kind).most;
    if most == UNBOUNDED {
        return true;
    }
    n < most
}

// Whether a Period with n Intervals may end. Ruled out: 91 in kind 1 taken as enough; 1 in kind 2 taken as too few.
pub fn has_enough(kind: u32, n: usize) -> bool
    ensures { result ≡ has_enough kind n }
{
    kind_at(kind).least <= n
}
