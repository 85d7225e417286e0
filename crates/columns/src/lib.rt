// A row of a structure table is one number of columns. The columns, and the names of what they hold: forms of `v`, code lists, roles.
// The first four columns are read in crate structure.
#![tactic(auto)]

ghost use Rattle.std.specs.Prelude.{◌≡◌};
ghost use Rattle.columns.specs.Columns.{form_of, collapsed, scheme_of, role_of};

// Columns besides the name, each with room for 256 values or for yes and no: the row that it stands in, whether it has to come, whether it may come
// again, whether leading and trailing spaces of `v` are dropped, the form of `v`, the code list of codingScheme, and what it is to the reader.
pub const IN: usize = 256;

pub const NEEDED: usize = 65536;

pub const AGAIN: usize = 131072;

pub const COLLAPSED: usize = 262144;

pub const V: usize = 16777216;

pub const BY: usize = 4294967296;

pub const AS: usize = 1099511627776;

// Forms of `v`.
pub const NO_FORM: usize = 0;

pub const IDENTIFICATION_FORM: usize = 1;

pub const SERIES_ID_FORM: usize = 2;

pub const PARTNER_FORM: usize = 3;

pub const VERSION_FORM: usize = 4;

pub const DATE_TIME_FORM: usize = 5;

pub const PERIOD_FORM: usize = 6;

pub const INTERVAL_FORM: usize = 7;

pub const RESOLUTION_FORM: usize = 8;

pub const POS_FORM: usize = 9;

pub const AMOUNT_FORM: usize = 10;

pub const OBJECT_FORM: usize = 11;

pub const PARTY_FORM: usize = 12;

pub const GRID_ELEMENT_FORM: usize = 13;

// Code lists, by their places in section 5 of docs/GUIDELINE.md, counted from 0.
pub const DOCUMENT_TYPE_ONE_LIST: usize = 0;

pub const DOCUMENT_TYPE_TWO_LIST: usize = 1;

pub const PROCESS_TYPE_LIST: usize = 2;

pub const PARTY_SCHEME_LIST: usize = 3;

pub const EIC_SCHEME_LIST: usize = 4;

pub const RESOURCE_SCHEME_LIST: usize = 5;

pub const ROLE_LIST: usize = 6;

pub const SENDER_ROLE_TWO_LIST: usize = 7;

pub const BUSINESS_TYPE_ONE_LIST: usize = 8;

pub const BUSINESS_TYPE_TWO_LIST: usize = 9;

pub const DIRECTION_LIST: usize = 10;

pub const PRODUCT_LIST: usize = 11;

pub const AREA_LIST: usize = 12;

pub const CURVE_TYPE_LIST: usize = 13;

pub const UNIT_ONE_LIST: usize = 14;

pub const UNIT_TWO_LIST: usize = 15;

pub const STATUS_LIST: usize = 16;

pub const DOCUMENT_TYPE_THREE_LIST: usize = 17;

pub const DOC_STATUS_LIST: usize = 18;

pub const BUSINESS_TYPE_THREE_LIST: usize = 19;

pub const RESOURCE_SCHEME_THREE_LIST: usize = 20;

pub const GRID_SCHEME_LIST: usize = 21;

pub const UNIT_THREE_LIST: usize = 22;

// A form from here on is a code list: this and the list's number.
pub const IN_LIST: usize = 32;

// The column of codingScheme has this and the list's number.
pub const NO_SCHEME: usize = 0;

pub const BY_LIST: usize = 1;

// What a row is to the reader.
pub const VALUE_ROLE: usize = 0;

pub const ROOT_ROLE: usize = 1;

pub const SERIES_ROLE: usize = 2;

pub const PERIOD_ROLE: usize = 3;

pub const INTERVAL_ROLE: usize = 4;

pub const ORIGINAL_ROLE: usize = 5;

pub const OBJECT_ROLE: usize = 6;

pub const BUSINESS_ROLE: usize = 7;

pub const SERIES_ID_ROLE: usize = 8;

pub const POS_ROLE: usize = 9;

pub const QTY_ROLE: usize = 10;

pub const DIRECTION_ROLE: usize = 11;

pub const AREA_ROLE: usize = 12;

// The form of the element's `v`. Ruled out: the columns after it left in, and a code list's number without IN_LIST.
pub fn form_of(w: usize) -> usize
    ensures { result ≡ form_of w }
{
    w / V % 256
}

// Whether spaces are dropped at both ends of `v`. Ruled out: true where the guideline says nothing; true for every row.
pub fn is_collapsed(w: usize) -> bool
    ensures { result ≡ collapsed w }
{
    w / COLLAPSED % 2 == 1
}

// The code list of the element's codingScheme and BY_LIST. Ruled out: the list of `v`, and NO_SCHEME for the first list.
pub fn scheme_of(w: usize) -> usize
    ensures { result ≡ scheme_of w }
{
    w / BY % 256
}

// What the row is to the reader. Ruled out: another column, and a role for a row that is only a value.
pub fn role_of(w: usize) -> usize
    ensures { result ≡ role_of w }
{
    w / AS % 256
}
