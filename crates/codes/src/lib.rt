// Code lists, and whether a value is in one. The codes of a list are equally long, and stand in a row with single spaces between them.
#![tactic(auto)]

ghost use Rattle.std.specs.Prelude.{◌≡◌, ◌≤◌};
ghost use Rattle.characters.specs.Says.{says};
ghost use Rattle.codes.specs.Lists.{listed, codes_of};
ghost use Rattle.codes.specs.Words.{words};

use columns::{
    AREA_LIST, BUSINESS_TYPE_ONE_LIST, BUSINESS_TYPE_THREE_LIST, BUSINESS_TYPE_TWO_LIST,
    CURVE_TYPE_LIST, DIRECTION_LIST, DOC_STATUS_LIST, DOCUMENT_TYPE_ONE_LIST,
    DOCUMENT_TYPE_THREE_LIST, DOCUMENT_TYPE_TWO_LIST, EIC_SCHEME_LIST, GRID_SCHEME_LIST,
    PARTY_SCHEME_LIST, PROCESS_TYPE_LIST, PRODUCT_LIST, RESOURCE_SCHEME_LIST,
    RESOURCE_SCHEME_THREE_LIST, ROLE_LIST, SENDER_ROLE_TWO_LIST, STATUS_LIST, UNIT_ONE_LIST,
    UNIT_THREE_LIST, UNIT_TWO_LIST,
};
use pictures::is_said;
use slices::front;

// Whether a value is one of the codes of n bytes in a row.
fn is_among(codes: &[u8], n: usize, v: &[u8]) -> bool
    requires { n ≤ 16 }
    ensures { result ≡ listed (words n codes.now) (says v.now) }
{
    let mut i = 0;
    while i < codes.len() {
        let left = &codes[i..];
        if is_said(front(left, n), v) {
            return true;
        }
        i += n + 1;
    }
    false
}

// Whether a value is in the code list of a number; a number that no list has lists nothing.
// Ruled out: true for a code of another list, for a code with a space at an end, for an area with a dash lost; false for the last code of a list.
pub fn is_listed(list: usize, v: &[u8]) -> bool
    ensures { result ≡ listed (codes_of list) (says v.now) }
{
    match list {
        DOCUMENT_TYPE_ONE_LIST => is_among(b"Z07", 3, v),
        DOCUMENT_TYPE_TWO_LIST => is_among(b"Z05", 3, v),
        PROCESS_TYPE_LIST => is_among(b"A14", 3, v),
        PARTY_SCHEME_LIST => is_among(b"A10 NDE", 3, v),
        EIC_SCHEME_LIST => is_among(b"A01", 3, v),
        RESOURCE_SCHEME_LIST => is_among(b"NDE", 3, v),
        ROLE_LIST => is_among(b"A18 A39", 3, v),
        SENDER_ROLE_TWO_LIST => is_among(b"A18 A27 A39", 3, v),
        BUSINESS_TYPE_ONE_LIST => is_among(b"A02", 3, v),
        BUSINESS_TYPE_TWO_LIST => is_among(b"A01 A04 Z01 Z02 Z03", 3, v),
        DIRECTION_LIST => is_among(b"A01 A02", 3, v),
        PRODUCT_LIST => is_among(b"8716867000016", 13, v),
        AREA_LIST => is_among(
            b"10YDE-ENBW-----N 10YDE-EON------1 10YDE-RWENET---I 10YDE-VE-------2 10YFLENSBURG---3",
            16,
            v,
        ),
        CURVE_TYPE_LIST => is_among(b"A03", 3, v),
        UNIT_ONE_LIST => is_among(b"MAW", 3, v),
        UNIT_TWO_LIST => is_among(b"Z01 Z02 Z03", 3, v),
        STATUS_LIST => is_among(b"Z01 Z02 Z03 Z04 Z05", 3, v),
        DOCUMENT_TYPE_THREE_LIST => is_among(b"B15", 3, v),
        DOC_STATUS_LIST => is_among(b"A13", 3, v),
        BUSINESS_TYPE_THREE_LIST => is_among(b"A77 B59", 3, v),
        RESOURCE_SCHEME_THREE_LIST => is_among(b"A01 A02 NDE Z01", 3, v),
        GRID_SCHEME_LIST => is_among(b"A01 A02 Z01", 3, v),
        UNIT_THREE_LIST => is_among(b"C62 MAW", 3, v),
        _ => false,
    }
}
