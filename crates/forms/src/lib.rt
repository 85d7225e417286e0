// Forms of values that are judged character by character.
#![tactic(auto)]

ghost use Rattle.std.specs.Prelude.{◌≡◌};
ghost use Rattle.characters.specs.Says.{says};
ghost use Rattle.forms.specs.Forms.{identification, grid_element, market_partner, resource_object, party, quarter_hour};

use characters::count_chars;
use pictures::{fits, is_said};

// Ruled out: false for twenty `ä`, whose bytes are forty; false for an empty value; true for 36 characters.
pub fn is_identification(v: &[u8]) -> bool
    ensures { result ≡ identification (says v.now) }
{
    count_chars(v) <= 35
}

// Ruled out: true for 37 characters; false for 36 `ä`, whose bytes are 72; false for an empty value.
pub fn is_grid_element(v: &[u8]) -> bool
    ensures { result ≡ grid_element (says v.now) }
{
    count_chars(v) <= 36
}

// Ruled out: true for twelve digits, for fourteen, or with a space at an end.
pub fn is_market_partner(v: &[u8]) -> bool
    ensures { result ≡ market_partner (says v.now) }
{
    fits(b"9999999999999", v)
}

// Ruled out: true for a first letter D, for a small letter, or for a letter at the end.
pub fn is_resource_object(v: &[u8]) -> bool
    ensures { result ≡ resource_object (says v.now) }
{
    fits(b"?XXXXXXXXX9", v)
}

// Ruled out: true for fifteen characters, or for an underscore among sixteen; false for sixteen dashes.
pub fn is_party(v: &[u8]) -> bool
    ensures { result ≡ party (says v.now) }
{
    fits(b"################", v)
}

// Ruled out: true for `PT60M`, for `PT900S`, or for an empty value.
pub fn is_quarter_hour(v: &[u8]) -> bool
    ensures { result ≡ quarter_hour (says v.now) }
{
    is_said(b"PT15M", v)
}
