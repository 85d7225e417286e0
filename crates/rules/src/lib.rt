// What a row of the guideline asks of a value: its form or code list, and the values that it is held against.
#![tactic(auto)]

ghost use Rattle.std.specs.Prelude.{◌≡◌, ◌+◌, eqb};
ghost use Rattle.characters.specs.Says.{says};
ghost use Rattle.refusals.specs.Refusals.{number, refusal_told};
ghost use Rattle.rules.specs.Judged.{judged_told};
ghost use Rattle.rules.specs.Rules.{unless, is_version, amount, form_refusal, type_no, direction_no, code_no, period_fits, position_fits, judge_period, judge_interval, judge_position, judge};

use codes::is_listed;
use columns::{
    AMOUNT_FORM, BUSINESS_TYPE_THREE_LIST, DATE_TIME_FORM, DIRECTION_LIST, GRID_ELEMENT_FORM,
    IDENTIFICATION_FORM, IN_LIST, INTERVAL_FORM, OBJECT_FORM, PARTNER_FORM, PARTY_FORM,
    PERIOD_FORM, POS_FORM, RESOLUTION_FORM, SERIES_ID_FORM, VERSION_FORM,
};
use forms::{
    is_grid_element, is_identification, is_market_partner, is_party, is_quarter_hour,
    is_resource_object,
};
use guideline::kind_at;
use numbers::{amount_of, number_of};
use pictures::is_said;
use refusals::Refusal;
use times::{interval_of, is_cost_period, is_date_time, is_day_period};

// What a value is held against: the kind; TimePeriodCovered, in minutes, and its quarter hours; the last Pos, 0 before the first.
#[derive(Clone, Copy)]
pub struct Held {
    pub kind: u32,
    pub from: u32,
    pub to: u32,
    pub quarters: u32,
    pub last: u32,
}

// What a value says that is taken: the two minutes of an interval, a Pos, or which code it is where later values are held against it.
#[derive(Clone, Copy)]
pub struct Says {
    pub first: u32,
    pub second: u32,
}

// Codes of kind 3's BusinessType, A77 and B59, and of Direction, A01 and A02.
pub const CHANGE_TYPE: u32 = 1;

pub const BEARING_TYPE: u32 = 2;

pub const UPWARD: u32 = 1;

pub const DOWNWARD: u32 = 2;

impl Says {
    // A value that no other is held against.
    pub const NOTHING: Says = Says {
        first: 0,
        second: 0,
    };
}

fn refused_unless(refusal: Refusal, fits: bool) -> Result<(), Refusal>
    ensures { refusal_told result ≡ unless (number refusal) fits }
{
    if fits { Ok(()) } else { Err(refusal) }
}

#[tactic(auto, unfolding(crate::specs::Rules::is_version))]
fn is_version(v: &[u8]) -> bool
    ensures { result ≡ is_version (says v.now) }
{
    number_of(v, 3).is_some()
}

#[tactic(auto, unfolding(crate::specs::Rules::amount))]
fn is_amount(v: &[u8]) -> bool
    ensures { result ≡ amount (says v.now) }
{
    amount_of(v).is_some()
}

// The refusal of a value by its form or code list alone.
fn form_refusal(form: usize, v: &[u8]) -> Result<(), Refusal>
    ensures { refusal_told result ≡ form_refusal form (says v.now) }
{
    if form == IDENTIFICATION_FORM {
        return refused_unless(Refusal::AgainstForm, is_identification(v));
    }
    if form == SERIES_ID_FORM {
        return refused_unless(Refusal::AgainstForm, is_identification(v));
    }
    if form == PARTNER_FORM {
        return refused_unless(Refusal::AgainstForm, is_market_partner(v));
    }
    if form == VERSION_FORM {
        return refused_unless(Refusal::AgainstForm, is_version(v));
    }
    if form == DATE_TIME_FORM {
        return refused_unless(Refusal::AgainstForm, is_date_time(v));
    }
    if form == AMOUNT_FORM {
        return refused_unless(Refusal::AgainstForm, is_amount(v));
    }
    if form == OBJECT_FORM {
        return refused_unless(Refusal::AgainstForm, is_resource_object(v));
    }
    if form == PARTY_FORM {
        return refused_unless(Refusal::AgainstForm, is_party(v));
    }
    if form == GRID_ELEMENT_FORM {
        return refused_unless(Refusal::AgainstForm, is_grid_element(v));
    }
    if IN_LIST <= form {
        return refused_unless(Refusal::OutsideList, is_listed(form - IN_LIST, v));
    }
    Ok(())
}

fn type_no(v: &[u8]) -> u32
    ensures { result ≡ type_no (says v.now) }
{
    if is_said(b"A77", v) {
        return CHANGE_TYPE;
    }
    if is_said(b"B59", v) {
        return BEARING_TYPE;
    }
    0
}

fn direction_no(v: &[u8]) -> u32
    ensures { result ≡ direction_no (says v.now) }
{
    if is_said(b"A01", v) {
        return UPWARD;
    }
    if is_said(b"A02", v) {
        return DOWNWARD;
    }
    0
}

// Which code a value is, where later values are held against it.
fn code_no(form: usize, v: &[u8]) -> u32
    ensures { result ≡ code_no form (says v.now) }
{
    if form == IN_LIST + BUSINESS_TYPE_THREE_LIST {
        return type_no(v);
    }
    if form == IN_LIST + DIRECTION_LIST {
        return direction_no(v);
    }
    0
}

fn is_period(kind: u32, from: u32, to: u32) -> bool
    ensures { result ≡ period_fits kind from to }
{
    if kind_at(kind).daily {
        return is_day_period(from, to);
    }
    is_cost_period(from, to)
}

fn judge_period(v: &[u8], kind: u32) -> Result<Says, Refusal>
    ensures { judged_told result ≡ judge_period kind (says v.now) }
{
    match interval_of(v) {
        Some((from, to)) => {
            if is_period(kind, from, to) {
                return Ok(Says {
                    first: from,
                    second: to,
                });
            }
            Err(Refusal::AgainstValue)
        }
        None => Err(Refusal::AgainstForm),
    }
}

fn judge_interval(v: &[u8], from: u32, to: u32) -> Result<Says, Refusal>
    ensures { judged_told result ≡ judge_interval from to (says v.now) }
{
    match interval_of(v) {
        Some((a, b)) => {
            if a == from {
                if b == to {
                    return Ok(Says::NOTHING);
                }
            }
            Err(Refusal::AgainstValue)
        }
        None => Err(Refusal::AgainstForm),
    }
}

fn is_next(last: u32, p: u32) -> bool
    ensures { result ≡ eqb p (last + 1) }
{
    p as u64 == last as u64 + 1
}

// Whether a Pos may come after `last`, which is 0 before the first. Ruled out: a Pos above N; the same Pos again; a gap where the kind counts.
pub fn is_position(kind: u32, quarters: u32, last: u32, p: u32) -> bool
    ensures { result ≡ position_fits kind quarters last p }
{
    if quarters < p {
        return false;
    }
    if kind_at(kind).counted {
        return is_next(last, p);
    }
    if last == 0 {
        return p == 1;
    }
    last < p
}

fn judge_position(v: &[u8], h: Held) -> Result<Says, Refusal>
    ensures { judged_told result ≡ judge_position h.kind h.quarters h.last (says v.now) }
{
    match number_of(v, 5) {
        Some(p) => {
            if is_position(h.kind, h.quarters, h.last, p) {
                return Ok(Says {
                    first: p,
                    second: 0,
                });
            }
            Err(Refusal::AgainstValue)
        }
        None => Err(Refusal::AgainstForm),
    }
}

// The refusal of a value, and what it says.
// Ruled out: 6 for a value outside its code list; 8 for a Pos that is no number; a Pos above N taken.
pub fn judge_value(form: usize, v: &[u8], h: Held) -> Result<Says, Refusal>
    ensures { judged_told result ≡ judge form h (says v.now) }
{
    if form == PERIOD_FORM {
        return judge_period(v, h.kind);
    }
    if form == INTERVAL_FORM {
        return judge_interval(v, h.from, h.to);
    }
    if form == RESOLUTION_FORM {
        refused_unless(Refusal::AgainstValue, is_quarter_hour(v))?;
        return Ok(Says::NOTHING);
    }
    if form == POS_FORM {
        return judge_position(v, h);
    }
    form_refusal(form, v)?;
    Ok(Says {
        first: code_no(form, v),
        second: 0,
    })
}
