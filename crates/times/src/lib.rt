// Date-times, intervals of minutes, and what the rules ask of a period.
#![tactic(auto)]

pub mod calendar;
mod midnight;

ghost use Rattle.std.specs.Prelude.{◌≡◌, ◌≤◌, ◌<◌};
ghost use Rattle.characters.specs.Says.{says};
ghost use Rattle.times.specs.Times.{minute_at, date_time, interval};
ghost use Rattle.times.specs.Periods.{quarter_hours, day_period, cost_period};

use calendar::day_of;
use midnight::start_of_day;
use pictures::{fits, number_at};

// The minute that v shows from the character `from` on, counted from 2000-01-01T00:00Z; a u8, so that each place after it is in range.
#[tactic(auto, unfolding(crate::specs::Times::minute_at, crate::specs::Times::minute_on))]
fn minute_at(from: u8, v: &[u8]) -> Option<u32>
    ensures { result ≡ minute_at from (says v.now) }
{
    let at = from as usize;
    let y = number_at(at, 4, v);
    let m = number_at(at + 5, 2, v);
    let d = day_of(y, m, number_at(at + 8, 2, v))?;
    let h = number_at(at + 11, 2, v);
    if 23 < h {
        return None;
    }
    let min = number_at(at + 14, 2, v);
    if 59 < min {
        return None;
    }
    Some(d * 1440 + h * 60 + min)
}

// Whether v is a date-time.
// Ruled out: true for 29 February 2023, for hour 24, for second 60; true with no seconds or with an offset for `Z`.
#[tactic(auto, unfolding(crate::specs::Times::date_time))]
pub fn is_date_time(v: &[u8]) -> bool
    ensures { result ≡ date_time (says v.now) }
{
    fits(b"9999-99-99T99:99:99Z", v) && minute_at(0, v).is_some() && number_at(17, 2, v) <= 59
}

// The interval that v is: its two minutes, from the one to the other.
// Ruled out: the two minutes exchanged; an interval with seconds, or with spaces around it; one of 2100.
#[tactic(auto, unfolding(crate::specs::Times::interval, crate::specs::Times::between))]
pub fn interval_of(v: &[u8]) -> Option<(u32, u32)>
    ensures { result ≡ interval (says v.now) }
{
    if !fits(b"9999-99-99T99:99Z/9999-99-99T99:99Z", v) {
        return None;
    }
    let from = minute_at(0, v)?;
    let to = minute_at(18, v)?;
    Some((from, to))
}

// How many quarter hours a period has.
// Ruled out: one more, counting both ends; a rounded up number.
#[tactic(auto, unfolding(crate::specs::Periods::quarter_hours))]
pub fn quarter_hours(from: u32, to: u32) -> u32
    ensures { result ≡ quarter_hours from to }
{
    to.saturating_sub(from) / 15
}

// Whether a period is one that kind 1 asks for.
// Ruled out: true for a period of two days, for an empty one, for one from 00:00Z on; true for 23 hours in May; false for the 23 and the 25 hours of the days on
// which the clocks change.
#[tactic(auto, unfolding(crate::specs::Periods::day_period, crate::specs::Periods::delivery_day))]
pub fn is_day_period(from: u32, to: u32) -> bool
    ensures { result ≡ day_period from to }
{
    let d = from / 1440 + 1;
    from as u64 == start_of_day(d) && to as u64 == start_of_day(d + 1)
}

// Whether a period is one that kind 2 asks for.
// Ruled out: true for an empty period, for 20 minutes, for 366 days and 15 minutes; false for 366 days.
#[tactic(auto, unfolding(crate::specs::Periods::cost_period))]
pub fn is_cost_period(from: u32, to: u32) -> bool
    ensures { result ≡ cost_period from to }
{
    from < to && (to - from) % 15 == 0 && to - from <= 366 * 1440
}
