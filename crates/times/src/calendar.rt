// Days counted from 2000-01-01 by the usual sum: 365 for each year before, the leap days before, where the month starts, the day of the month.
ghost use Rattle.std.specs.Prelude.{◌≡◌, ◌≤◌, ◌<◌, unwrap_or};
ghost use Rattle.times.specs.Calendar.{leap, month_days, real_date, days_before, leap_day, year_days, leap_days_before, month_start, day_number, day_of, sum_of};

// The four terms of the sum.
#[derive(Clone, Copy)]
pub struct Terms {
    pub years: u32,
    pub leaps: u32,
    pub month: u32,
    pub days: u32,
}

#[tactic(auto, unfolding(crate::specs::Calendar::leap))]
fn is_leap(y: u32) -> bool
    ensures { result ≡ leap y }
{
    y % 4 == 0
}

#[tactic(auto, unfolding(crate::specs::Calendar::month_days))]
fn month_days(y: u32, m: u32) -> u32
    ensures days { result ≡ month_days y m }
    ensures size { result ≤ 31 }
{
    match m {
        2 => if is_leap(y) { 29 } else { 28 },
        4 | 6 | 9 | 11 => 30,
        _ => 31,
    }
}

#[tactic(auto, unfolding(crate::specs::Calendar::real_date))]
fn is_real(y: u32, m: u32, d: u32) -> bool
    ensures { result ≡ real_date y m d }
{
    2000 <= y && y <= 2099 && 1 <= m && m <= 12 && 1 <= d && d <= month_days(y, m)
}

// 365 for each year before.
fn year_days(y: u32) -> u32
    requires { (2000 ≤ y) × (y ≤ 2099) }
    ensures days { result ≡ year_days y }
    ensures size { result ≤ 36135 }
{
    365 * (y - 2000)
}

// One for each of 2000, 2004 and so on before.
fn leap_days_before(y: u32) -> u32
    requires { (2000 ≤ y) × (y ≤ 2099) }
    ensures days { result ≡ leap_days_before y }
    ensures size { result ≤ 25 }
{
    (y - 2000 + 3) / 4
}

#[tactic(auto, unfolding(crate::specs::Calendar::days_before))]
fn days_before(m: u32) -> u32
    ensures days { result ≡ days_before m }
    ensures size { result ≤ 334 }
{
    match m {
        1 => 0,
        2 => 31,
        3 => 59,
        4 => 90,
        5 => 120,
        6 => 151,
        7 => 181,
        8 => 212,
        9 => 243,
        10 => 273,
        11 => 304,
        _ => 334,
    }
}

#[tactic(auto, unfolding(crate::specs::Calendar::leap_day))]
fn leap_day(y: u32, m: u32) -> u32
    ensures days { result ≡ leap_day y m }
    ensures size { result ≤ 1 }
{
    if is_leap(y) && 3 <= m { 1 } else { 0 }
}

// The days of the year before the first of the month.
fn month_start(y: u32, m: u32) -> u32
    ensures days { result ≡ month_start y m }
    ensures size { result ≤ 335 }
{
    days_before(m) + leap_day(y, m)
}

// The number of a date.
#[tactic(auto, unfolding(crate::specs::Calendar::day_number))]
pub(crate) fn day_number(y: u32, m: u32, d: u32) -> u32
    requires { (2000 ≤ y) × (y ≤ 2099) × (1 ≤ d) × (d ≤ 31) }
    ensures number { result ≡ day_number y m d }
    ensures size { result < 40000 }
{
    year_days(y) + leap_days_before(y) + month_start(y, m) + (d - 1)
}

// The number of a real date.
#[tactic(auto, unfolding(crate::specs::Calendar::day_of))]
pub(crate) fn day_of(y: u32, m: u32, d: u32) -> Option<u32>
    ensures day { result ≡ day_of y m d }
    ensures size { unwrap_or result 0 < 40000 }
{
    if is_real(y, m, d) {
        Some(day_number(y, m, d))
    } else {
        None
    }
}

// The terms of a real date's number, for those who follow the sum.
// Ruled out: the leap day of a month before March; a year's own leap day among those before it; a term for 29 February 2023.
#[tactic(auto, unfolding(crate::specs::Calendar::sum_of))]
pub fn sum_of(y: u32, m: u32, d: u32) -> Option<Terms>
    ensures { result ≡ sum_of y m d }
{
    if is_real(y, m, d) {
        return Some(Terms {
            years: year_days(y),
            leaps: leap_days_before(y),
            month: month_start(y, m),
            days: d - 1,
        });
    }
    None
}
