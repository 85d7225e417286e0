// Where a delivery day starts, by the days on which the clocks change.
ghost use Rattle.std.specs.Prelude.{◌≡◌, ◌≤◌, ◌<◌, get_or};
ghost use Rattle.times.specs.Sundays.{march_sunday, october_sunday};
ghost use Rattle.times.specs.Packed.{packed};
ghost use Rattle.times.specs.Midnight.{year_of, in_summer, start_of_day};

use crate::calendar::day_number;

// The last Sundays of March and October of each year from 2000 to 2099, a byte to a year: the March day less 25, times eight, added to the October day less 25.
const SUNDAYS: [u8; 100] = [
    12, 3, 50, 41, 30, 21, 12, 3, 41, 32, 30, 21, 3, 50, 41, 32, 21, 12, 3, 50, 32, 30, 21, 12, 50,
    41, 32, 30, 12, 3, 50, 41, 30, 21, 12, 3, 41, 32, 30, 21, 3, 50, 41, 32, 21, 12, 3, 50, 32, 30,
    21, 12, 50, 41, 32, 30, 12, 3, 50, 41, 30, 21, 12, 3, 41, 32, 30, 21, 3, 50, 41, 32, 21, 12, 3,
    50, 32, 30, 21, 12, 50, 41, 32, 30, 12, 3, 50, 41, 30, 21, 12, 3, 41, 32, 30, 21, 3, 50, 41,
    32,
];

#[tactic(auto, unfolding(crate::specs::Packed::packed))]
fn sundays_of(year: usize) -> u32
    requires { year < 100 }
    ensures { result ≡ get_or packed year 0 }
{
    SUNDAYS[year] as u32
}

fn march_sunday(year: usize) -> u32
    requires { year < 100 }
    ensures { result ≡ march_sunday year }
{
    day_number(2000 + year as u32, 3, 25 + sundays_of(year) / 8)
}

fn october_sunday(year: usize) -> u32
    requires { year < 100 }
    ensures { result ≡ october_sunday year }
{
    day_number(2000 + year as u32, 10, 25 + sundays_of(year) % 8)
}

// The year of a day, counted from 2000.
#[tactic(auto, unfolding(crate::specs::Midnight::year_of))]
fn year_of(d: u32) -> usize
    ensures { result ≡ year_of d }
{
    4 * (d as usize) / 1461
}

#[tactic(auto, unfolding(crate::specs::Midnight::in_summer))]
fn is_in_summer(d: u32) -> bool
    ensures { result ≡ in_summer d }
{
    let year = year_of(d);
    year < 100 && march_sunday(year) < d && d <= october_sunday(year)
}

// The minute at which the day d starts.
#[tactic(auto, unfolding(crate::specs::Midnight::start_of_day))]
pub(crate) fn start_of_day(d: u32) -> u64
    requires { 1 ≤ d }
    ensures { result ≡ start_of_day d }
{
    let date_before = (d as u64 - 1) * 1440;
    if is_in_summer(d) {
        date_before + 22 * 60
    } else {
        date_before + 23 * 60
    }
}
