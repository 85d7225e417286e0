// Runs every day from 2000-01-01 to 2099-12-31 as the date on which a period of kind 1 starts. Printed for each, four years to a line, is which pairs of hours
// are taken: 1 for 22:00Z to 22:00Z of the next date, 2 for 22:00Z to 23:00Z, 4 for 23:00Z to 22:00Z, 8 for 23:00Z to 23:00Z, added up.
// A write that fails is not told and the rest is still attempted, as with `lines::print_text`.
#![tactic(auto)]

ghost use Rattle.std.specs.Prelude.{◌≤◌, ◌<◌};

use std::alloc::AllocError;
use std::io;
use times::is_day_period;

const LINE: u32 = 1461;

fn weight(b: bool, n: u8) -> u8
    ensures { result ≤ n }
{
    if b { n } else { 0 }
}

fn pairs_taken(d: u32) -> u8
    requires { d < 40000 }
    ensures { result ≤ 15 }
{
    let early = d * 1440 + 22 * 60;
    let late = early + 60;
    let both_early = weight(is_day_period(early, early + 1440), 1);
    let shifted = weight(is_day_period(early, late + 1440), 2)
        + weight(is_day_period(late, early + 1440), 4);
    both_early + shifted + weight(is_day_period(late, late + 1440), 8)
}

fn print_line(rt: &(impl Print + Alloc), first: u32) -> Result<(), AllocError>
    requires { first < 36525 }
{
    let mut text = String::new(rt.alloc());
    for day in first..first + LINE {
        text.push(char::from(b'0' + pairs_taken(day)))?;
    }
    let _ = println!(rt; "{text}");
    Ok(())
}

fn main(rt: HostRuntime) -> io::Result<()> {
    for line in 0..25 {
        print_line(&rt, line * LINE)?;
    }
    Ok(())
}
