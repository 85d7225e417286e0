// Runs the vectors of times. A line of standard input is a value; printed: whether it is a date-time (1 or 0); then, where it is an
// interval, its two minutes, its quarter hours, and 1 or 0 for each of: it is a period as kind 1 asks for, as kind 2 does.
// A write that fails is not told and the rest is still attempted, as with `lines::print_text`.
#![tactic(auto)]

use std::io;

fn show_period(rt: &impl Print, from: u32, to: u32) {
    let quarters = times::quarter_hours(from, to);
    let day = u8::from(times::is_day_period(from, to));
    let cost = u8::from(times::is_cost_period(from, to));
    let _ = print!(rt; " interval {from} {to} {quarters} {day} {cost}");
}

fn run_case(rt: &impl Print, line: &[u8]) {
    let _ = print!(rt; "date-time {}", u8::from(times::is_date_time(line)));
    match times::interval_of(line) {
        Some((from, to)) => show_period(rt, from, to),
        None => {
            let _ = print!(rt; " no interval");
        }
    }
    let _ = println!(rt);
}

fn main(rt: HostRuntime) -> io::Result<()> {
    let input = lines::input_of(&rt, lines::INPUT_MOST)?;
    for line in lines::lines_of(&input) {
        run_case(&rt, line);
    }
    Ok(())
}
