// Follows the count from a period's text to N, for docs/DAYS.md. A line of standard input is an interval; printed are the sum of each of its two dates, term by
// term, the days between them, the quarter hours within the days, and N.
// A write that fails is not told and the rest is still attempted, as with `lines::print_text`.
#![tactic(auto)]

use pictures::number_at;
use std::io;
use times::calendar::{Terms, sum_of};

fn show_terms(rt: &impl Print, t: Terms) {
    let _ = print!(rt;
        "  years {} + leap days {} + month {} + day {}",
        t.years, t.leaps, t.month, t.days
    );
}

// The sum of the date that v shows from the character `from` on, and its number n.
fn show_date(rt: &impl Print, from: u8, v: &[u8], n: u32) {
    let at = from as usize;
    let m = number_at(at + 5, 2, v);
    if let Some(t) = sum_of(number_at(at, 4, v), m, number_at(at + 8, 2, v)) {
        show_terms(rt, t);
    }
    let _ = println!(rt; " = {n}");
}

fn show_period(rt: &impl Print, v: &[u8], from: u32, to: u32) {
    show_date(rt, 0, v, from / 1440);
    show_date(rt, 18, v, to / 1440);
    let days = (to / 1440).saturating_sub(from / 1440);
    let (last, first) = (to % 1440 / 15, from % 1440 / 15);
    let _ = println!(rt;
        "  days {days}, quarter hours of the last day {last}, of the first {first}"
    );
    let _ = println!(rt; "  N {}", times::quarter_hours(from, to));
}

fn run_case(rt: &impl Print, line: &[u8]) {
    let _ = rt.write_all(line);
    let _ = println!(rt);
    match times::interval_of(line) {
        Some((from, to)) => show_period(rt, line, from, to),
        None => {
            let _ = println!(rt; "  no interval");
        }
    }
}

fn main(rt: HostRuntime) -> io::Result<()> {
    let input = lines::input_of(&rt, lines::INPUT_MOST)?;
    for line in lines::lines_of(&input) {
        run_case(&rt, line);
    }
    Ok(())
}
