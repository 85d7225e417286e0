// Runs the vectors of the forms of values. A line of standard input is a value; printed of it, with a space between:
//   leading spaces and bytes left where spaces are dropped; as it stands: identification, market partner, ResourceObject, party, fixed
//   version of kind 1, grid element, and the three fixed values of kind 3 (1 or 0); with spaces dropped: quarter hour (1 or 0), version and Pos (0 for none), amount in thousandths (`x` for none);
//   as it stands and with spaces dropped: the numbers of the code lists that have it, each after a comma
// A write that fails is not told and the rest is still attempted, as with `lines::print_text`.
#![tactic(auto)]

use guideline::{DTD_MESSAGE, DTD_RELEASE, DTD_VERSION, is_fixed};
use std::io;

fn print_forms(rt: &impl Print, v: &[u8]) {
    let forms = [
        forms::is_identification(v),
        forms::is_market_partner(v),
        forms::is_resource_object(v),
        forms::is_party(v),
        is_fixed(1, DTD_MESSAGE, v),
        forms::is_grid_element(v),
        is_fixed(3, DTD_VERSION, v),
        is_fixed(3, DTD_RELEASE, v),
        is_fixed(3, DTD_MESSAGE, v),
    ];
    for has_form in forms {
        let _ = print!(rt; " {}", u8::from(has_form));
    }
}

fn print_version(rt: &impl Print, v: &[u8], most: usize) {
    let _ = print!(rt; " {}", numbers::number_of(v, most).unwrap_or(0));
}

fn print_amount(rt: &impl Print, v: &[u8]) {
    let _ = match numbers::amount_of(v) {
        Some(x) => print!(rt; " {x}"),
        None => print!(rt; " x"),
    };
}

fn print_lists(rt: &impl Print, v: &[u8]) {
    let _ = print!(rt; " ");
    for k in 0..26 {
        if codes::is_listed(k, v) {
            let _ = print!(rt; ",{k}");
        }
    }
}

fn run_case(rt: &impl Print, v: &[u8]) {
    let t = trims::trimmed(v);
    let _ = print!(rt; "{} {}", trims::leading_spaces(v), t.len());
    print_forms(rt, v);
    let _ = print!(rt; " {}", u8::from(forms::is_quarter_hour(t)));
    print_version(rt, t, 3);
    print_version(rt, t, 5);
    print_amount(rt, t);
    print_lists(rt, v);
    print_lists(rt, t);
    let _ = println!(rt);
}

fn main(rt: HostRuntime) -> io::Result<()> {
    let input = lines::input_of(&rt, lines::INPUT_MOST)?;
    for line in lines::lines_of(&input) {
        run_case(&rt, line);
    }
    Ok(())
}
