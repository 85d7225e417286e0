// Prints the rows of all kinds, a line each: row, number of the name, parent, whether it has to come, whether it may come again, form of `v`,
// whether spaces are dropped, code list of codingScheme, role. Then for each kind whether a Period with 0, 1, 91, 92, 99, 100 Intervals may end, and
// whether it takes another; the kind that each number tells as a root's name; and for each line of standard input its number as a name.
// A write that fails is not told and the rest is still attempted, as with `lines::print_text`.
#![tactic(auto)]

use columns::{form_of, is_collapsed, role_of, scheme_of};
use std::io;
use structure::{is_repeated, is_required, name_of, parent_of};

fn show_row(rt: &impl Print, i: usize, w: usize) {
    let _ = print!(rt; "row {i} {} {}", name_of(w), parent_of(w));
    let _ = print!(rt;
        " {} {}",
        u8::from(is_required(w)),
        u8::from(is_repeated(w))
    );
    let _ = print!(rt; " {} {}", form_of(w), u8::from(is_collapsed(w)));
    let _ = println!(rt; " {} {}", scheme_of(w), role_of(w));
}

fn show_rows(rt: &impl Print, rows: &[usize]) {
    for i in 0..rows.len() {
        show_row(rt, i, rows[i]);
    }
}

fn show_kind(rt: &impl Print, kind: u32) {
    for n in [0, 1, 91, 92, 99, 100] {
        let enough = u8::from(guideline::has_enough(kind, n));
        let another = u8::from(guideline::takes_another(kind, n));
        let _ = println!(rt; "intervals {kind} {n} {enough} {another}");
    }
}

fn show_name(rt: &impl Print, name: &[u8]) {
    let _ = rt.write_all(name);
    let _ = println!(rt; " {}", elements::element_no(name));
}

fn main(rt: HostRuntime) -> io::Result<()> {
    let rows = guideline::every_row();
    for kind in 1..4 {
        show_rows(&rt, guideline::rows_of(&rows, kind));
    }
    for kind in 1..4 {
        show_kind(&rt, kind);
    }
    for name in 0..256 {
        let _ = println!(rt; "root {name} {}", guideline::kind_of_root(name));
    }
    let input = lines::input_of(&rt, lines::INPUT_MOST)?;
    for line in lines::lines_of(&input) {
        show_name(&rt, line);
    }
    Ok(())
}
