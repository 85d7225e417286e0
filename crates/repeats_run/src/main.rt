// Prints, a line for each case, what `has_twice` answers on tags that are made here. A line of n attributes has six tags: all different;
// the first name also second, in the middle and last; the last name also before it and in the middle. The names come in rising, falling
// and mixed order. Lines that begin with a text print what is answered on that text.
// A write that fails is not told and the rest is still attempted.
#![tactic(auto)]

ghost use Rattle.std.specs.Prelude.{◌≤◌};

use repeats::has_twice;
use std::alloc::{AllocError, Global};
use std::io;

const LETTERS: [u8; 16] = *b"A_bcdefghijklmnz";

// How the numbers of the names follow each other.
#[derive(Clone, Copy)]
enum Order {
    Rising,
    Falling,
    Mixed,
}

// A tag of n attributes. The name at `twin` is the name at `of`; where `twin` is no place of the tag, all are different.
#[derive(Clone, Copy)]
struct Case {
    n: u32,
    order: Order,
    twin: u32,
    of: u32,
}

fn letter(k: u32) -> u8 {
    LETTERS[(k % 16) as usize]
}

// ` NAME=""`, the name being that of the number k.
fn add_attribute(tag: &mut Vec<u8>, k: u32) -> Result<(), AllocError> {
    let name = [letter(k / 4096), letter(k / 256), letter(k / 16), letter(k)];
    tag.push(b' ')?;
    tag.extend_from_slice(&name)?;
    tag.extend_from_slice(b"=\"\"")
}

// The numbers below 65536 in another order, each once.
fn ordered(k: u32, order: Order) -> u32 {
    let j = k % 65536;
    match order {
        Order::Rising => j,
        Order::Falling => 65535 - j,
        Order::Mixed => j * 40503 % 65536,
    }
}

// The tag of a case, its end left out.
fn open_tag(alloc: Global, case: Case) -> Result<Vec<u8>, AllocError> {
    let mut tag = Vec::new(alloc);
    tag.extend_from_slice(b"<a")?;
    for i in 0..case.n {
        let k = if i == case.twin { case.of } else { i };
        add_attribute(&mut tag, ordered(k, case.order))?;
    }
    Ok(tag)
}

fn show(rt: &impl Print, tag: &[u8]) {
    let _ = if has_twice(tag, 2) {
        print!(rt; " twice")
    } else {
        print!(rt; " -")
    };
}

fn run(rt: &(impl Print + AllocGlobal), case: Case) -> Result<(), AllocError> {
    let mut tag = open_tag(rt.alloc(), case)?;
    tag.push(b'>')?;
    show(rt, &tag);
    Ok(())
}

fn run_six(rt: &(impl Print + AllocGlobal), n: u32, order: Order) -> Result<(), AllocError>
    requires { 2 ≤ n }
{
    let _ = print!(rt; "{n}");
    let twins = [
        (n, 0),
        (1, 0),
        (n / 2, 0),
        (n - 1, 0),
        (n - 1, n - 2),
        (n - 1, n / 2),
    ];
    for (twin, of) in twins {
        run(rt, Case { n, order, twin, of })?;
    }
    let _ = println!(rt);
    Ok(())
}

fn run_orders(rt: &(impl Print + AllocGlobal), n: u32) -> Result<(), AllocError>
    requires { 2 ≤ n }
{
    run_six(rt, n, Order::Rising)?;
    run_six(rt, n, Order::Falling)?;
    run_six(rt, n, Order::Mixed)
}

// The heap has 16,384 places: the last name of the first pass again, and the first of the second.
fn run_passes(rt: &(impl Print + AllocGlobal)) -> Result<(), AllocError> {
    let _ = print!(rt; "passes");
    let cases = [
        (16385, 16384, 16383),
        (20000, 19999, 16383),
        (20000, 19999, 16384),
        (20000, 16384, 16383),
    ];
    for (n, twin, of) in cases {
        let order = Order::Rising;
        run(rt, Case { n, order, twin, of })?;
    }
    let _ = println!(rt);
    Ok(())
}

// A tag that does not end has none twice.
fn run_torn(rt: &(impl Print + AllocGlobal)) -> Result<(), AllocError> {
    let _ = print!(rt; "torn");
    for n in [3, 20000] {
        let order = Order::Rising;
        let tag = open_tag(
            rt.alloc(),
            Case {
                n,
                order,
                twin: 1,
                of: 0,
            },
        )?;
        show(rt, &tag);
    }
    let _ = println!(rt);
    Ok(())
}

fn run_text(rt: &impl Print, tag: &str) {
    let _ = print!(rt; "{tag}");
    show(rt, tag.as_bytes());
    let _ = println!(rt);
}

fn main(rt: HostRuntime) -> io::Result<()> {
    run_text(&rt, "<a>");
    run_text(&rt, "<a v=\"1\"/>");
    run_text(&rt, "<a v=\"1\" v=\"1\"/>");
    run_text(&rt, "<a v=\"1\" codingScheme='2' v=\"3\">");
    run_text(&rt, "<a v=\"1\" vv=\"1\" V=\"1\" v.=\"1\" v:v=\"1\">");
    run_text(&rt, "<a xmlns:a=\"1\" xmlns:b=\"1\" xmlns:a=\"2\">");
    run_text(&rt, "<a b=\" b='1' b='2'\" c=\">\">");
    run_text(&rt, "<a v=\"1\"v=\"2\">");
    run_orders(&rt, 2)?;
    run_orders(&rt, 16)?;
    run_orders(&rt, 17)?;
    run_orders(&rt, 2000)?;
    run_passes(&rt)?;
    run_orders(&rt, 20000)?;
    run_torn(&rt)?;
    Ok(())
}
