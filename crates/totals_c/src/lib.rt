// The totals of the series that stand in the tables of the document reader, exported to C and Rust.
#![tactic(auto)]

ghost use Rattle.std.specs.Prelude.{length};
ghost use Rattle.totals.specs.Totals.{PermittedTotals};
ghost use Rattle.totals.specs.Rules.{handed};

#[unsafe(no_mangle)]
pub extern "C" fn lumintayag_totals(
    kind: u32,
    quarters: u32,
    count: usize,
    series: &[u32],
    positions: &[u32],
    amounts: &[i64],
    totals: &mut [i64],
    sum: &mut [i64],
) -> u32
    ensures { PermittedTotals
        (handed kind quarters count series.now positions.now amounts.now)
        (length totals.old) (length sum.old)
        result totals.new sum.new }
{
    totals::lumintayag_totals(
        kind, quarters, count, series, positions, amounts, totals, sum,
    )
}
