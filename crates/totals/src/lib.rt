// The totals of the series that stand in the tables of the document reader, whose fields crate series knows. Nothing else of the reader is asked for.
#![tactic(auto)]

mod allowed;
mod sums;

ghost use Rattle.std.specs.Prelude.{length};
ghost use Rattle.totals.specs.Totals.{PermittedTotals};
ghost use Rattle.totals.specs.Rules.{Handed, handed};

use allowed::Given;
use tables::clear_amounts;

const MOST_SERIES: usize = 200;

// "For up to 200 series, given their number, tables, kind and N, give each series' total": its whole number in cell 2i of `totals` and its thousandths in
// the one after it, and those of the total of all series in `sum`. 17 or 18 is answered where they are refused, and 0 otherwise.
// Ruled out: a rest that is cut off towards 0, so that -0.001 were 0; the last amount of a series that stops at its own Pos and not at N; rows that two
// series share; a total left in a cell on a refusal, or past the last series.
pub fn lumintayag_totals(
    kind: u32,
    quarters: u32,
    count: usize,
    series: &[u32],
    positions: &[u32],
    amounts: &[i64],
    totals: &mut [i64],
    sum: &mut [i64],
) -> u32
    ensures { PermittedTotals
        (handed kind quarters count series.now positions.now amounts.now)
        (length totals.old) (length sum.old)
        result totals.new sum.new }
{
    clear_amounts(totals);
    clear_amounts(sum);
    if MOST_SERIES < count {
        return 17;
    }
    let given = Given {
        kind,
        quarters,
        count: count as u32,
        series,
        positions,
        amounts,
    };
    if given.is_allowed() {
        given.put_totals(totals, sum);
        return 0;
    }
    18
}
