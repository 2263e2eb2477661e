// Reading rows in their order: the reader stores them, the lookup only checks them.
ghost use Rattle.plan.specs.Edition.{most_intervals};
ghost use Rattle.planfile.specs.Reader.{all_rows};
ghost use Rattle.planfile.specs.Inner.Parts.{RowsAnswer};

use crate::grid::Grid;
use crate::row::read_row;
use plan::refusal::Refusal;

// Reads the given number of rows and stores each at its place if the table has it;
// the lookup lends an empty table.
#[tactic(auto, using(crate::proofs::Rows::row_inside, crate::proofs::Rows::left_stop, crate::proofs::Rows::left_done))]
pub(crate) fn store_rows(
    file: &[u8],
    at: usize,
    rows: usize,
    grid: Grid<'_>,
    table: &mut [u32],
) -> Result<usize, Refusal>
    ensures { RowsAnswer (all_rows rows most_intervals grid.entry.names.now grid.entry.spans 0 table.old file.now at) result table.new }
{
    let mut next = at;
    let mut low = 0;
    let mut job = 0;
    for _ in 0..rows {
        let row = read_row(file, next, grid, low, job)?;
        if row.value.at < table.len() {
            table[row.value.at] = row.value.units;
        }
        low = row.value.at + 1;
        job = row.value.job;
        next = row.next;
    }
    Ok(next)
}
