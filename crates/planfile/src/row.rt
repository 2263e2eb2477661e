// Reading one row.
ghost use Rattle.std.specs.Prelude.{◌≡◌};
ghost use Rattle.plan.specs.Edition.{most_intervals};
ghost use Rattle.fields.specs.Answers.{field_view};
ghost use Rattle.planfile.specs.Reader.{row_job, one_row};
ghost use Rattle.planfile.specs.Inner.Parts.{row_view};

use crate::grid::Grid;
use fields::field::{Parsed, read};
use fields::record::read_length;
use plan::edition::Edition;
use plan::refusal::{Reason, Refusal};
use planfields::layout::Layout;
use planfields::numbers::{read_interval, read_units};

// A row's job, its place in the table, and its units.
#[derive(Clone, Copy)]
pub struct Row {
    pub job: usize,
    pub at: usize,
    pub units: u32,
}

// The length byte of a row and its name: the position of its job. The search begins at `start`.
#[tactic(auto, unfolding(crate::specs::Reader::row_job))]
fn read_row_job(
    file: &[u8],
    at: usize,
    grid: Grid<'_>,
    start: usize,
) -> Result<Parsed<usize>, Refusal>
    ensures { field_view result ≡ row_job grid.entry.names.now file.now at }
{
    let from = read_length(file, at, Layout::ROW_LENGTH as u64)?;
    let name = read::<u64>(file, from)?;
    let Some(job) = grid.find(name.value, start) else {
        return Err(Refusal {
            reason: Reason::RowWithoutJob,
            offset: from,
        });
    };
    Ok(Parsed {
        value: job,
        next: name.next,
    })
}

// One row. Its place must be at least `low`; the search for its job begins at `start`.
#[tactic(auto, unfolding(crate::specs::Reader::one_row), using(crate::proofs::Rows::job_there))]
pub(crate) fn read_row(
    file: &[u8],
    at: usize,
    grid: Grid<'_>,
    low: usize,
    start: usize,
) -> Result<Parsed<Row>, Refusal>
    ensures { row_view result ≡ one_row most_intervals grid.entry.names.now grid.entry.spans low file.now at }
{
    let job = read_row_job(file, at, grid, start)?;
    let interval = read_interval(file, job.next, grid.spans)?;
    let units = read_units(file, interval.next)?;
    let place = Edition::MOST_INTERVALS * job.value + usize::from(interval.value);
    if place < low {
        return Err(Refusal {
            reason: Reason::RowOutOfOrder,
            offset: at,
        });
    }
    Ok(Parsed {
        value: Row {
            job: job.value,
            at: place,
            units: units.value,
        },
        next: units.next,
    })
}
