// The reader of plan files.
ghost use Rattle.std.specs.Prelude.{◌≡◌, [], length};
ghost use Rattle.plan.specs.Edition.{places};
ghost use Rattle.planfile.specs.Reader.{read_file, leaves};
ghost use Rattle.plan.specs.Refusal.{HasNumber};
ghost use Rattle.plan.specs.Report as report;
ghost use Rattle.plan.specs.Report.{offset_of};
ghost use Rattle.planfile.specs.Answers.{answer_view, read_view, Reads};
ghost use Rattle.planfile.specs.Inner.Parts.{FillAnswer};
ghost use Rattle.planfile.specs.declared.reader.ReadFault.TheVariants as fault;

use crate::grid::Grid;
use crate::preamble::read_preamble;
use crate::store::store_rows;
use fields::end::read_end;
use plan::boundaries::intervals_of;
use plan::edition::Edition;
use plan::kinds::Plan;
use plan::refusal::{Reason, Refusal};

// Why no plan was read: the table is too short, or the file is refused.
#[derive(Clone, Copy, Debug, PartialEq, Eq)]
pub enum ReadFault {
    TooShort,
    Refused(Refusal),
}

impl From<Refusal> for ReadFault {
    ghost from_gives = { λ refusal given. given ≡ fault.Refused refusal };

    fn from(refusal: Refusal) -> ReadFault {
        ReadFault::Refused(refusal)
    }
}

impl ReadFault {
    // The reason, without the offset.
    pub fn reason(self) -> Reason
        ensures { HasNumber (report.number_of (answer_view (Err self))) result }
    {
        match self {
            ReadFault::TooShort => Reason::BufferTooShort,
            ReadFault::Refused(refusal) => refusal.reason,
        }
    }

    // Where the file is wrong; 0 if the table is too short.
    pub fn offset(self) -> usize
        ensures { result ≡ offset_of (answer_view (Err self)) }
    {
        match self {
            ReadFault::TooShort => 0,
            ReadFault::Refused(refusal) => refusal.offset,
        }
    }
}

// Reads a file: the plan, and into a table of exactly PLACES zeros the allotments. With an empty
// table the rows are checked and none is stored.
// After a refusal the table has no meaning.
#[tactic(auto, using(crate::proofs::PreambleLaws::preamble_fine, crate::proofs::WholeFile::fill_no_preamble))]
pub(crate) fn fill(file: &[u8], table: &mut [u32]) -> Result<Plan, Refusal>
    ensures { FillAnswer (read_file file.now) table.old result table.new }
{
    let mut names = [0u64; Edition::MOST_JOBS];
    let preamble = read_preamble(file, &mut names)?;
    let plan = preamble.value.plan;
    let rows = usize::from(preamble.value.rows);
    let grid = Grid {
        names: &names[..plan.count],
        spans: intervals_of(plan),
    };
    let last = store_rows(file, preamble.next, rows, grid, table)?;
    read_end(file, last)?;
    Ok(plan)
}

// Reads a file into a table of exactly PLACES places. A refusal leaves zeros in the table.
fn read_whole(file: &[u8], table: &mut [u32]) -> Result<Plan, ReadFault>
    requires { length table.old ≡ places }
    ensures { read_view result table.new ≡ leaves (read_file file.now) [] }
{
    table.fill(0);
    let reading = fill(file, table);
    if reading.is_err() {
        table.fill(0);
    }
    Ok(reading?)
}

// Reads a plan file into the lent table.
#[tactic(auto, using(crate::proofs::WholeFile::reader_short, crate::proofs::WholeFile::read_beyond))]
pub fn read(file: &[u8], table: &mut [u32]) -> Result<Plan, ReadFault>
    ensures { Reads file.now table.old result table.new }
{
    if table.len() < Edition::PLACES {
        return Err(ReadFault::TooShort);
    }
    read_whole(file, &mut table[..Edition::PLACES])
}
