// The name lookup: a job's name as a part of the caller's file.
ghost use Rattle.std.specs.Prelude.{◌≡◌};
ghost use Rattle.planfile.specs.Reader.{read_file};
ghost use Rattle.planfile.specs.Answers.{Finds, Shows, ShownAt};
ghost use Rattle.planfile.specs.Inner.Parts.{count_of};

use crate::reader::fill;
use plan::edition::Edition;
use planfields::layout::Layout;

// The job count of a file, or 0 if the reader, lent enough places, would refuse the file.
fn count_in(file: &[u8]) -> usize
    ensures { result ≡ count_of (read_file file.now) }
{
    let Ok(plan) = fill(file, &mut []) else {
        return 0;
    };
    plan.count
}

// The offset in the file at which a job's name begins;
// 0 if the reader, lent enough places, would refuse the file or if it has no such job.
// It is no `Option`, since hosts are told 0, at which no name begins.
#[tactic(auto, unfolding(crate::specs::Reader::name_found), using(crate::proofs::WholeFile::found_none, crate::proofs::WholeFile::found_name))]
pub fn name_at(file: &[u8], position: usize) -> usize
    ensures { Finds file.now position result }
{
    if count_in(file) <= position {
        return 0;
    }
    Layout::HEADER_BYTES + position * (1 + Layout::JOB_LENGTH) + 1
}

// The eight bytes of a job's name inside the file;
// an empty part if the reader, lent enough places, would refuse the file or if it has no such job.
#[tactic(auto, unfolding(crate::specs::Reader::name_found, crate::specs::Reader::name_shown), using(crate::proofs::WholeFile::found_above, crate::proofs::WholeFile::found_below, crate::proofs::WholeFile::shown_none, crate::proofs::WholeFile::shown_part))]
pub fn name_of(file: &[u8], position: usize) -> &[u8]
    ensures shows { Shows file.now position result.now }
    ensures shown_at { ShownAt file.entry.ref_ptr file.now position result.ref_ptr }
{
    let from = name_at(file, position);
    if from == 0 {
        return &file[0..0];
    }
    &file[from..from + Edition::NAME_BYTES]
}
