// The calls for hosts on job lists as comma-separated text.
ghost use Rattle.std.specs.Prelude.{◌≡◌, []};
ghost use Rattle.plan.specs.JobLists.{list_of};
ghost use Rattle.gateway.specs.Answers.{HostImports, HostExports};

use crate::answers::number_of;
use hostmemory::lists::{list_of, put_list};
use hostmemory::sizes::Sizes;
use joblist::export::export;
use joblist::import::import;
use plan::edition::Edition;
use plan::kinds::{JobList, no_job};
use plan::refusal::{DONE, Reason};

fn no_jobs() -> JobList
    ensures { result ≡ list_of [] }
{
    JobList {
        count: 0,
        jobs: [no_job(); Edition::MOST_JOBS],
    }
}

// Reads a job list's text into the lent list, and returns in `offset` where a refused text is wrong, or 0 if
// it was read; 22 with nothing changed if the list is too short.
pub fn gateway_import(text: &[u8], list: &mut [u64], offset: &mut usize) -> u32
    ensures { HostImports text.now list.old offset.old result list.new offset.new }
{
    if list.len() < Sizes::LIST {
        return Reason::BufferTooShort.into(); // the offset stays too
    }
    match import(text) {
        Ok(jobs) => {
            put_list(list, jobs);
            *offset = 0;
            u32::from(DONE)
        }
        Err(refusal) => {
            put_list(list, no_jobs());
            *offset = refusal.offset;
            refusal.reason.into()
        }
    }
}

// Writes the text of the lent job list, and returns its length in `length`; a refusal leaves the output as it
// was.
pub fn gateway_export(list: &[u64], out: &mut [u8], length: &mut usize) -> u32
    ensures { HostExports list.now out.old length.old result out.new length.new }
{
    if list.len() < Sizes::LIST {
        return Reason::BufferTooShort.into(); // the length stays too
    }
    let exported = export(list_of(list), out);
    *length = exported.unwrap_or(0);
    number_of(&exported)
}
