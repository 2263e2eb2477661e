// The calls for hosts on plan files.
ghost use Rattle.gateway.specs.Answers.{HostReads, HostWrites, HostShows};

use crate::answers::number_of;
use hostmemory::plans::{plan_of, put_plan};
use hostmemory::sizes::Sizes;
use plan::kinds::no_plan;
use plan::refusal::{DONE, Reason};
use planfile::lookup::name_at;
use planfile::reader::read;
use planwriter::writer::write;

// Reads a plan file into the lent plan and table, and returns in `offset` where a refused file is wrong, or 0
// if it was read or the table is too short;
// 22 with nothing changed if the plan is too short.
pub fn gateway_read(file: &[u8], plan: &mut [u64], table: &mut [u32], offset: &mut usize) -> u32
    ensures { HostReads file.now plan.old table.old offset.old result plan.new table.new offset.new }
{
    if plan.len() < Sizes::PLAN {
        return Reason::BufferTooShort.into(); // the offset stays too
    }
    match read(file, table) {
        Ok(p) => {
            put_plan(plan, p);
            *offset = 0;
            u32::from(DONE)
        }
        Err(fault) => {
            put_plan(plan, no_plan());
            *offset = fault.offset();
            fault.reason().into()
        }
    }
}

// Writes the plan file of a sound plan and its table, and returns its length in `length`; a refusal
// leaves the output as it was.
pub fn gateway_write(plan: &[u64], table: &[u32], out: &mut [u8], length: &mut usize) -> u32
    ensures { HostWrites plan.now table.now out.old length.old result out.new length.new }
{
    if plan.len() < Sizes::PLAN {
        return Reason::BufferTooShort.into(); // the length stays too
    }
    let written = write(plan_of(plan), table, out);
    *length = written.unwrap_or(0);
    number_of(&written)
}

// The offset in the file at which a job's name begins; 0 if no name is shown.
pub fn gateway_name(file: &[u8], position: usize) -> usize
    ensures { HostShows file.now position result }
{
    name_at(file, position)
}
