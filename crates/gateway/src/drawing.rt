// The desk's calls for hosts.
ghost use Rattle.gateway.specs.Answers.{HostDraws, HostExplains};

use crate::answers::{number_of, pair_of};
use desk::answers::Shortage;
use desk::{draw_up, shortage};
use hostmemory::plans::plan_of;
use hostmemory::sizes::Sizes;
use plan::refusal::Reason;

// Draws up the timetable of a plan's rates and jobs in the lent table: its number.
pub fn gateway_draw(plan: &[u64], table: &mut [u32]) -> u32
    ensures { HostDraws plan.now table.old result table.new }
{
    if plan.len() < Sizes::PLAN {
        return Reason::BufferTooShort.into();
    }
    number_of(&draw_up(plan_of(plan), table))
}

// Why no timetable can be drawn up: its number, and with 29 the first pair of times, what is asked by them and what the
// link carries in `pair`.
pub fn gateway_shortage(plan: &[u64], pair: &mut [u64]) -> u32
    ensures { HostExplains plan.now pair.old result pair.new }
{
    if (plan.len() < Sizes::PLAN) | (pair.len() < Sizes::PAIR) {
        return Reason::BufferTooShort.into();
    }
    let found = shortage(plan_of(plan));
    pair[..Sizes::PAIR].copy_from_slice(&pair_of(found));
    number_of(&found.map_err(Shortage::reason))
}
