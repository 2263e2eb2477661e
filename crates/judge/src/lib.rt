// The judge's verdict on a plan, and the slack figure: is a plan good, and by how much.
#![tactic(auto)]

pub mod answers;
mod faults;
pub mod figure;
mod floor;
mod hand;
mod pair;
mod rows;
mod totals;
mod windows;

ghost use Rattle.judge.specs.Answers.{Judges};

use crate::answers::Fault;
use crate::faults::refusal_of;
use crate::floor::below_floor;
use plan::boundaries::boundaries_of;
use plan::kinds::Plan;

// The verdict on a plan and its table.
#[tactic(auto, unfolding(crate::specs::Verdict::judged))]
pub fn judge(p: Plan, table: &[u32]) -> Result<(), Fault>
    ensures { Judges p table.now result }
{
    let b = boundaries_of(p);
    let hand = refusal_of(&p, table, &b.times[..b.count])?;
    below_floor(hand)
}
