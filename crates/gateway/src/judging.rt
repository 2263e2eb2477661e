// The judge's calls for hosts.
ghost use Rattle.gateway.specs.Answers.{HostJudges, HostMeasures};

use crate::answers::{figure_location, figure_number, number_of, verdict_location};
use hostmemory::plans::plan_of;
use hostmemory::sizes::Sizes;
use judge::answers::Fault;
use judge::figure::slack;
use judge::judge;
use plan::refusal::Reason;

// The verdict on a plan and its table: its number, and its location in `location`.
pub fn gateway_judge(plan: &[u64], table: &[u32], location: &mut [u64]) -> u32
    ensures { HostJudges plan.now table.now location.old result location.new }
{
    if (plan.len() < Sizes::PLAN) | (location.len() < Sizes::LOCATION) {
        return Reason::BufferTooShort.into();
    }
    let verdict = judge(plan_of(plan), table);
    location[..Sizes::LOCATION].copy_from_slice(&verdict_location(&verdict));
    number_of(&verdict.map_err(Fault::reason))
}

// The slack figure of a plan and its table: its number, the least slack, and its location.
pub fn gateway_slack(plan: &[u64], table: &[u32], least: &mut i64, location: &mut [u64]) -> u32
    ensures { HostMeasures plan.now table.now least.old location.old result least.new location.new }
{
    if (plan.len() < Sizes::PLAN) | (location.len() < Sizes::LOCATION) {
        return Reason::BufferTooShort.into();
    }
    let figure = slack(plan_of(plan), table);
    *least = match figure {
        Ok(Some(found)) => found.slack,
        _ => 0,
    };
    location[..Sizes::LOCATION].copy_from_slice(&figure_location(figure));
    figure_number(figure)
}
