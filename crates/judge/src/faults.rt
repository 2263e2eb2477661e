// The refusals that `judge` and `slack` share: 22 and 21, then rules 15 to 17.
ghost use Rattle.std.specs.Prelude.{◌≡◌, IfOk};
ghost use Rattle.plan.specs.Boundaries.{boundaries};
ghost use Rattle.judge.specs.Verdict.{hand_fault, constraint_fault};
ghost use Rattle.plan.specs.Report.{or_else};
ghost use Rattle.judge.specs.Answers.{verdict_view};

use crate::answers::Fault;
use crate::hand::Hand;
use crate::totals::{over_capacity, wrong_total};
use crate::windows::outside_window;
use plan::edition::Edition;
use plan::kinds::Plan;
use plan::table::sound_within;

// The refusals before the constraints: 22, then 21.
fn in_hand<'a>(plan: &'a Plan, table: &'a [u32], times: &'a [u32]) -> Result<Hand<'a>, Fault>
    requires { times.now ≡ boundaries plan.now }
    ensures report { verdict_view result ≡ hand_fault plan.now table.now }
    ensures kept { IfOk result (λ hand. (hand.plan.now ≡ plan.now) × (hand.table.now ≡ table.now)) }
{
    if table.len() < Edition::PLACES {
        return Err(Fault::BufferTooShort);
    }
    if times.is_empty() || !sound_within(*plan, table, times.len() - 1) {
        return Err(Fault::Unsound);
    }
    Ok(Hand { plan, table, times })
}

// Rules 15 to 17.
fn constraints(hand: Hand) -> Result<(), Fault>
    ensures { verdict_view result ≡ constraint_fault hand.entry.plan.now hand.entry.table.now }
{
    outside_window(hand)?;
    wrong_total(hand)?;
    over_capacity(hand)
}

// All refusals that `judge` and `slack` share.
pub(crate) fn refusal_of<'a>(
    plan: &'a Plan,
    table: &'a [u32],
    times: &'a [u32],
) -> Result<Hand<'a>, Fault>
    requires { times.now ≡ boundaries plan.now }
    ensures report { verdict_view result ≡ or_else (hand_fault plan.now table.now) (constraint_fault plan.now table.now) }
    ensures kept { IfOk result (λ hand. (hand.plan.now ≡ plan.now) × (hand.table.now ≡ table.now)) }
{
    let hand = in_hand(plan, table, times)?;
    constraints(hand)?;
    Ok(hand)
}
