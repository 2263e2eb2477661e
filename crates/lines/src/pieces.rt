// The pieces of a slot's line.
ghost use Rattle.std.specs.Prelude.{◌≡◌, [], ◌++◌, ◌+◌, ◌*◌, ◌≤◌, length, get_or};
ghost use Rattle.plan.specs.Edition.{most_jobs};
ghost use Rattle.plan.specs.Rules.{counted};
ghost use Rattle.text.specs.Text.{text, decimal, most_digits};
ghost use Rattle.lines.specs.Lines.{mode_text, grants_text, or_dash, grant_text, grant_bytes, longest_line};

use crate::LONGEST_LINE;
use plan::kinds::{Name, Plan, Slots};
use plan::rules::counted_of;
use text::line::Line;

// Begins the line of a slot with its clock and its speed.
pub(crate) fn push_times(line: &mut Line<LONGEST_LINE>, clock: Slots, speed: u16)
    requires { line.old ≡ [] }
    ensures times { line.new ≡ decimal clock.0 ++ text " " ++ decimal speed ++ text " " }
    ensures few { length line.new ≤ 2 * (most_digits + 1) }
{
    line.push_number(clock.0);
    line.push(b" ");
    line.push_number(u32::from(speed));
    line.push(b" ");
}

// The letter of the mode.
pub(crate) fn mode_of(slow: bool) -> &'static [u8]
    ensures { result.now ≡ mode_text slow }
{
    if slow { b"D" } else { b"N" }
}

// Appends a grant to a line, unless it is 0.
fn push_grant(line: &mut Line<LONGEST_LINE>, name: Name, units: u32)
    requires { length line.old + grant_bytes ≤ longest_line }
    ensures grant { line.new ≡ line.old ++ grant_text name.0 units }
    ensures few { length line.new ≤ length line.old + grant_bytes }
{
    if units == 0 {
        return;
    }
    line.push(b" ");
    line.push_name(name);
    line.push(b"=");
    line.push_number(units);
}

// Appends the grants of a plan's jobs to a line, or a dash if there are none.
#[tactic(auto, unfolding(crate::specs::Lines::grants_text))]
pub(crate) fn push_grants(line: &mut Line<LONGEST_LINE>, p: Plan, grants: &[u32])
    requires { length line.old + most_jobs * grant_bytes ≤ longest_line }
    ensures grants { line.new ≡ line.old ++ or_dash (grants_text p grants.now (counted p)) }
    ensures few { length line.new ≤ length line.old + most_jobs * grant_bytes }
{
    let before = line.len();
    for i in 0..counted_of(p) {
        let units = grants.get(i).copied().unwrap_or(0);
        push_grant(line, p.jobs[i].name, units);
    }
    if line.len() == before {
        line.push(b" -");
    }
}
