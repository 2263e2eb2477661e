// The answer to why no timetable can be drawn up.
ghost use Rattle.plan.specs.Refusal.{HasNumber};
ghost use Rattle.plan.specs.Report.{number_of};
ghost use Rattle.desk.specs.Answers.{shortage_view};

use plan::kinds::{Slots, Units};
use plan::refusal::Reason;

// Rules 4 to 9 do not hold; or releases differ; or the first pair of times by which no timetable exists: `due` is a HI
// deadline and `late` a LO deadline, or the common release for either; with what is asked and what the link carries.
#[derive(Clone, Copy)]
pub enum Shortage {
    Unsound,
    ReleasesDiffer,
    Pair {
        due: Slots,
        late: Slots,
        asked: Units,
        carried: Units,
    },
}

impl Shortage {
    // The reason for which the desk then refuses.
    pub fn reason(self) -> Reason
        ensures { HasNumber (number_of (shortage_view self)) result }
    {
        match self {
            Shortage::Unsound => Reason::Unsound,
            Shortage::ReleasesDiffer => Reason::ReleasesDiffer,
            Shortage::Pair { .. } => Reason::NoTimetable,
        }
    }
}
