// The two classes of jobs.
ghost use Rattle.std.specs.Prelude.{◌≡◌, ◌<◌};
ghost use Rattle.desk.specs.Timetable.{is_of, turn};
ghost use Rattle.desk.specs.Inner.Classes.{from_back};

use plan::kinds::HI;

// Essential jobs are taken in their order, and the others from the back.
#[derive(Clone, Copy)]
pub(crate) enum Class {
    Lo,
    Hi,
}

impl Class {
    // Whether a grade is of the class.
    pub(crate) fn has(self, grade: u32) -> bool
        ensures { result ≡ is_of (from_back self) grade }
    {
        let essential = grade == u32::from(HI);
        match self {
            Class::Lo => !essential,
            Class::Hi => essential,
        }
    }

    // Number k of n numbers in their order, or from the back.
    pub(crate) fn turn(self, n: usize, k: usize) -> usize
        requires { k < n }
        ensures { (result ≡ turn (from_back self) n k) × (result < n) }
    {
        match self {
            Class::Lo => n - 1 - k,
            Class::Hi => k,
        }
    }
}
