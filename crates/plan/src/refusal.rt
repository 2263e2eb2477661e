// A refusal, and the reasons of all refusals.
ghost use Rattle.std.specs.Prelude.{◌≡◌};
ghost use Rattle.plan.specs.Refusal.{number_of};

// Why a call refuses. Each reason has its number, by which hosts and readers know it.
#[derive(Clone, Copy, Debug, PartialEq, Eq)]
pub enum Reason {
    // Of the reader.
    WrongVersion = 1,
    WrongExtent = 2,
    WrongRecordLength = 3,
    WrongRates = 4,
    WrongJobCount = 5,
    WrongNameByte = 6,
    NameTaken = 7,
    WrongGrade = 8,
    WrongJobBounds = 9,
    TooManyRows = 10,
    RowWithoutJob = 11,
    RowWithoutInterval = 12,
    RowWithoutUnits = 13,
    RowOutOfOrder = 14,

    // Of the judge, in the order in which it tests.
    OutsideWindow = 15,
    WrongTotal = 16,
    OverCapacity = 17,
    BelowFloorRule = 18,

    // Of the step.
    ClockAtEnd = 19,
    SpeedAboveNormal = 20,

    // Of several calls.
    Unsound = 21,
    BufferTooShort = 22,

    // Of a job list as text.
    WrongLine = 23,
    WrongHeader = 24,

    // Of the word that a transfer has ended.
    NoSuchJob = 25,
    CannotEnd = 26,

    // Of a list of speeds, and of a meter log.
    TooManySpeeds = 27,

    // Of the desk.
    ReleasesDiffer = 28,
    NoTimetable = 29,

    // Of a reading of the line meter.
    NotFinite = 30,
    WrongLowest = 31,
}

impl From<Reason> for u8 {
    ghost from_gives = { λ reason number. number ≡ number_of reason };

    fn from(reason: Reason) -> u8 {
        reason as u8
    }
}

impl From<Reason> for u32 {
    ghost from_gives = { λ reason number. number ≡ number_of reason };

    fn from(reason: Reason) -> u32 {
        reason as u32
    }
}

// The number of no refusal.
pub const DONE: u8 = 0;

// A refusal as every reading step hands it on: its reason, and the offset of the first byte of the field
// in hand.
#[derive(Clone, Copy, Debug, PartialEq, Eq)]
pub struct Refusal {
    pub reason: Reason,
    pub offset: usize,
}
