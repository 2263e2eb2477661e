// The calls for hosts on readings of the line meter.
ghost use Rattle.std.specs.Prelude.{◌≡◌, Err};
ghost use Rattle.plan.specs.Refusal.{number_of as reason_number};
ghost use Rattle.meter.specs.Answers.{answer_view};
ghost use Rattle.gateway.specs.Calls.{log_number, log_offset};
ghost use Rattle.gateway.specs.Answers.{HostMeters, HostReadsLog};

use crate::answers::number_of;
use meter::log::{LogFault, read_log};
use meter::reading::{Reading, speed_of};
use plan::refusal::{DONE, Reason};

// The speed of a reading on a link with the normal rate n: its number, and the speed in `speed`, 0 if the reading is refused.
pub fn gateway_meter(mean: f64, lowest: f64, n: u16, speed: &mut u16) -> u32
    ensures { HostMeters mean lowest n result speed.new }
{
    let told = speed_of(Reading { mean, lowest }, n);
    *speed = told.unwrap_or(0);
    number_of(&told)
}

// The reason for which a log is refused.
fn reason_of(fault: LogFault) -> Reason
    ensures { reason_number result ≡ log_number (answer_view (Err fault)) }
{
    match fault {
        LogFault::WrongRate => Reason::WrongRates,
        LogFault::TooShort => Reason::BufferTooShort,
        LogFault::Refused(refusal) => refusal.reason,
    }
}

// Where a refused log is wrong; 0 with a reason that names no offset.
fn offset_of(fault: LogFault) -> usize
    ensures { result ≡ log_offset (answer_view (Err fault)) }
{
    match fault {
        LogFault::Refused(refusal) => refusal.offset,
        _ => 0,
    }
}

// Reads a meter log into the lent list of speeds: its number, in `count` how many speeds were written, and in `offset` where a
// refused log is wrong; 0 each if there is none. A refusal leaves the list as it was.
pub fn gateway_speeds(
    log: &[u8],
    n: u16,
    speeds: &mut [u16],
    count: &mut usize,
    offset: &mut usize,
) -> u32
    ensures { HostReadsLog log.now n speeds.old result speeds.new count.new offset.new }
{
    match read_log(log, n, speeds) {
        Ok(taken) => {
            *count = taken;
            *offset = 0;
            u32::from(DONE)
        }
        Err(fault) => {
            *count = 0;
            *offset = offset_of(fault);
            reason_of(fault).into()
        }
    }
}
