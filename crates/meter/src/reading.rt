// A reading of the line meter, and the speed that it gives.
ghost use Rattle.std.specs.Prelude.{◌≡◌, true};
ghost use Rattle.std.specs.Float.Ieee.Scale.{finite};
ghost use Rattle.meter.specs.Speed.{normal_allowed, are_finite, lowest_wrong, whole_rate, told_within};
ghost use Rattle.meter.specs.Answers.{metered_view, Meters};

use plan::kinds::Rate;
use plan::refusal::Reason;
use plan::rules::rates_allowed;

// What the meter reports of a slot, in units per slot: the mean rate and the lowest.
#[derive(Clone, Copy)]
pub struct Reading {
    pub mean: f64,
    pub lowest: f64,
}

// The least floor of rule 4.
const LEAST_FLOOR: u16 = 1;

// Whether n can be a normal rate.
pub(crate) fn normal_allowed(n: u16) -> bool
    ensures { result ≡ normal_allowed n }
{
    rates_allowed(Rate(n), Rate(LEAST_FLOOR))
}

// Whether both rates are numbers between the infinities.
#[tactic(auto, using(crate::proofs::RateLaws::finite_is))]
fn are_finite(reading: Reading) -> bool
    ensures { result ≡ are_finite reading }
{
    reading.mean.is_finite() & reading.lowest.is_finite()
}

// Whether the lowest rate is below zero or above the mean.
#[tactic(auto, using(crate::proofs::RateLaws::lowest_is))]
fn lowest_wrong(reading: Reading) -> bool
    requires { are_finite reading ≡ true }
    ensures { result ≡ lowest_wrong reading }
{
    (reading.lowest < 0.0) | (reading.mean < reading.lowest)
}

// The greatest whole number from 0 to n that is not above a rate, by halves: `low` is not above it, `high` is,
// or is n + 1.
#[tactic(auto, using(crate::proofs::RateLaws::compared_below, crate::proofs::RateLaws::compared_above))]
fn whole_rate(rate: f64, n: u16) -> u16
    requires { finite rate ≡ true }
    ensures { result ≡ whole_rate rate n }
{
    let mut low: u32 = 0;
    let mut high = u32::from(n) + 1;
    while low + 1 < high {
        let middle = (low + high) / 2;
        if rate < f64::from(middle) {
            high = middle;
        } else {
            low = middle;
        }
    }
    low as u16
}

// The speed of a reading whose rates are numbers; n is not tested.
pub(crate) fn speed_within(reading: Reading, n: u16) -> Result<u16, Reason>
    requires { are_finite reading ≡ true }
    ensures { metered_view result ≡ told_within reading n }
{
    if lowest_wrong(reading) {
        return Err(Reason::WrongLowest);
    }
    Ok(whole_rate(reading.lowest, n))
}

// The speed of a reading on a link with the normal rate n.
pub fn speed_of(reading: Reading, n: u16) -> Result<u16, Reason>
    ensures { Meters reading n result }
{
    if !normal_allowed(n) {
        return Err(Reason::WrongRates);
    }
    if !are_finite(reading) {
        return Err(Reason::NotFinite);
    }
    speed_within(reading, n)
}
