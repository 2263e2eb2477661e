// A run in the words that a host lends: decoding and encoding.
ghost use Rattle.std.specs.Prelude.{◌≡◌, map, ◌≤◌, length};
ghost use Rattle.std.proofs.lemmas.List.Edits.{sets};
ghost use Rattle.plan.specs.Edition.{most_jobs};
ghost use Rattle.hostmemory.specs.Memory.{ended_start, run_words, are_marks, marks_hold, is_set, run_of, moment_of, mark_out};
ghost use Rattle.hostmemory.specs.Answers.{PutsSlot, PutsRun};

use crate::sizes::Sizes;
use dispatch::{Moment, Run};
use plan::edition::Edition;
use plan::kinds::Slots;

// Whether all words are 0 or 1. It looks at all of them, which is faster than stopping early.
fn are_marks(words: &[u32]) -> bool
    ensures { result ≡ are_marks words.now }
{
    let mut so_far = true;
    for word in words {
        so_far = so_far & (*word <= 1);
    }
    so_far
}

// Whether there are enough words for a run, and all marks are 0 or 1.
pub fn marks_hold(words: &[u32]) -> bool
    ensures { result ≡ marks_hold words.now }
{
    if words.len() < Sizes::RUN {
        return false;
    }
    (words[1] <= 1) & (words[2] <= 1) & are_marks(&words[Sizes::ENDED..Sizes::RUN])
}

// The clock and the marks of the run that words encode; zeros for too few words.
pub fn moment_in(words: &[u32]) -> Moment
    ensures { result ≡ moment_of (run_of words.now) }
{
    if words.len() < Sizes::RUN {
        return Moment {
            clock: Slots(0),
            slow: false,
            below: false,
        };
    }
    Moment {
        clock: Slots(words[0]),
        slow: words[1] == 1,
        below: words[2] == 1,
    }
}

// The carried units of the run that words encode; zeros for too few words.
pub fn carried_in(words: &[u32]) -> [u32; Edition::MOST_JOBS]
    ensures { result ≡ (run_of words.now).carried }
{
    if words.len() < Sizes::RUN {
        return [0; Edition::MOST_JOBS];
    }
    let mut carried = [0; Edition::MOST_JOBS];
    carried.copy_from_slice(&words[Sizes::MARKS..Sizes::ENDED]);
    carried
}

// The words of a run's ended marks as an array.
fn ended_of(words: &[u32]) -> [bool; Edition::MOST_JOBS]
    requires { length words.now ≡ most_jobs }
    ensures { result ≡ map is_set words.now }
{
    let mut ended = [false; Edition::MOST_JOBS];
    for (i, word) in words.iter().enumerate() {
        ended[i] = *word == 1;
    }
    ended
}

// The ended marks of the run that words encode; clear for too few words.
pub fn ended_in(words: &[u32]) -> [bool; Edition::MOST_JOBS]
    ensures { result ≡ (run_of words.now).ended }
{
    if words.len() < Sizes::RUN {
        return [false; Edition::MOST_JOBS];
    }
    ended_of(&words[Sizes::ENDED..Sizes::RUN])
}

// The run that words encode; too few words encode a run of zeros. It is put into its callers: as a call, a slot would
// take longer.
#[inline(always)]
pub fn run_of(words: &[u32]) -> Run
    ensures { result ≡ run_of words.now }
{
    let at = moment_in(words);
    Run {
        clock: at.clock,
        slow: at.slow,
        below: at.below,
        carried: carried_in(words),
        ended: ended_in(words),
    }
}

// Writes the ended marks after the carried units.
fn put_ended(words: &mut [u32], ended: &[bool; Edition::MOST_JOBS])
    requires { run_words ≤ length words.old }
    ensures { words.new ≡ sets words.old ended_start (map mark_out ended.now) }
{
    for i in 0..Edition::MOST_JOBS {
        words[Sizes::ENDED + i] = u32::from(ended[i]);
    }
}

// Writes the words of what a slot changes of a run: clock, marks and carried units. Too few words are left
// unchanged. It is put into its callers, as `run_of` is.
#[inline(always)]
pub fn put_slot(words: &mut [u32], at: Moment, carried: &[u32; Edition::MOST_JOBS])
    ensures { PutsSlot words.old at carried.now words.new }
{
    if words.len() < Sizes::RUN {
        return;
    }
    words[0] = at.clock.0;
    words[1] = u32::from(at.slow);
    words[2] = u32::from(at.below);
    words[Sizes::MARKS..Sizes::ENDED].copy_from_slice(carried);
}

// Writes a run's words; too few words are left unchanged.
pub fn put_run(words: &mut [u32], run: Run)
    ensures { PutsRun words.old run words.new }
{
    if words.len() < Sizes::RUN {
        return;
    }
    let at = Moment {
        clock: run.clock,
        slow: run.slow,
        below: run.below,
    };
    put_slot(words, at, &run.carried);
    put_ended(words, &run.ended);
}
