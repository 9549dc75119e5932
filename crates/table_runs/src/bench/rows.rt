// The lines that are printed.
use crate::bench::running::{counted, replies};
use crate::bench::scripts::Form;
use anyhow::Result;
use std::alloc::Global;
use std::num::nearest_u64_to_f64;
use std::time::{Clock, Instant};

// How many steps are timed.
const SIZES: [u64; 4] = [100, 1_000, 10_000, 100_000];

// How often a script is run, of which the shortest time counts.
const TURNS: u32 = 3;

// How many steps there were, and the nanoseconds that they took together.
#[derive(Clone, Copy)]
struct Taken {
    steps: u64,
    nanos: u64,
}

impl Taken {
    // The nanoseconds of one step.
    fn each(self) -> u64 {
        self.nanos / self.steps.max(1)
    }

    // By which power of the steps the time of all grows from here to there.
    fn power(self, there: Taken) -> f64 {
        let steps = float(there.steps) / float(self.steps);
        (float(there.nanos) / float(self.nanos)).ln() / steps.ln()
    }
}

// A number as a float, at least 1.
fn float(number: u64) -> f64 {
    nearest_u64_to_f64(number.max(1))
}

// How many replies and refusals small scripts have.
pub(crate) fn print_counts(rt: &impl Print, alloc: Global, form: Form) -> Result<()> {
    for steps in [16, 160] {
        let mut script = form.lead(alloc, steps)?;
        script.push_str(form.steps(alloc, steps)?.as_str())?;
        let sink = replies(alloc, script)?;
        let counts = counted(sink.bytes());
        let (all, refused) = (counts.replies, counts.refused);
        println!(rt;
            "{steps} {}: {all} replies, {refused} refusals",
            form.word()
        )?;
    }
    Ok(())
}

// What a step takes at each size, and by which power the time of all of them grows.
pub(crate) fn print_times(rt: &(impl Print + Clock), alloc: Global, form: Form) -> Result<()> {
    let mut before: Option<Taken> = None;
    for steps in SIZES {
        let taken = time_of(rt, alloc, form, steps)?;
        let each = taken.each();
        match before {
            None => println!(rt; "{steps} {}: {each} ns", form.word())?,
            Some(less) => {
                let power = less.power(taken);
                println!(rt; "{steps} {}: {each} ns, all by n^{power:.2}", form.word())?;
            }
        }
        before = Some(taken);
    }
    Ok(())
}

// What the steps take: the shortest time of the whole script, without that of its lead alone.
fn time_of(rt: &impl Clock, alloc: Global, form: Form, steps: u64) -> Result<Taken> {
    let lead = form.lead(alloc, steps)?;
    let mut whole = lead.clone()?;
    whole.push_str(form.steps(alloc, steps)?.as_str())?;
    let alone = shortest(rt, alloc, &lead)?;
    let nanos = shortest(rt, alloc, &whole)?.saturating_sub(alone);
    Ok(Taken { steps, nanos })
}

// The nanoseconds of the shortest of some turns.
fn shortest(rt: &impl Clock, alloc: Global, script: &String) -> Result<u64> {
    let mut least = u64::MAX;
    for _turn in 0..TURNS {
        let text = script.clone()?;
        let since = Instant::now(rt)?;
        let sink = replies(alloc, text)?;
        let taken = since.elapsed(rt)?.as_nanos();
        least = least.min(u64::try_from(taken).unwrap_or(u64::MAX));
        drop(sink);
    }
    Ok(least)
}
