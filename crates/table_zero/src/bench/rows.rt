// The lines that are printed, and the watches that make them.
use crate::bench::fault::Fault;
use anyhow::Result;
use std::alloc::Global;
use std::num::nearest_u64_to_f64;
use std::time::{Clock, Instant};

// How many bytes are taken before a time begins: more than the allocator keeps apart as small.
const LARGE: usize = 65_536;

// How many times the clock is read, to know what that takes.
const READ: u64 = 10_000;

// Whether times are printed, and the nanoseconds that pass while the clock is read so many times.
#[derive(Clone, Copy)]
pub(crate) struct Plan {
    timed: bool,
    clock: u128,
}

impl Plan {
    pub(crate) fn new(rt: &impl Clock, timed: bool) -> Result<Plan> {
        let mut watch = Watch::new(0);
        for _ in 0..READ {
            let since = Instant::now(rt)?;
            watch.stop(rt, since)?;
        }
        let clock = watch.nanos();
        Ok(Plan { timed, clock })
    }

    // A watch that has not run.
    pub(crate) fn watch(&self) -> Watch {
        Watch::new(self.clock)
    }
}

// What passed while a watch ran, in nanoseconds, and how many times it ran.
#[derive(Clone, Copy)]
pub(crate) struct Watch {
    clock: u128,
    taken: u128,
    runs: u64,
}

impl Watch {
    fn new(clock: u128) -> Watch {
        Watch {
            clock,
            taken: 0,
            runs: 0,
        }
    }

    // Adds what passed since an instant.
    pub(crate) fn stop(&mut self, rt: &impl Clock, since: Instant) -> Result<()> {
        let passed = since.elapsed(rt)?.as_nanos();
        self.taken = self.taken.saturating_add(passed);
        self.runs = self.runs.saturating_add(1);
        Ok(())
    }

    // What passed in all. What the clock took itself is left out.
    fn nanos(&self) -> u128 {
        let clock = self.clock.saturating_mul(u128::from(self.runs)) / u128::from(READ);
        self.taken.saturating_sub(clock)
    }
}

// A watch of Zero's calls, and one of the oracle alone.
#[derive(Clone, Copy)]
pub(crate) struct Beside {
    pub(crate) zero: Watch,
    pub(crate) alone: Watch,
}

impl Beside {
    pub(crate) fn new(plan: Plan) -> Beside {
        let zero = plan.watch();
        let alone = plan.watch();
        Beside { zero, alone }
    }
}

// How many calls were made at a size, what they took together, and how many of them found something.
#[derive(Clone, Copy)]
pub(crate) struct Calls {
    pub(crate) size: u64,
    pub(crate) calls: u64,
    pub(crate) found: u64,
    pub(crate) watch: Watch,
}

impl Calls {
    // The nanoseconds of one call.
    fn each(&self) -> u128 {
        self.watch.nanos() / u128::from(self.calls.max(1))
    }
}

// The rows of one kind of call, at sizes that grow.
#[derive(Clone, Copy)]
pub(crate) struct Series {
    plan: Plan,
    name: &'static str,
    before: Option<Calls>,
}

impl Series {
    pub(crate) fn new(plan: Plan, name: &'static str) -> Series {
        Series {
            plan,
            name,
            before: None,
        }
    }

    // Prints what each call takes and by which power of the size that grows, or else how many calls found something.
    pub(crate) fn print(&mut self, rt: &impl Print, calls: Calls) -> Result<()> {
        let (size, name, each) = (calls.size, self.name, calls.each());
        let (count, found) = (calls.calls, calls.found);
        if !self.plan.timed {
            println!(rt; "{size} {name}: {found} found, {count} calls")?;
            return Ok(());
        }
        match self.before {
            None => println!(rt; "{size} {name}: {each} ns, {count} calls")?,
            Some(before) => {
                let power = power(&before, &calls);
                println!(rt; "{size} {name}: {each} ns, {count} calls, by n^{power:.2}")?;
            }
        }
        self.before = Some(calls);
        Ok(())
    }

    // The same, and then how many times longer it is than what the oracle alone takes.
    pub(crate) fn print_beside(
        &mut self,
        rt: &impl Print,
        size: u64,
        calls: u64,
        beside: Beside,
    ) -> Result<()> {
        let of = |watch: Watch| Calls {
            size,
            calls,
            found: calls,
            watch,
        };
        let zero = of(beside.zero);
        let alone = of(beside.alone);
        self.print(rt, zero)?;
        if self.plan.timed {
            let (name, each) = (self.name, alone.each());
            let times = ratio(&zero, &alone);
            println!(rt; "{size} {name}, the oracle alone: {each} ns, {times:.2} times")?;
        }
        Ok(())
    }
}

// How many times what one watch tells is of another.
fn ratio(zero: &Calls, alone: &Calls) -> f64 {
    nanos(zero) / nanos(alone)
}

// By which power of the size a call's time grows.
fn power(before: &Calls, after: &Calls) -> f64 {
    let size = nearest_u64_to_f64(after.size) / nearest_u64_to_f64(before.size);
    (nanos(after) / nanos(before)).ln() / size.ln()
}

// The nanoseconds of one call, with their fraction.
fn nanos(calls: &Calls) -> f64 {
    let taken = u64::try_from(calls.watch.nanos()).unwrap_or(u64::MAX);
    nearest_u64_to_f64(taken.max(1)) / nearest_u64_to_f64(calls.calls.max(1))
}

// The time now. What was let go in small pieces before is first joined by the allocator, which it does when it is asked for a
// large one: else the row that asks next pays for all of it.
pub(crate) fn begin(rt: &impl Clock, alloc: Global) -> Result<Instant> {
    settle(alloc)?;
    Ok(Instant::now(rt)?)
}

// Takes a large piece of memory, and lets it go.
fn settle(alloc: Global) -> Result<(), Fault> {
    let mut bytes: Vec<u8> = Vec::with_capacity(alloc, LARGE)?;
    bytes.push(0)?;
    Ok(())
}
