// What reading queries costs, for queries of five forms, each of a quarter, a half and all of a MiB.
mod texts;

ghost use Rattle.std.specs.Prelude.{◌≤◌, length};

use crate::MOST;
use crate::bench::growth::hundredths;
use crate::bench::parsing::texts::{Form, query};
use anyhow::Result;
use dg_parse::parse;
use std::alloc::Global;
use std::time::{Clock, Instant};

// How often a text is read, of which the shortest time counts.
const TURNS: u32 = 5;

// Prints tenths of a nanosecond a byte, and the exponent by which the time grows with the text, in hundredths; or, without
// times, whether each was read.
pub(crate) fn print_forms(rt: &(impl Print + Clock), alloc: Global, timed: bool) -> Result<()> {
    for form in [
        Form::Fields,
        Form::Letters,
        Form::Literals,
        Form::Filters,
        Form::Nots,
    ] {
        print_form(rt, alloc, form, timed)?;
    }
    Ok(())
}

fn print_form(rt: &(impl Print + Clock), alloc: Global, form: Form, timed: bool) -> Result<()> {
    let quarter = print_size(rt, alloc, form, MOST / 4, timed)?;
    print_size(rt, alloc, form, MOST / 2, timed)?;
    let whole = print_size(rt, alloc, form, MOST, timed)?;
    if timed {
        let exponent = hundredths(quarter, whole);
        println!(rt; "{} grow by {exponent} hundredths", form.word())?;
    }
    Ok(())
}

// Prints one size, and gives the nanoseconds of its shortest turn.
fn print_size(
    rt: &(impl Print + Clock),
    alloc: Global,
    form: Form,
    size: usize,
    timed: bool,
) -> Result<u128> {
    let text = query(alloc, form, size)?;
    let named = form.word();
    let bytes = text.len();
    if timed {
        let taken = shortest(rt, alloc, text.as_str())?;
        let each = taken.saturating_mul(10) / (bytes.max(1) as u128);
        println!(rt; "{named} in {bytes} bytes: {each} tenths of a ns a byte")?;
        Ok(taken)
    } else {
        let read = parse(alloc, text.as_str()).is_ok();
        println!(rt; "{named} in {bytes} bytes, read {read}")?;
        Ok(0)
    }
}

// The nanoseconds of the shortest of some turns.
fn shortest(rt: &impl Clock, alloc: Global, text: &str) -> Result<u128>
    requires { length text.now ≤ 1048576 }
{
    let mut least = u128::MAX;
    for _ in 0..TURNS {
        let before = Instant::now(rt)?;
        let read = parse(alloc, text);
        least = least.min(before.elapsed(rt)?.as_nanos());
        drop(read);
    }
    Ok(least)
}
