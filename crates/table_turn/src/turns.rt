// What callers do, and what comes of it.
ghost use Rattle.std.specs.Prelude.{◌≡◌, ◌<◌, IfOk};

use crate::visits::{Visits, open, visit, visit_often};
use dg_turn::{Caller, Turn};
use std::alloc::{AllocError, Global};
use std::fmt::Write;
use std::sync::Wait;
use std::thread::{Threads, join};

/// `numbers | CALLERS`: the numbers of so many callers
pub fn numbers(alloc: Global, callers: u32) -> Result<String, AllocError>
    requires { 0 < callers }
{
    let (_turn, callers) = open(alloc, callers)?;
    let mut text = String::from_str(alloc, "numbered")?;
    for caller in &callers {
        write!(text, " {}", caller.number())?;
    }
    Ok(text)
}

/// `two | TIMES`: two callers in two threads take so many turns each
pub fn two<R: Threads + Wait + Sync>(
    rt: &R,
    alloc: Global,
    times: u32,
) -> Result<String, AllocError> {
    let (turn, mut callers) = open(alloc, 2)?;
    let second = callers.pop().unwrap();
    let first = callers.pop().unwrap();
    let (one, other) = join(
        rt,
        || visit_often(rt, alloc, &turn, first, times),
        || visit_often(rt, alloc, &turn, second, times),
    );
    let (first, firsts) = one?;
    let (second, seconds) = other?;
    callers.push(first)?;
    callers.push(second)?;
    let came = came(alloc, turn.close(callers))?;
    let mut text = format!(in alloc; "{} entries", came.len())?;
    push_places(&mut text, &came, &firsts, 0)?;
    push_places(&mut text, &came, &seconds, 1)?;
    Ok(text)
}

// Who came, in order.
fn came(alloc: Global, visits: Visits) -> Result<Vec<u32>, AllocError> {
    visits.numbers.iter().copied().collect(alloc)
}

// Adds how many places a caller was told, whether they ascend, and whether each is of an entry of its own.
fn push_places(
    text: &mut String,
    came: &[u32],
    places: &[usize],
    number: u32,
) -> Result<(), AllocError> {
    let ascend = places.is_sorted_by(|a, b| a < b);
    let own = places.iter().all(|place| came.get(*place) == Some(&number));
    write!(
        text,
        "; {} places of {number}, ascending {ascend}, own {own}",
        places.len()
    )
}

/// `note | TIMES`: the first of two callers takes so many turns and writes a note, the second reads it and takes one
pub fn note<R: Wait>(rt: &R, alloc: Global, times: u32) -> Result<String, AllocError> {
    let (turn, mut callers) = open(alloc, 2)?;
    let second = callers.pop().unwrap();
    let first = callers.pop().unwrap();
    let (first, _places) = visit_often(rt, alloc, &turn, first, times)?;
    let (first, note) = turn.note(first);
    let second = turn.meet(second, note);
    let (second, place) = visit(rt, alloc, &turn, second)?;
    callers.push(first)?;
    callers.push(second)?;
    let mut text = format!(in alloc; "last place {place}, and came")?;
    for number in &came(alloc, turn.close(callers))? {
        write!(text, " {number}")?;
    }
    Ok(text)
}

/// `four | TIMES`: four callers in two threads at a time take so many turns each, notes are passed round, and the first
/// takes one more
pub fn four<R: Threads + Wait + Sync>(
    rt: &R,
    alloc: Global,
    times: u32,
) -> Result<String, AllocError> {
    let (turn, mut callers) = open(alloc, 4)?;
    let d = callers.pop().unwrap();
    let c = callers.pop().unwrap();
    let b = callers.pop().unwrap();
    let a = callers.pop().unwrap();
    let (a, b) = in_two_threads(rt, alloc, &turn, a, b, times)?;
    let (c, d) = in_two_threads(rt, alloc, &turn, c, d, times)?;
    let (a, note) = turn.note(a);
    let b = turn.meet(b, note);
    let (b, note) = turn.note(b);
    let c = turn.meet(c, note);
    let (c, note) = turn.note(c);
    let d = turn.meet(d, note);
    let (d, note) = turn.note(d);
    let a = turn.meet(a, note);
    let (a, place) = visit(rt, alloc, &turn, a)?;
    callers.push(b)?;
    callers.push(d)?;
    callers.push(a)?;
    callers.push(c)?;
    let came = came(alloc, turn.close(callers))?;
    let mut text = format!(in alloc; "last place {place}, {} entries", came.len())?;
    for number in 0..4u32 {
        let own = came.iter().filter(|n| **n == number).count();
        write!(text, ", {own} of {number}")?;
    }
    Ok(text)
}

// Two callers take so many turns each, in two threads.
fn in_two_threads<R: Threads + Wait + Sync>(
    rt: &R,
    alloc: Global,
    turn: &Turn<Visits>,
    first: Caller<Visits>,
    second: Caller<Visits>,
    times: u32,
) -> Result<(Caller<Visits>, Caller<Visits>), AllocError>
    requires first { first.turn ≡ turn.now.id }
    requires second { second.turn ≡ turn.now.id }
    ensures first { IfOk result (λ made. made.0.turn ≡ first.turn) }
    ensures second { IfOk result (λ made. made.1.turn ≡ second.turn) }
{
    let (one, other) = join(
        rt,
        || visit_often(rt, alloc, turn, first, times),
        || visit_often(rt, alloc, turn, second, times),
    );
    let (first, _firsts) = one?;
    let (second, _seconds) = other?;
    Ok((first, second))
}
