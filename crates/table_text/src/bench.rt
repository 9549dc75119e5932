// What reading the statements of a mutation costs, for bodies of two forms.
ghost use Rattle.std.specs.Prelude.{◌≤◌, string_len, IfOk};

use crate::MOST;
use anyhow::Result;
use dg_nquad::read_mutation;
use std::alloc::Global;
use std::time::{Clock, Instant};

// What the statements of a body say.
#[derive(Clone, Copy)]
enum Form {
    // The name of a new node, by a Blank.
    Name,
    // A friend of a node, by their numbers.
    Friend,
}

// Prints nanoseconds, or else how many statements of some were read.
pub(crate) fn print_costs(rt: &(impl Print + Clock), alloc: Global, timed: bool) -> Result<()> {
    for count in [1_000, 10_000, 100_000] {
        print_form(rt, alloc, Form::Name, count, timed)?;
        print_form(rt, alloc, Form::Friend, count, timed)?;
    }
    Ok(())
}

fn print_form(
    rt: &(impl Print + Clock),
    alloc: Global,
    form: Form,
    count: u32,
    timed: bool,
) -> Result<()> {
    let text = body(alloc, form, count)?;
    let before = Instant::now(rt)?;
    let mutation = read_mutation(alloc, text.as_str())?;
    let taken = before.elapsed(rt)?.as_nanos();
    let read = mutation.statements.len();
    let named = word_of(form);
    if timed {
        let each = taken / u128::from(read.max(1) as u64);
        println!(rt;
            "{read} {named} in {} bytes: {each} ns a statement",
            text.len()
        )?;
    } else {
        println!(rt; "{read} {named} in {} bytes", text.len())?;
    }
    Ok(())
}

fn word_of(form: Form) -> &'static str {
    match form {
        Form::Name => "names",
        Form::Friend => "friends",
    }
}

// A body of so many statements, or as many as fit.
fn body(alloc: Global, form: Form, count: u32) -> Result<String>
    ensures { IfOk result (λ text. string_len text ≤ 1048576) }
{
    let mut text = String::new(alloc);
    for number in 1..=count {
        let next = statement(alloc, form, number)?;
        if text.len() + next.len() > MOST {
            break;
        }
        text.push_str(next.as_str())?;
    }
    Ok(text)
}

fn statement(alloc: Global, form: Form, number: u32) -> Result<String> {
    let friend = number / 2 + 1;
    let text = match form {
        Form::Name => format!(in alloc; "_:b{number} <name> \"n{number}\" .\n"),
        Form::Friend => format!(in alloc; "<0x{number:x}> <friend> <0x{friend:x}> .\n"),
    };
    Ok(text?)
}
