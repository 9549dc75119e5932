// Queries that have many of one part.
ghost use Rattle.std.specs.Prelude.{◌≤◌, string_len, IfOk};

use crate::bench::filling::longer;
use anyhow::Result;
use std::alloc::Global;

/// What a query has many of.
#[derive(Clone, Copy)]
pub enum Form {
    /// Blocks that each use the variable of the one before.
    Chain,
    /// Blocks that each use the variable of the one behind, so that they run in the other order.
    Back,
    /// A chain whose first block uses the variable of the last.
    Cycle,
    /// A chain before two blocks that use one another's variables, whose names come last.
    Behind,
    /// Literals of one function.
    Literals,
}

impl Form {
    /// Its word.
    pub fn word(self) -> &'static str {
        match self {
            Form::Chain => "chain",
            Form::Back => "back",
            Form::Cycle => "cycle",
            Form::Behind => "behind",
            Form::Literals => "literals",
        }
    }

    /// How many parts the largest query has.
    pub fn most(self) -> u32 {
        match self {
            Form::Chain | Form::Back | Form::Cycle | Form::Behind => 20_000,
            Form::Literals => 100_000,
        }
    }

    // What stands before the parts and behind them.
    fn ends(self) -> (&'static str, &'static str) {
        match self {
            Form::Chain => ("{ x0 as b0(func: uid(0x1)) { uid }", " }"),
            Form::Back | Form::Cycle => ("{", " }"),
            Form::Behind => (
                "{ x0 as b0(func: uid(0x1)) { uid }",
                " y as c(func: uid(z)) { uid } z as d(func: uid(y)) { uid } }",
            ),
            Form::Literals => ("{ q(func: eq(age, 0", ")) { uid } }"),
        }
    }
}

/// A query of so many parts.
pub fn query(alloc: Global, form: Form, count: u32) -> Result<String>
    ensures { IfOk result (λ text. string_len text ≤ 1048576) }
{
    let (front, back) = form.ends();
    let mut text = longer(String::new(alloc), front)?;
    for number in 1..=count {
        let next = part(alloc, form, number, count)?;
        text = longer(text, next.as_str())?;
    }
    longer(text, back)
}

// A part of so many.
fn part(alloc: Global, form: Form, number: u32, count: u32) -> Result<String> {
    match form {
        Form::Chain | Form::Behind => block(alloc, number, number.saturating_sub(1)),
        Form::Back => back_block(alloc, number, count),
        Form::Cycle => cycle_block(alloc, number, count),
        Form::Literals => Ok(format!(in alloc; ", {number}")?),
    }
}

// A block that uses the variable of another.
fn block(alloc: Global, number: u32, used: u32) -> Result<String> {
    Ok(format!(in alloc; " x{number} as b{number}(func: uid(x{used})) {{ uid }}")?)
}

// A block that uses the variable of the one before; the first uses that of the last.
fn cycle_block(alloc: Global, number: u32, count: u32) -> Result<String> {
    if number == 1 {
        return block(alloc, number, count);
    }
    block(alloc, number, number.saturating_sub(1))
}

// A block that uses the variable of the one behind; the last uses none.
fn back_block(alloc: Global, number: u32, count: u32) -> Result<String> {
    if number < count {
        return block(alloc, number, number.saturating_add(1));
    }
    Ok(format!(in alloc; " x{number} as b{number}(func: uid(0x1)) {{ uid }}")?)
}
