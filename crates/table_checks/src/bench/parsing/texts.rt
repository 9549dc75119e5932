// Queries that have many of one part.
ghost use Rattle.std.specs.Prelude.{◌≤◌, string_len, IfOk};

use crate::MOST;
use crate::bench::filling::longer;
use anyhow::Result;
use std::alloc::Global;

/// What a query has many of.
#[derive(Clone, Copy)]
pub enum Form {
    /// Fields, each of another key.
    Fields,
    /// Fields of one letter, of which the second is refused, and all are read.
    Letters,
    /// Literals of one function.
    Literals,
    /// Functions of one filter.
    Filters,
    /// `not` before one function.
    Nots,
}

impl Form {
    /// Its word.
    pub fn word(self) -> &'static str {
        match self {
            Form::Fields => "fields",
            Form::Letters => "letters",
            Form::Literals => "literals",
            Form::Filters => "filters",
            Form::Nots => "nots",
        }
    }

    // What stands before the parts and behind them.
    fn ends(self) -> (&'static str, &'static str) {
        match self {
            Form::Fields | Form::Letters => ("{ q(func: uid(0x1)) { uid", " } }"),
            Form::Literals => ("{ q(func: eq(age, 0", ")) { uid } }"),
            Form::Filters => ("{ q(func: uid(0x1)) @filter(has(name)", ") { uid } }"),
            Form::Nots => ("{ q(func: uid(0x1)) @filter(not", " has(name)) { uid } }"),
        }
    }
}

/// A query of so many bytes, or somewhat fewer.
pub fn query(alloc: Global, form: Form, size: usize) -> Result<String>
    ensures { IfOk result (λ text. string_len text ≤ 1048576) }
{
    let (front, back) = form.ends();
    let mut text = longer(String::new(alloc), front)?;
    let most = size.min(MOST).saturating_sub(back.len());
    for number in 1..=MOST as u32 {
        let next = part(alloc, form, number)?;
        if text.len() + next.len() > most {
            break;
        }
        text = longer(text, next.as_str())?;
    }
    longer(text, back)
}

fn part(alloc: Global, form: Form, number: u32) -> Result<String> {
    let text = match form {
        Form::Fields => format!(in alloc; " f{number}"),
        Form::Letters => format!(in alloc; " a"),
        Form::Literals => format!(in alloc; ", {number}"),
        Form::Filters => format!(in alloc; " or has(p)"),
        Form::Nots => format!(in alloc; " not"),
    };
    Ok(text?)
}
