// Rows of tables of names and codes.
use crate::fault::Fault;
use crate::fields::{plain, quoted, unquoted, word};
use crate::verbs::arguments;
use dg_table::{Name, Table, rows};
use std::alloc::Global;

// Forty names.
const WORDS: &str = "ab ad ae ag ah ai al am an ar as at aw ax ay ba be bi bo by \
    da de di do ed ef eh el em en er es et ex fa fe ga gi go ha";

// A name that stands in a row of standard input.
#[derive(Clone, Copy)]
struct Word<'a>(&'a str);

impl<'a> Name for Word<'a> {
    ghost bytes = { λ word. word.0.now };

    fn as_str(&self) -> &str {
        self.0
    }
}

// `table NAME | find | TEXT`, `table NAME | name_of | CODE`: a look-up in a table of that name.
pub(crate) fn table_row(alloc: Global, call: &str, fields: &[&str]) -> Result<String, Fault> {
    match call {
        "new" => made(alloc, fields),
        "verbs" => counted(alloc, fields),
        "kinds" => asked(alloc, &kinds(), fields),
        "nothing" => asked(alloc, &nothing(), fields),
        "words" => match forty() {
            Some(table) => asked(alloc, &table, fields),
            None => Err(Fault::Unreadable),
        },
        _ => Err(Fault::Unreadable),
    }
}

fn kinds() -> Table<3> {
    Table::new(rows! { "uid" => 7, "int" => 300, "" => 0 }).unwrap()
}

fn nothing() -> Table<0> {
    Table::<0>::new(rows! {}).unwrap()
}

// The forty names, each with its place as its code.
fn forty() -> Option<Table<40>> {
    let mut rows = [("", 0); 40];
    for (i, word) in WORDS.split_whitespace().enumerate() {
        if i < 40 {
            rows[i] = (word, i as u16);
        }
    }
    Table::new(rows)
}

// What a table answers.
fn asked<const N: usize, S: Name>(
    alloc: Global,
    table: &Table<N, S>,
    fields: &[&str],
) -> Result<String, Fault> {
    match *fields {
        ["find", name] => code_text(alloc, table.find(plain(alloc, name)?.as_str())),
        ["name_of", code] => match table.name_of(code_of(code)?) {
            Some(name) => quoted(alloc, name.as_str()),
            None => word(alloc, "none"),
        },
        _ => Err(Fault::Unreadable),
    }
}

fn code_of(field: &str) -> Result<u16, Fault> {
    field.parse::<u16>().ok().ok_or(Fault::Unreadable)
}

fn code_text(alloc: Global, code: Option<u16>) -> Result<String, Fault> {
    match code {
        Some(code) => Ok(code.to_string(alloc)?),
        None => word(alloc, "none"),
    }
}

// `table verbs | arguments | NAME`: how many arguments the verb takes.
fn counted(alloc: Global, fields: &[&str]) -> Result<String, Fault> {
    match *fields {
        ["arguments", name] => match arguments(plain(alloc, name)?.as_str()) {
            Some(count) => Ok(count.to_string(alloc)?),
            None => word(alloc, "none"),
        },
        _ => Err(Fault::Unreadable),
    }
}

// `table new | NAME CODE | ..`: whether there is a table of these rows.
fn made(alloc: Global, fields: &[&str]) -> Result<String, Fault> {
    let is_made = match *fields {
        [] => Table::<0, Word<'_>>::new([]).is_some(),
        [a] => Table::<1, Word<'_>>::new([row_of(a)?]).is_some(),
        [a, b] => Table::<2, Word<'_>>::new([row_of(a)?, row_of(b)?]).is_some(),
        [a, b, c] => Table::<3, Word<'_>>::new([row_of(a)?, row_of(b)?, row_of(c)?]).is_some(),
        _ => return Err(Fault::Unreadable),
    };
    word(alloc, if is_made { "a table" } else { "refused" })
}

// A row's name and code.
fn row_of(field: &str) -> Result<(Word<'_>, u16), Fault> {
    let (name, code) = field.rsplit_once(' ').ok_or(Fault::Unreadable)?;
    Ok((Word(unquoted(name)?), code_of(code)?))
}
