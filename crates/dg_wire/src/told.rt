// Words with fields behind them, as a line has them.
ghost use Rattle.std.specs.Prelude.{◌≡◌, ◌++◌, codes, length, take, OnOk, OnErr};
ghost use Rattle.std.specs.Fmt.{decimal};
ghost use Rattle.dg_wire.specs.Told.{field_text, told_text};

use dg_values::{List, Mem, OutOfMemory, Str};
use itoa::Buffer;
use std::alloc::Global;
use std::fmt;

/// A field.
#[derive(Clone, Copy)]
pub enum Field<'a> {
    Name(&'a Str),
    Small(&'a u32),
    Number(&'a u64),
    Signed(&'a i64),
    /// A number in hexadecimal.
    Uid(&'a u64),
    /// How long a body is.
    Len(&'a List<u8>),
}

impl fmt::Display for Field<'_> {
    ghost use Rattle.std.specs.Prelude.{Some};

    ghost output = { λ field. Some (field_text field) };

    fn fmt<W: fmt::Write>(&self, f: &mut fmt::Formatter<W>) -> fmt::Result {
        match self {
            Field::Name(name) => write!(f, "{name}"),
            Field::Small(number) => write!(f, "{number}"),
            Field::Number(number) => write!(f, "{number}"),
            Field::Signed(number) => write!(f, "{number}"),
            Field::Uid(uid) => write!(f, "0x{uid:x}"),
            Field::Len(body) => write!(f, "{}", body.len()),
        }
    }
}

// Adds a number in decimal.
fn push_number(out: &mut Vec<u8>, number: u64) -> Mem<()>
    ensures ok { OnOk result (out.new.items ≡ out.old.items ++ decimal number) }
    ensures err { OnErr result (out.new.items ≡ out.old.items) }
{
    let mut buffer = Buffer::new();
    Ok(out.extend_from_slice(buffer.format(number).as_bytes())?)
}

// Adds the text of a field. Those that only refusals have are formatted.
fn push_field(alloc: Global, out: &mut Vec<u8>, field: Field<'_>) -> Mem<()>
    ensures ok { OnOk result (out.new.items ≡ out.old.items ++ field_text field.entry) }
    ensures err { OnErr result (out.new.items ≡ out.old.items) }
{
    match field {
        Field::Name(name) => Ok(out.extend_from_slice(name.as_str().as_bytes())?),
        Field::Small(number) => push_number(out, u64::from(*number)),
        Field::Number(number) => push_number(out, *number),
        Field::Len(body) => push_number(out, body.len() as u64),
        Field::Signed(_) | Field::Uid(_) => {
            let text = format!(in alloc; "{field}")?;
            Ok(out.extend_from_slice(text.as_bytes())?)
        }
    }
}

// Adds a field and a blank in front of it.
fn push_next(alloc: Global, out: &mut Vec<u8>, field: Field<'_>) -> Mem<()>
    ensures ok { OnOk result (out.new.items ≡ out.old.items ++ codes " " ++ field_text field.entry) }
    ensures err { OnErr result (take (length out.old.items) out.new.items ≡ out.old.items) }
{
    out.push(b' ')?;
    push_field(alloc, out, field)
}

// Adds two fields, each with a blank in front of it.
fn push_both(alloc: Global, out: &mut Vec<u8>, first: Field<'_>, second: Field<'_>) -> Mem<()>
    ensures ok { OnOk result (out.new.items ≡ out.old.items ++ (codes " " ++ (field_text first.entry ++ (codes " " ++ field_text second.entry)))) }
    ensures err { OnErr result (take (length out.old.items) out.new.items ≡ out.old.items) }
{
    push_next(alloc, out, first)?;
    push_next(alloc, out, second)
}

/// Adds words.
pub fn push_words(out: &mut Vec<u8>, words: &str) -> Mem<()>
    ensures ok { OnOk result (out.new.items ≡ out.old.items ++ words.now) }
    ensures err { OnErr result (out.new.items ≡ out.old.items) }
{
    Ok(out.extend_from_slice(words.as_bytes())?)
}

/// Adds words with fields behind them. An `Err` may add a part of them.
pub fn push_told(alloc: Global, out: &mut Vec<u8>, told: Told<'_>) -> Mem<()>
    ensures ok { OnOk result (out.new.items ≡ out.old.items ++ told_text told.entry) }
    ensures err { OnErr result (take (length out.old.items) out.new.items ≡ out.old.items) }
{
    match told {
        Told::Alone(words) => push_words(out, words),
        Told::One(words, field) => {
            push_words(out, words)?;
            push_field(alloc, out, field)
        }
        Told::Two(words, first, second) => {
            push_words(out, words)?;
            push_field(alloc, out, first)?;
            push_next(alloc, out, second)
        }
        Told::Three(words, first, second, third) => {
            push_words(out, words)?;
            push_field(alloc, out, first)?;
            push_both(alloc, out, second, third)
        }
    }
}

/// Words, which end in a blank where fields stand behind them, and these with a blank between two.
#[derive(Clone, Copy)]
pub enum Told<'a> {
    Alone(&'static str),
    One(&'static str, Field<'a>),
    Two(&'static str, Field<'a>, Field<'a>),
    Three(&'static str, Field<'a>, Field<'a>, Field<'a>),
}

impl fmt::Display for Told<'_> {
    ghost use Rattle.std.specs.Prelude.{Some};

    ghost output = { λ told. Some (told_text told) };

    fn fmt<W: fmt::Write>(&self, f: &mut fmt::Formatter<W>) -> fmt::Result {
        match self {
            Told::Alone(words) => write!(f, "{words}"),
            Told::One(words, field) => write!(f, "{words}{field}"),
            Told::Two(words, first, second) => write!(f, "{words}{first} {second}"),
            Told::Three(words, first, second, third) => write!(
                f,
                "{words}{first} {second} {third}"
            ),
        }
    }
}
