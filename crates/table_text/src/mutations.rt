// What is read of mutations.
ghost use Rattle.std.specs.Prelude.{◌≤◌, length};

use crate::MOST;
use crate::pictures::{pictured, plain};
use dg_nquad::block::Block;
use dg_nquad::grammar::statements_at;
use dg_nquad::{Node, NquadFault, Object, Statement, read_mutation};
use dg_text::pieces::pieces;
use dg_text::{ReadError, lex};
use dg_values::{Kind, List, Mem, OutOfMemory};
use std::alloc::Global;
use std::fmt::Write;
use std::str;

// The statements of a text, or why there are none.
pub(crate) fn mutation(alloc: Global, text: &str) -> Mem<Option<String>>
    requires { length text.now ≤ 1048576 }
{
    match read_mutation(alloc, text) {
        Ok(mutation) => {
            let statements = statements_text(alloc, mutation.statements.as_slice())?;
            Ok(Some(pictured(alloc, statements.as_str())?))
        }
        Err(fault) => Ok(Some(fault.to_string(alloc)?)),
    }
}

// The printed text of a mutation, up to its end, or why there is none.
pub(crate) fn written(alloc: Global, text: &str) -> Mem<Option<String>>
    requires { length text.now ≤ 1048576 }
{
    match read_mutation(alloc, text) {
        Ok(mutation) => {
            let mut text = mutation.text_of(alloc)?;
            text.push_str("end")?;
            Ok(Some(pictured(alloc, text.as_str())?))
        }
        Err(fault) => Ok(Some(fault.to_string(alloc)?)),
    }
}

// How long the printed text is of the mutation that a front, a piece so many times, and a back say.
pub(crate) fn repeated(alloc: Global, fields: &str) -> Mem<Option<String>> {
    let Some((front, rest)) = fields.split_once('\t') else {
        return Ok(None);
    };
    let Some((piece, rest)) = rest.split_once('\t') else {
        return Ok(None);
    };
    let Some((count, back)) = rest.split_once('\t') else {
        return Ok(None);
    };
    let Ok(count) = count.parse::<u32>() else {
        return Ok(None);
    };
    let mut text = plain(alloc, front)?;
    push_times(&mut text, plain(alloc, piece)?.as_str(), count)?;
    text.push_str(plain(alloc, back)?.as_str())?;
    printed_in(alloc, text.as_str())
}

// A piece so many times, or as many as fit a text.
fn push_times(text: &mut String, piece: &str, count: u32) -> Mem<()> {
    for _ in 0..count {
        if text.len() > MOST {
            return Ok(());
        }
        text.push_str(piece)?;
    }
    Ok(())
}

// How long a text is, and its printed text.
fn printed_in(alloc: Global, text: &str) -> Mem<Option<String>> {
    let bytes = text.len();
    if bytes > MOST {
        return Ok(None);
    }
    match read_mutation(alloc, text) {
        Ok(mutation) => {
            let printed = mutation.text_of(alloc)?;
            Ok(Some(format!(in alloc; "read of {bytes}, printed in {}", printed.len())?))
        }
        Err(fault) => Ok(Some(fault.to_string(alloc)?)),
    }
}

// The statements of an upsert block that sets, up to the first token that begins none.
#[tactic(auto, using(dg_text::proofs::Small::are_small))]
pub(crate) fn upsert(alloc: Global, text: &str) -> Mem<Option<String>>
    requires { length text.now ≤ 1048576 }
{
    let block = Block {
        delete: false,
        upsert: true,
    };
    let Ok(tokens) = lex(alloc, text) else {
        return Ok(None);
    };
    let all = pieces(alloc, text, tokens.as_slice())?;
    match statements_at(alloc, block, List::new(alloc), all.as_slice(), 0) {
        Ok((statements, _)) => Ok(Some(statements_text(alloc, statements.as_slice())?)),
        Err(ReadError::OutOfMemory) => Err(OutOfMemory),
        Err(ReadError::Fault { left }) => Ok(Some(format!(in alloc; "fault with {left} left")?)),
    }
}

// What reading says of each front of a text but the empty and the whole one, in turn.
pub(crate) fn cut(alloc: Global, text: &str) -> Mem<Option<String>> {
    let bytes = text.as_bytes();
    let mut list = String::new(alloc);
    for end in 1..bytes.len() {
        let word = match str::from_utf8(&bytes[..end]) {
            Ok(front) => front_text(alloc, front)?,
            Err(_) => String::from_str(alloc, "-")?,
        };
        write!(list, "{word} ")?;
    }
    list.push_str("end")?;
    Ok(Some(list))
}

// By a letter for what is wrong, and the offset.
fn front_text(alloc: Global, front: &str) -> Mem<String> {
    if front.len() > MOST {
        return Ok(String::from_str(alloc, "long")?);
    }
    match read_mutation(alloc, front) {
        Ok(_) => Ok(String::from_str(alloc, "read")?),
        Err(NquadFault::BadToken { offset }) => Ok(format!(in alloc; "T{offset}")?),
        Err(NquadFault::BadSyntax { offset }) => Ok(format!(in alloc; "S{offset}")?),
        Err(NquadFault::OutOfMemory) => Ok(String::from_str(alloc, "memory")?),
    }
}

fn statements_text(alloc: Global, statements: &[Statement]) -> Mem<String> {
    let mut list = String::new(alloc);
    for statement in statements {
        if !list.is_empty() {
            list.push_str(" ")?;
        }
        list.push_str(statement_text(alloc, statement)?.as_str())?;
    }
    if list.is_empty() {
        list.push_str("none")?;
    }
    Ok(list)
}

fn statement_text(alloc: Global, statement: &Statement) -> Mem<String> {
    let verb = if statement.delete { "delete" } else { "set" };
    let subject = node_text(alloc, &statement.s)?;
    let object = object_text(alloc, &statement.o)?;
    Ok(format!(in alloc; "{verb} {subject} {} {object}.", statement.p)?)
}

fn node_text(alloc: Global, node: &Node) -> Mem<String> {
    match node {
        Node::Uid(uid) => Ok(format!(in alloc; "0x{uid:x}")?),
        Node::Blank(name) => Ok(format!(in alloc; "_:{name}")?),
        Node::Var(name) => Ok(format!(in alloc; "uid({name})")?),
    }
}

fn object_text(alloc: Global, object: &Object) -> Mem<String> {
    match object {
        Object::Node(node) => node_text(alloc, node),
        Object::Literal { text, tag } => Ok(format!(in alloc; "\"{text}\"{}", tag_text(tag))?),
        Object::Star => Ok(String::from_str(alloc, "*")?),
        Object::Val(name) => Ok(format!(in alloc; "val({name})")?),
    }
}

fn tag_text(tag: &Option<Kind>) -> &'static str {
    match tag {
        None => "",
        Some(Kind::Default) => "^^Default",
        Some(Kind::Int) => "^^Int",
        Some(Kind::Text) => "^^Text",
        Some(Kind::Bool) => "^^Bool",
        Some(Kind::Time) => "^^Time",
        Some(Kind::Uid) => "^^Uid",
    }
}
