// Statements in their printed form: words, with a blank behind each.
ghost use Rattle.std.specs.Prelude.{◌≡◌, ◌∷◌, IfOk};
ghost use Rattle.dg_text.specs.Quoting.{quoted_word};
ghost use Rattle.dg_text.specs.Written.{written};
ghost use Rattle.dg_nquad.specs.Texts.{alone_words, group_name, groups_words, node_words, object_words, statement_words, tag_words, type_of_kind, variable_words};

use crate::{Node, Object, Statement};
use dg_text::quoting::quoted;
use dg_values::{Kind, Mem, OutOfMemory, Str};
use std::alloc::Global;

// A variable behind a word.
#[tactic(auto, using(crate::proofs::Printed::variable_written))]
fn variable_text(alloc: Global, word: &'static str, name: &str) -> Mem<Str>
    ensures { IfOk result (λ text. text ≡ written (variable_words word.now name.now)) }
{
    Ok(Str::from_string(format!(in alloc; "{word} ( {name} ) ")?))
}

/// A node.
#[tactic(auto, using(crate::proofs::Printed::uid_written, crate::proofs::Printed::blank_written))]
pub fn node_text(alloc: Global, node: &Node) -> Mem<Str>
    ensures { IfOk result (λ text. text ≡ written (node_words node.now)) }
{
    match node {
        Node::Uid(n) => Ok(Str::from_string(format!(in alloc; "<0x{n:x}> ")?)),
        Node::Blank(name) => Ok(Str::from_string(format!(in alloc; "_:{name} ")?)),
        Node::Var(name) => variable_text(alloc, "uid", name.as_str()),
    }
}

// The type of a kind.
fn type_of_kind(kind: Kind) -> &'static str
    ensures { result.now ≡ type_of_kind kind }
{
    match kind {
        Kind::Default => "xs:default",
        Kind::Int => "xs:int",
        Kind::Text => "xs:string",
        Kind::Bool => "xs:boolean",
        Kind::Time => "xs:dateTime",
        Kind::Uid => "xs:uid",
    }
}

// `^^` and a type, and nothing where there is no kind.
#[tactic(auto, using(crate::proofs::Printed::tag_written))]
fn tag_text(alloc: Global, tag: Option<Kind>) -> Mem<Str>
    ensures { IfOk result (λ text. text ≡ written (tag_words tag)) }
{
    match tag {
        None => Str::from_str(alloc, ""),
        Some(kind) => {
            let name = type_of_kind(kind);
            Ok(Str::from_string(format!(in alloc; "^^ <{name}> ")?))
        }
    }
}

// A text with its type.
#[tactic(auto, using(crate::proofs::Printed::literal_written))]
fn literal_text(alloc: Global, text: &str, tag: Option<Kind>) -> Mem<Str>
    ensures { IfOk result (λ said. said ≡ written (quoted_word text.now ∷ tag_words tag)) }
{
    let text = quoted(alloc, text)?;
    let tag = tag_text(alloc, tag)?;
    Ok(Str::from_string(format!(in alloc; "{text} {tag}")?))
}

/// An object.
pub fn object_text(alloc: Global, object: &Object) -> Mem<Str>
    ensures { IfOk result (λ text. text ≡ written (object_words object.now)) }
{
    match object {
        Object::Node(node) => node_text(alloc, node),
        Object::Literal { text, tag } => literal_text(alloc, text.as_str(), *tag),
        Object::Star => Str::from_str(alloc, "* "),
        Object::Val(name) => variable_text(alloc, "val", name.as_str()),
    }
}

/// A statement.
#[tactic(auto, using(crate::proofs::Printed::statement_written))]
pub fn statement_text(alloc: Global, statement: &Statement) -> Mem<Str>
    ensures { IfOk result (λ text. text ≡ written (statement_words statement.now)) }
{
    let s = node_text(alloc, &statement.s)?;
    let p = &statement.p;
    let o = object_text(alloc, &statement.o)?;
    Ok(Str::from_string(format!(in alloc; "{s}<{p}> {o}. ")?))
}

// The word of a group.
fn group_name(delete: bool) -> &'static str
    ensures { result.now ≡ group_name delete }
{
    if delete { "delete" } else { "set" }
}

// A statement in a group of its own.
#[tactic(auto, using(crate::proofs::Printed::alone_written))]
fn alone_text(alloc: Global, statement: &Statement) -> Mem<Str>
    ensures { IfOk result (λ text. text ≡ written (alone_words statement.now)) }
{
    let name = group_name(statement.delete);
    let text = statement_text(alloc, statement)?;
    Ok(Str::from_string(format!(in alloc; "{name} {{ {text}}} ")?))
}

/// Statements between `{` and `}`, each in a group of its own.
#[tactic(auto, using(crate::proofs::Printed::more_written, crate::proofs::Printed::all_written))]
pub fn groups_text(alloc: Global, statements: &[Statement]) -> Mem<Str>
    ensures { IfOk result (λ text. text ≡ written (groups_words statements.now)) }
{
    let mut text = Str::from_str(alloc, "{ ")?;
    for statement in statements {
        text.push_str(alone_text(alloc, statement)?.as_str())?;
    }
    text.push_str("} ")?;
    Ok(text)
}
