// What a mutation says.
ghost use Rattle.std.specs.Prelude.{◌≡◌, IfOk, string_bytes};
ghost use Rattle.dg_nquad.specs.Texts.{mutation_text};

use crate::printing::groups_text;
use dg_values::{Kind, List, Mem, OutOfMemory, Str};
use std::alloc::Global;

/// A node as a statement names it.
#[derive(Debug, Drop)]
pub enum Node {
    /// The node of this number.
    Uid(u64),
    /// The new node of this name, which is a Blank without its `_:`.
    Blank(Str),
    /// The nodes of the variable of this name.
    Var(Str),
}

/// What stands behind the predicate of a statement.
#[derive(Debug, Drop)]
pub enum Object {
    /// A node.
    Node(Node),
    /// A text, and the kind that its type names where it has one.
    Literal { text: Str, tag: Option<Kind> },
    /// All objects.
    Star,
    /// The value of the variable of this name.
    Val(Str),
}

/// One statement of a mutation.
#[derive(Debug, Drop)]
pub struct Statement {
    /// Whether it deletes; else it sets.
    pub delete: bool,
    /// The subject.
    pub s: Node,
    /// The name of the predicate.
    pub p: Str,
    /// The object.
    pub o: Object,
}

/// The statements of a text, in its order.
#[derive(Debug, Drop)]
pub struct Mutation {
    /// The statements.
    pub statements: List<Statement>,
}

impl Mutation {
    /// The text of the statements: each in a group of its own, with a blank behind each word. Where the statements are those
    /// of a text, it reads as them again.
    pub fn text_of(&self, alloc: Global) -> Mem<String>
        ensures { IfOk result (λ text. string_bytes text ≡ mutation_text self.now.statements) }
    {
        Ok(groups_text(alloc, self.statements.as_slice())?.into_string())
    }
}
