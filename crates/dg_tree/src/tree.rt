// Trees of values.
use dg_values::{List, Str};

/// What an answer shows at a key. A moment is shown as its text.
#[cycle(tree)]
#[derive(Debug, Drop)]
pub enum Tree {
    /// A number.
    Int(i64),
    /// A truth value.
    Bool(bool),
    /// A text.
    Text(Str),
    /// Several trees, in order.
    Array(List<Tree>),
    /// A node, by its fields in order.
    Node(List<Field>),
}

/// A tree and the key at which it is shown.
#[cycle(tree)]
#[derive(Debug, Drop)]
pub struct Field {
    /// The key.
    pub key: Str,
    /// What is shown there.
    pub tree: Tree,
}
