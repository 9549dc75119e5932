// A statement of the schema language as it stands in a text.
use dg_values::{Kind, List, Str, Tokenizer};

/// A type: a scalar, or a list of it.
#[derive(Clone, Copy, Debug, PartialEq, Eq)]
pub struct Shape {
    /// The kind of the scalar.
    pub kind: Kind,
    /// Whether it is a list.
    pub list: bool,
}

/// What the directives that were read so far say.
#[derive(Debug, Drop)]
pub struct Marks {
    /// Whether `@index` stands there.
    pub indexed: bool,
    /// The tokenizers that are listed after `@index`.
    pub tokens: List<Tokenizer>,
    /// Whether `@reverse` stands there.
    pub reverse: bool,
    /// Whether `@count` stands there.
    pub count: bool,
    /// Whether `@upsert` stands there.
    pub upsert: bool,
    /// Whether one of them stands twice.
    pub twice: bool,
}

/// A statement up to its point.
#[derive(Debug, Drop)]
pub struct Statement {
    /// How many tokens are left from its name on.
    pub place: usize,
    /// The predicate that it declares.
    pub name: Str,
    /// The type.
    pub shape: Shape,
    /// The directives.
    pub marks: Marks,
}
