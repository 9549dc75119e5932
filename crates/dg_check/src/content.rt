// What variables have.
use dg_values::Kind;

/// What a variable has.
#[derive(Clone, Copy, Debug)]
pub enum Content {
    /// Nodes alone.
    Nodes,
    /// A value of this kind at each of its nodes.
    Values(Kind),
    /// Neither, as it is of a predicate that isn't declared: it serves as both.
    Both,
}
