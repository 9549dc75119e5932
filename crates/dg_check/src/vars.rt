// What variables stand for while a plan is evaluated.
use dg_uids::Uids;
use dg_values::{List, Value};

/// What a variable stands for.
#[derive(Drop)]
pub struct Variable {
    /// Its nodes.
    pub nodes: Uids,
    /// Where it is a variable of values, the value of each of the nodes, in their order; else none.
    pub values: List<Value>,
}

/// What the variables of a plan stand for so far.
#[derive(Drop)]
pub struct Vars {
    /// The variables by their places among those of the plan. One that isn't known yet has no node, and so has one behind
    /// the last place.
    pub variables: List<Variable>,
}
