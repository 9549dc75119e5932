// A checked query, with what is read of it.
use crate::parts::{Func, OrderKey, Parts};
use dg_parse::{Query, UMut};
use dg_values::{List, Str};

/// What is read at a place of a query.
#[derive(Drop)]
pub enum Read {
    /// A function.
    Func(Func),
    /// The order keys among the arguments of a list.
    Orders(List<OrderKey>),
    /// The place of a variable that is defined, shown or aggregated.
    Val(usize),
}

/// A checked query, ready to run.
#[derive(Drop)]
pub struct Plan {
    /// The query.
    pub query: Query,
    /// The places of its blocks, each once and behind those whose variables it uses.
    pub order: List<usize>,
    /// The names of its variables, in the order in which the text defines them.
    pub vars: List<Str>,
    /// What is kept of each block, in the order of the text.
    pub parts: List<Parts>,
}

/// The mutations of a checked upsert block.
#[derive(Debug, Drop)]
pub struct Blocks {
    /// The mutations with their conditions, in the order of the text.
    pub mutations: List<UMut>,
}
