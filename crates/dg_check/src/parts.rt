// What a plan keeps of a query, in the form in which it is evaluated: names of variables are places, literals are values,
// patterns are built.
use dg_parse::{CmpOp, QEdge};
use dg_values::{Kind, List, Str, Value};
use regex::Regex;

/// A node that is named, or a variable.
#[derive(Clone, Copy, Debug)]
pub enum Node {
    /// The node of this number.
    Uid(u64),
    /// The nodes of the variable at this place among those of the plan.
    Var(usize),
}

/// What is compared at a node.
#[derive(Debug, Drop)]
pub enum Of {
    /// The values of the predicate of this name.
    Pred(Str),
    /// The number of an edge's objects, or of its subjects where it is followed backwards.
    Count(QEdge),
    /// The value of the variable at this place among those of the plan.
    Val(usize),
}

/// A function: what holds at a node, or not.
#[derive(Drop)]
pub enum Func {
    /// `uid`: the node is one of these.
    Uid(List<Node>),
    /// `eq`, `le`, `lt`, `ge` or `gt`: what is compared stands so to one of the values.
    Cmp {
        /// The comparison.
        op: CmpOp,
        /// What is compared.
        of: Of,
        /// Its kind. Without one nothing is compared: the predicate isn't declared, and no value is kept.
        kind: Option<Kind>,
        /// The values that the literals read as, in their order.
        values: List<Value>,
    },
    /// `between`: what is compared lies between two values, or is equal to one of them.
    Between {
        /// What is compared.
        of: Of,
        /// Its kind. Without one nothing is compared, and no value is kept.
        kind: Option<Kind>,
        /// The low and the high value.
        values: List<Value>,
    },
    /// `has`: there is an object of the edge, or a subject where it is followed backwards.
    Has(QEdge),
    /// `allofterms` or `anyofterms`: a text of the node has all of the terms of another, or one of them.
    Terms {
        /// Whether it is all of them.
        all: bool,
        /// The predicate of the node's texts.
        pred: Str,
        /// The text whose terms are asked for.
        text: Str,
    },
    /// `regexp`: a pattern is found in a text of the node.
    Regexp {
        /// The predicate of the node's texts.
        pred: Str,
        /// The pattern, as the maker built it. It is large, so it stands apart from what is moved with the function.
        pattern: Box<Regex>,
    },
    /// `uid_in`: one of the nodes is an object of the edge.
    UidIn {
        /// The predicate, and the direction.
        edge: QEdge,
        /// The nodes.
        uids: List<Node>,
    },
}

/// A filter: a part of it that holds, or that doesn't where there is an odd number of `not` before it.
#[derive(Drop)]
#[cycle(filter)]
pub struct Filter {
    /// How many `not` stand before it.
    pub nots: usize,
    /// What they stand before.
    pub part: Part,
}

/// What `not` stands before.
#[derive(Drop)]
#[cycle(filter)]
pub enum Part {
    /// One of these holds.
    Or(List<Filter>),
    /// All of these hold.
    And(List<Filter>),
    /// The function holds at the node.
    Func(Func),
}

/// What a list of nodes is ordered by.
#[derive(Debug, Drop)]
pub enum By {
    /// The value of the predicate of this name at each node; of several the least.
    Pred(Str),
    /// The value that the variable at this place among those of the plan has at each node.
    Val(usize),
}

/// An order key; a later one orders nodes that the earlier ones leave equal.
#[derive(Debug, Drop)]
pub enum OrderKey {
    /// The node of the least value comes first.
    Asc(By),
    /// The node of the greatest value comes first.
    Desc(By),
}

/// What is kept of a field. All else of it stands in the query.
#[derive(Drop)]
#[cycle(fields)]
pub struct Field {
    /// The place among those of the plan of the variable that stands for what it has, where it defines one.
    pub var: Option<usize>,
    /// What is kept of what it shows.
    pub item: Item,
}

/// What is kept of what a field shows.
#[derive(Drop)]
#[cycle(fields)]
pub enum Item {
    /// Nothing.
    Plain,
    /// The place among those of the plan of the variable whose value is shown, or whose values are aggregated.
    Val(usize),
    /// Of an edge.
    Edge {
        /// The order keys of its nodes.
        orders: List<OrderKey>,
        /// The filters of its directives, one at most by the grammar. A node has to pass each.
        filters: List<Filter>,
        /// One for each field in its braces, in their order; none where there are no braces.
        fields: List<Field>,
    },
}

/// What is kept of a block. All else of it stands in the query.
#[derive(Drop)]
pub struct Parts {
    /// The place among those of the plan of the variable that stands for its nodes, where it defines one.
    pub var: Option<usize>,
    /// The function by which its nodes are found, where there is one.
    pub root: Option<Func>,
    /// The order keys of its nodes.
    pub orders: List<OrderKey>,
    /// The filters of its directives, one at most by the grammar. A node has to pass each.
    pub filters: List<Filter>,
    /// One for each field, in their order.
    pub fields: List<Field>,
}
