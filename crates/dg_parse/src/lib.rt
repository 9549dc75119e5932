//! Queries and upsert blocks: the languages in which a graph is asked and changed.
//!
//! [`parse`] gives the query of a text, and [`parse_upsert`] the upsert block, or the fault with its place. The grammar is
//! `specs/Grammar.antt` with `Fields`, `Directives`, `Arguments`, `Filters` and `Functions`, and `specs/Upsert.antt` with
//! `Conditions`: each production as it is read, by the rules of `dg_text`. Cases beside the grammar, which refuse a token
//! that was passed, stand in the production where they belong.
#![tactic(auto)]

mod arguments;
mod blocks;
pub mod carried;
mod conditions;
mod directives;
mod fault;
mod fields;
mod filters;
mod fronts;
mod functions;
mod items;
mod keys;
mod listed;
mod literals;
mod names;
mod options;
mod query;
mod reading;
mod slots;
mod tokens;
mod upsert;
mod upserts;
mod words;

pub use fault::DqlFault;
pub use query::{
    AggOp, CmpOp, QArg, QBlock, QDir, QEdge, QField, QFilter, QFunc, QItem, QOf, QOpt, QOrder,
    QPart, Query, UidArg,
};
pub use reading::{parse, parse_upsert};
pub use upsert::{UCond, UMut, UPart, Upsert};
