//! What the mutations of an upsert block stand for, once its query has run.
#![tactic(auto)]

mod applying;
mod conditions;
mod copying;
mod giving;
mod known;
mod laws;
mod names;
mod nodes;

pub use applying::apply_blocks;
pub use laws::given_statements;
