//! Queries and upsert blocks in their printed form, which reads back.
//!
//! [`query_text`] and [`upsert_text`] print what was read: words, with a blank behind each (`specs/Printed.antt`,
//! `PrintedQuery` and `PrintedUpsert`). That the printed text says the same is a law over the grammar ([`queries_read_back`],
//! [`upserts_read_back`]), as is that the depth to which brackets are read is never met ([`depth_is_never_met`]). They stand
//! apart from the grammar's readers, of which nobody who reads needs them.
#![tactic(auto)]

mod arguments;
mod blocks;
mod brackets;
mod conditions;
mod depth;
mod fields;
mod filters;
mod functions;
mod laws;
mod upserts;
mod words;

pub use blocks::query_text;
pub use depth::depth_is_never_met;
pub use laws::{queries_read_back, upserts_read_back};
pub use upserts::upsert_text;
