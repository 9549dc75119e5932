//! Values of predicates: their kinds, reading, order and text; and the small types of text and list that the other crates keep in their own types.
#![tactic(auto)]

mod civil;
mod kind;
mod laws;
mod list;
mod memory;
mod moment;
mod order;
mod printing;
mod reading;
mod scalars;
mod steps;
mod text;
mod times;
mod value;

pub use civil::truncate;
pub use kind::{DatePart, Kind, Tokenizer};
pub use laws::{days_have_their_dates, readings_are_unique, truncated_is_first, value_reads_back};
pub use list::List;
pub use memory::{Mem, OutOfMemory};
pub use moment::Moment;
pub use order::{cmp_posting, cmp_value, posting_order_laws, value_order_laws};
pub use printing::write_value;
pub use reading::{ValueFault, read_value};
pub use steps::Steps;
pub use text::Str;
pub use value::{Posting, Value};
