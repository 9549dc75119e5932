//! The state that coordinates all: timestamps, active transactions, the schema, the tablets and the stream of records,
//! all of which one history tells.
//!
//! A history is a list of entries, each of which fits those before it. Each call that takes a slip appends exactly one
//! entry, by the slip's author; the slip brings the room, so that appending takes no memory.
#![tactic(auto)]

mod alter;
mod appending;
mod chain;
mod commit;
mod entry;
mod fault;
mod fresh;
mod laws;
mod lease;
mod named;
mod offer;
mod owners;
mod past;
mod present;
mod stream;
mod tablets;
mod zero;

pub use entry::{Entry, Event, Reason};
pub use fault::{CommitFault, ZeroFault};
pub use laws::{
    each_history, exact_records, longer_histories, schemas_of_starts, tablets_and_copies,
};
pub use offer::Offer;
pub use owners::Owners;
pub use past::Slip;
pub use tablets::Phase;
pub use zero::{Begun, ZeroState};
