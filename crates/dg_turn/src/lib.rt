//! A ticket lock whose locked state carries a history.
//!
//! A [`Turn`] has a ticket word, a serving word and a slot with the state. A caller draws a ticket, waits until the
//! serving word has its number, takes the state out of the slot, and gives it back with one entry more. So turns are
//! served in the order in which tickets were drawn, and the history has one entry for each turn.
//!
//! A [`Caller`] carries what it knows: the history that it has seen, and the places of its own entries. The next time
//! that it takes the state, the state's history begins with all that it had seen, and what is new was made by others.
//! A [`Note`] hands what one caller has seen to another. At the end all callers are given back for the state, whose
//! history begins with what each has seen, and each of whose entries is one caller's own.
//!
//! What callers have seen and their places exist in contracts alone: at run time a caller is its number. A [`Held`]
//! state can't be dropped: [`Turn::finish`] takes it. One that is forgotten leaves all others waiting.
//!
//! Contracts say nothing of time: not that a turn comes, nor in what order callers are served that never told each
//! other anything. [`Turn::take`] alone may wait. [`Turn::new`] alone takes memory. [`Turn::note`] and each caller that
//! is made load the ticket word once; [`Turn::meet`], and [`Turn::close`] for each caller but one, load it twice.
#![tactic(auto)]

mod caller;
mod closing;
mod held;
mod laws;
mod lent;
mod lock;
mod logged;
mod making;
mod notes;
mod rule;
mod steps;
mod view;

pub use caller::{Caller, Note};
pub use held::Held;
pub use laws::{never_two_held, own_places};
pub use lock::Turn;
pub use logged::Logged;
