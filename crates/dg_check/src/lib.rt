//! What is wrong with queries, and what is read of those with which nothing is: plans.
#![tactic(auto)]

mod adding;
mod blocks;
mod building;
mod checking;
mod content;
mod cycles;
mod fault;
mod finding;
mod indexes;
mod literals;
mod names;
mod needs;
mod numbers;
mod order;
mod pages;
mod parts;
mod patterns;
mod places;
mod plan;
mod planning;
mod ran;
mod reading;
mod resolving;
mod search;
mod suspects;
mod unknown;
mod users;
mod uses;
mod variables;
mod vars;

pub use checking::{fault_of, fault_of_upsert};
pub use content::Content;
pub use fault::CheckFault;
pub use order::order_of;
pub use parts::{By, Field, Filter, Func, Item, Node, Of, OrderKey, Part, Parts};
pub use patterns::{PatternFault, Patterns, Refusal, RegexPatterns};
pub use plan::{Blocks, Plan};
pub use planning::{check, check_upsert};
pub use vars::{Variable, Vars};
