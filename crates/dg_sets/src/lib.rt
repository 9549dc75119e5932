//! Vectors that ascend strictly by an order, kept as sets: made by sorting, looked into by halves, and changed at one place.
#![tactic(auto)]

mod items;
mod ordered;
mod orders;
mod sorting;

pub use items::InOrder;
pub use ordered::{ascend, is_there, place_of, put, take_out};
pub use sorting::in_order;
