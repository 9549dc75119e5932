//! Ordered maps in shared pages: a changed map leaves the old one as it was, and shares the pages that it didn't touch. One pair is
//! put in place where no other map shares its page.
#![tactic(auto)]

mod edits;
mod joins;
mod merges;
mod orders;
mod pages;
mod places;
mod puts;
mod tree;

pub use pages::Pages;
