// Rows that name calls on a state with its groups and on open transactions.
//
// A row is words between blanks, the first of which is a command. What a row makes is kept for the rows below it, up to one
// that begins anew with `new`. The answer is `?` where a row can't be read, or names a call that may not be made.

mod counted;
mod counting;
mod fault;
pub(crate) mod kept;
mod listing;
mod lookups;
mod postings;
mod rows;
mod schemas;
mod sessions;
mod starts;
mod words;

use crate::groups::kept::Kept;
use std::alloc::Global;
use std::io;

// Prints a row with its answer.
pub(crate) fn print_row(
    rt: &impl Print,
    alloc: Global,
    kept: &mut Option<Kept>,
    row: &str,
) -> io::Result<()> {
    match rows::answer(alloc, kept, row) {
        Ok(text) => println!(rt; "{row} => {text}"),
        Err(fault) => println!(rt; "{row} => {fault}"),
    }
}
