// Lines of frames that are cut short.
ghost use Rattle.std.specs.Prelude.{IsTrue, IfOk, ◌↔◌, map};
ghost use Rattle.dg_wire.specs.Cuts.{BeginsArguments, BeginsWords, BeginsLine};

use crate::arguments::Argument;
use crate::verb::Verb;
use crate::words::words_of;
use dg_values::{Mem, OutOfMemory};
use std::alloc::Global;

/// Whether a frame's line begins with these bytes.
pub fn begins_line(alloc: Global, bytes: &[u8]) -> Mem<bool>
    ensures { IfOk result (λ begins. IsTrue begins ↔ BeginsLine bytes.now) }
{
    let words = words_of(alloc, bytes)?;
    Ok(begins_words(words.as_slice()))
}

// Whether a frame's line has these first words, of which the last may be cut short.
fn begins_words(words: &[&[u8]]) -> bool
    ensures { IsTrue result ↔ BeginsWords (map (λ w. w.now) words.now) }
{
    match words {
        [] => false,
        [front] => Verb::any_begins_with(front),
        [word, said @ ..] => match Verb::of(word) {
            Some(verb) => begins_arguments(verb.takes(), said),
            None => false,
        },
    }
}

// Whether these are the first words of such arguments, of which the last may be cut short.
fn begins_arguments(arguments: &[Argument], words: &[&[u8]]) -> bool
    ensures { IsTrue result ↔ BeginsArguments arguments.now (map (λ w. w.now) words.now) }
{
    match arguments {
        [] => false,
        [argument, others @ ..] => match words {
            [] => false,
            [front] => argument.begins_with(front),
            [word, rest @ ..] => argument.accepts(word) && begins_arguments(others, rest),
        },
    }
}
