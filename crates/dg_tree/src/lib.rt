//! What queries answer: trees of values, and their text.
#![tactic(auto)]

mod answer;
mod fault;
mod text;
mod tree;

pub use answer::{AnswerText, answer_text};
pub use fault::TreeFault;
pub use text::{push, push_key, push_tree};
pub use tree::{Field, Tree};
