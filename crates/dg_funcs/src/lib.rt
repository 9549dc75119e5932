//! Functions and filters of plans: where they hold, and which nodes a function gives at a root.
#![tactic(auto)]

mod allterms;
mod anyterms;
mod asked;
mod comparing;
mod dates;
mod equal;
mod equalterms;
mod filtering;
mod following;
mod held;
mod indexes;
mod laws;
mod matching;
mod numbers;
mod ordered;
mod ranges;
mod roots;
mod terms;
mod variables;

pub use asked::Asked;
pub use equal::equal_by_index;
pub use filtering::{holds, passing};
pub use following::{count_along, nodes_along};
pub use laws::meanings;
pub use roots::root;
pub use variables::{named, value_at};
