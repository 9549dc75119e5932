//! Tables of names and codes, for what is looked up by a name that comes from outside and printed back by its code.
#![tactic(auto)]

mod name;
mod table;

pub use name::Name;
pub use table::Table;

/// The array of rows of a table: `rows! { "zero" => 0, "one" => 1 }`.
#[macro_export]
macro_rules! rows {
    ($($name:expr => $code:expr),* $(,)?) => { [$(($name, $code)),*] };
}
