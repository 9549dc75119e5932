//! Which predicates are declared, and how; and the language in which they are declared.
#![tactic(auto)]

mod checks;
mod definition;
mod draft;
mod fault;
mod grammar;
mod laws;
mod places;
mod placing;
mod printing;
mod reading;
mod schema;
mod statement;
mod words;

pub use definition::PredDef;
pub use fault::SchemaFault;
pub use laws::{definitions_join, schemas_read_back, statements_are_listed};
pub use reading::read_schema;
pub use schema::Schema;
