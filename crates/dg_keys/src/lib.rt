//! Keys of posting lists, keys by which commits conflict, and the records of what commits change.
#![tactic(auto)]

mod conflict;
mod key;
mod key_fault;
mod key_order;
mod laws;
mod order;
mod reading;
mod record;
mod tablet;
mod text;
mod writing;

pub use conflict::{ConflictKey, copy_keys};
pub use key::Key;
pub use key_fault::KeyFault;
pub use laws::{bytes_are_of_one_key, bytes_order_as_keys};
pub use order::cmp_conflict;
pub use reading::read_key;
pub use record::{Part, Record, Tablet};
pub use text::conflict_text;
pub use writing::{is_plain, key_bytes};
