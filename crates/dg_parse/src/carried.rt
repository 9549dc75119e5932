// What productions carry from one of their parts to the next. Readers alone make such values; laws over the grammar name them.
pub use crate::blocks::{Head, Root};
pub use crate::directives::{Marks, Owner};
pub use crate::fronts::Front;
pub use crate::items::{Around, Start};
pub use crate::words::{ArgWord, DirWord, FuncWord};
