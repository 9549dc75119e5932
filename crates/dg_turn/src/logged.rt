// What a state with a history is.

/// A state that carries its history: entries in the order in which they were made, each by a caller with a number.
pub trait Logged {
    /// What a history is made of.
    type Entry;

    ghost use Rattle.std.specs.Prelude.{List, ℕ};

    /// The entries so far, the oldest first.
    ghost history: { Self → List Self.Entry };

    /// The number of the caller that made an entry.
    ghost author: { Self.Entry → ℕ };
}
