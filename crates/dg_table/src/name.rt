// Names of rows.
ghost use Rattle.std.specs.Prelude.{◌≡◌, ℕ, List};

/// What a row is named by: a text that is free to copy.
///
/// The tables of this repository are named by texts that are written out, `&'static str`.
pub trait Name: Copy {
    // The bytes of the text.
    ghost bytes: { Self → List ℕ };

    /// The text.
    fn as_str(&self) -> &str
        ensures { result.now ≡ bytes self.now };
}

impl Name for &'static str {
    ghost bytes = { λ name. name.now };

    fn as_str(&self) -> &str {
        self
    }
}
