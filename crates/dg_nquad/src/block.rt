// Where a statement stands.

/// The block in which a statement stands.
#[derive(Clone, Copy, Debug, PartialEq, Eq)]
pub struct Block {
    /// Whether its statements delete.
    pub delete: bool,
    /// Whether it belongs to an upsert block, where variables may stand.
    pub upsert: bool,
}
