// How a predicate is declared.
ghost use Rattle.std.specs.Prelude.{◌≡◌, IfOk};

use dg_values::{Kind, List, Mem, OutOfMemory, Str, Tokenizer};
use std::alloc::Global;

/// How a predicate is declared.
#[derive(Debug, Drop)]
pub struct PredDef {
    /// The predicate's name.
    pub name: Str,
    /// The kind of its objects.
    pub kind: Kind,
    /// Whether a subject may have more than one object.
    pub list: bool,
    /// The tokenizers of its indexes, in the order in which they were declared.
    pub tokens: List<Tokenizer>,
    /// Whether the subjects of an object are listed.
    pub reverse: bool,
    /// Whether nodes are listed by the number of their objects.
    pub count: bool,
    /// Whether two transactions that add one value conflict.
    pub upsert: bool,
}

impl PredDef {
    /// An equal definition.
    pub fn copy(&self, alloc: Global) -> Mem<PredDef>
        ensures { IfOk result (λ d. d ≡ self.now) }
    {
        let name = self.name.copy(alloc)?;
        let tokens = self.tokens.copy(alloc)?;
        Ok(PredDef {
            name,
            kind: self.kind,
            list: self.list,
            tokens,
            reverse: self.reverse,
            count: self.count,
            upsert: self.upsert,
        })
    }
}
