// Keys by which commits conflict.
ghost use Rattle.std.specs.Prelude.{◌≡◌, IfOk};

use dg_tokens::{IndexToken, copy_token};
use dg_values::{Mem, OutOfMemory, Posting, Str};
use std::alloc::Global;

/// What two concurrent commits may not both touch.
#[derive(Debug, Drop)]
pub enum ConflictKey {
    /// The objects of `s`, or, of a list predicate, the one object.
    Data {
        p: Str,
        s: u64,
        o: Option<Posting>,
    },
    /// A value with the token at `s`, or at any subject.
    Index {
        p: Str,
        t: IndexToken,
        s: Option<u64>,
    },
    /// The number of objects of `s`.
    Count {
        p: Str,
        s: u64,
    },
    /// The number of subjects that point to `o`.
    RCount {
        p: Str,
        o: u64,
    },
}

impl ConflictKey {
    /// An equal key. The error is want of memory.
    pub fn copy(&self, alloc: Global) -> Mem<ConflictKey>
        ensures { IfOk result (λ key. key ≡ self.now) }
    {
        match self {
            ConflictKey::Data { p, s, o } => {
                let p = p.copy(alloc)?;
                let o = copy_object(alloc, o)?;
                Ok(ConflictKey::Data { p, s: *s, o })
            }
            ConflictKey::Index { p, t, s } => {
                let p = p.copy(alloc)?;
                let t = copy_token(alloc, t)?;
                Ok(ConflictKey::Index { p, t, s: *s })
            }
            ConflictKey::Count { p, s } => Ok(ConflictKey::Count {
                p: p.copy(alloc)?,
                s: *s,
            }),
            ConflictKey::RCount { p, o } => Ok(ConflictKey::RCount {
                p: p.copy(alloc)?,
                o: *o,
            }),
        }
    }
}

// An equal object, where there is one.
fn copy_object(alloc: Global, object: &Option<Posting>) -> Mem<Option<Posting>>
    ensures { IfOk result (λ o. o ≡ object.now) }
{
    match object {
        Some(o) => Ok(Some(o.copy(alloc)?)),
        None => Ok(None),
    }
}

/// Equal keys, in the same order. The error is want of memory.
pub fn copy_keys(alloc: Global, keys: &[ConflictKey]) -> Mem<Vec<ConflictKey>>
    ensures { IfOk result (λ copied. copied.items ≡ keys.now) }
{
    let mut copied = Vec::with_capacity(alloc, keys.len())?;
    for key in keys {
        copied.push(key.copy(alloc)?)?;
    }
    Ok(copied)
}
