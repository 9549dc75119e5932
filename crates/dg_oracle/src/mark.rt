// A key, and when it was committed.
ghost use Rattle.std.specs.Prelude.{◌≡◌};

use std::cmp::Ordering;

// A key that was committed at a timestamp.
#[derive(Drop)]
pub struct Mark<K> {
    pub key: K,
    pub ts: u64,
}

impl<K: Ord> Mark<K> {
    ghost use Rattle.dg_oracle.specs.Histories.{mark_cmp};

    // By key, and for one key by timestamp.
    pub fn order(&self, other: &Mark<K>) -> Ordering
        ensures { result ≡ mark_cmp K.cmp self.now other.now }
    {
        self.key.cmp(&other.key).then(self.ts.cmp(&other.ts))
    }
}
