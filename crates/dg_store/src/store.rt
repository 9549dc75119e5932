// Posting lists by their keys.
ghost use Rattle.std.specs.Prelude.{[], ◌≡◌, ◌<◌, ◌≤◌, IfOk, OnOk, OnErr, IfSome, Some};
ghost use Rattle.std.specs.Arc.{arc_value};
ghost use Rattle.std.specs.Option.{option_map, option_copied};
ghost use Rattle.std.specs.List.{AllByRecursion};
ghost use Rattle.std.specs.Ordering.{on};
ghost use Rattle.dg_values.specs.Ascending.{Ascends};
ghost use Rattle.dg_delta.specs.Ops.{op_cmp};
ghost use Rattle.dg_keys.specs.Keys.{key_cmp, part_cmp};
ghost use Rattle.dg_list.specs.Lists.{newest_ts, reading, with_base};
ghost use Rattle.dg_pages.specs.Entries.{IsMap, with_entry, entry_from, entry_above, entries_above, entries_of, change_of, AreFirst};
ghost use Rattle.dg_store.specs.Stores.{list_under, list_at, held_parts, with_part, after_part, after_parts, bases_of, after_bases};

use crate::parts::{is_among, layer_of};
use dg_base::Base;
use dg_delta::Layer;
use dg_keys::{Key, Part, Record};
use dg_list::PList;
use dg_pages::Pages;
use dg_sets::InOrder;
use dg_values::{Mem, OutOfMemory, Str};
use std::alloc::Global;
use std::marker::Model;
use std::sync::Arc;

/// Posting lists by their keys. Stores that grew from one share what they have in common.
#[derive(Drop)]
pub struct Store {
    lists: Pages<Key, PList>,
}

impl Model for Store {
    ghost use Rattle.dg_pages.specs.Paged.{joined};
    ghost use Rattle.dg_store.specs.Stores.{Lists};

    ghost Value = { Lists };

    ghost view = { λ store. joined store.lists };
}

impl Store {
    /// The store without lists. The error is want of memory.
    pub fn new(alloc: Global) -> Mem<Store>
        ensures { IfOk result (λ store. store ≡ []) }
    {
        Ok(Store {
            lists: Pages::new(alloc)?,
        })
    }

    /// An equal store, which shares all with this one. The error is want of memory.
    pub fn share(&self) -> Mem<Store>
        ensures { IfOk result (λ store. store ≡ self.now) }
    {
        Ok(Store {
            lists: self.lists.share()?,
        })
    }

    /// The list of a key. None exactly where it has none. It takes no memory.
    pub fn get(&self, key: &Key) -> Option<&Arc<PList>>
        ensures { option_map arc_value (option_copied result) ≡ list_under key.now self.now }
    {
        self.lists.get(key)
    }

    /// The least key at or above this one, with its list. None exactly where there is none. It takes no memory.
    pub fn scan(&self, from: &Key) -> Option<(&Arc<Key>, &Arc<PList>)>
        ensures next { option_map (λ p. (arc_value p.0.now, arc_value p.1.now)) result ≡ entry_from key_cmp from.now self.now }
        ensures ascend { IsMap key_cmp self.now }
    {
        self.lists.next_from(from)
    }

    /// The least key above this one, with its list. None exactly where there is none. It takes no memory.
    pub fn scan_above(&self, after: &Key) -> Option<(&Arc<Key>, &Arc<PList>)>
        ensures next { option_map (λ p. (arc_value p.0.now, arc_value p.1.now)) result ≡ entry_above key_cmp after.now self.now }
        ensures ascend { IsMap key_cmp self.now }
    {
        self.lists.next_above(after)
    }

    /// The first keys above this one, as many as stand together, with their lists. There is none exactly where no key is above
    /// it. It takes no memory.
    pub fn run_above(&self, after: &Key) -> &[(Arc<Key>, Arc<PList>)]
        ensures run { AreFirst (entries_of result.now) (entries_above key_cmp after.now self.now) }
        ensures ascend { IsMap key_cmp self.now }
    {
        self.lists.run_above(after)
    }

    /// The store with one more layer for each part of a record whose predicate is among those held. The error is want of
    /// memory.
    pub fn with_record(&self, alloc: Global, rec: &Record, held: &[Str]) -> Mem<Store>
        requires parts { Ascends part_cmp rec.now.parts }
        requires each { AllByRecursion (λ part. Ascends op_cmp part.ops) rec.now.parts }
        requires newer { AllByRecursion (λ part. newest_ts (list_at part.key self.now) < rec.now.ts) (held_parts held.now rec.now.parts) }
        ensures { IfOk result (λ store. store ≡ after_parts rec.now.ts self.now (held_parts held.now rec.now.parts)) }
    {
        let mut changes = Vec::new(alloc);
        for part in rec.parts.as_slice() {
            if is_among(held, part) {
                changes.push(self.change(alloc, rec.ts, part)?)?;
            }
        }
        Ok(Store {
            lists: self.lists.with_changes(alloc, changes)?,
        })
    }

    /// The store with one more layer for each of these parts. The error is want of memory.
    pub fn with_parts(&self, alloc: Global, ts: u64, parts: &[Part]) -> Mem<Store>
        requires parts { Ascends part_cmp parts.now }
        requires each { AllByRecursion (λ part. Ascends op_cmp part.ops) parts.now }
        requires newer { AllByRecursion (λ part. newest_ts (list_at part.key self.now) < ts) parts.now }
        ensures { IfOk result (λ store. store ≡ after_parts ts self.now parts.now) }
    {
        let mut changes = Vec::new(alloc);
        for part in parts {
            changes.push(self.change(alloc, ts, part)?)?;
        }
        Ok(Store {
            lists: self.lists.with_changes(alloc, changes)?,
        })
    }

    /// Adds one more layer for a part. What no other store shares is changed in place. After an error the store is as it was.
    /// The error is want of memory.
    pub fn put_part(&mut self, alloc: Global, ts: u64, part: &Part) -> Mem<()>
        requires ops { Ascends op_cmp part.now.ops }
        requires newer { newest_ts (list_at part.now.key self.old) < ts }
        ensures ok { OnOk result (self.new ≡ after_part ts self.old part.now) }
        ensures err { OnErr result (self.new ≡ self.old) }
    {
        let (key, list) = self.longer(alloc, ts, part)?;
        self.lists.put(alloc, key, list)
    }

    /// The store with this base in the place of the base of a key's list and of its layers at or below a timestamp, where
    /// the base is that list at that timestamp. The error is want of memory.
    pub fn with_base(&self, alloc: Global, key: &Key, base: Arc<Base>, upto: u64) -> Mem<Store>
        requires from { (list_at key.now self.now).base_ts ≤ upto }
        requires base { arc_value base ≡ reading (list_at key.now self.now) upto }
        ensures { IfOk result (λ store. store ≡ with_entry key_cmp key.now (with_base (list_at key.now self.now) (arc_value base) upto) self.now) }
    {
        let list = Arc::new(alloc, self.rolled(alloc, key, base, upto)?)?;
        let mut changes = Vec::new(alloc);
        changes.push((self.shared_key(alloc, key)?, Some(list)))?;
        Ok(Store {
            lists: self.lists.with_changes(alloc, changes)?,
        })
    }

    /// The store with each of these bases in the place of the base of its key's list and of the layers there at or below a
    /// timestamp, where the base is that list at that timestamp, and the keys ascend. The error is want of memory.
    pub fn with_bases(
        &self,
        alloc: Global,
        bases: &[(Arc<Key>, Arc<Base>)],
        upto: u64,
    ) -> Mem<Store>
        requires keys { Ascends (on (λ b. b.0) key_cmp) (bases_of bases.now) }
        requires from { AllByRecursion (λ b. (list_at b.0 self.now).base_ts ≤ upto) (bases_of bases.now) }
        requires base { AllByRecursion (λ b. b.1 ≡ reading (list_at b.0 self.now) upto) (bases_of bases.now) }
        ensures { IfOk result (λ store. store ≡ after_bases upto self.now (bases_of bases.now)) }
    {
        let mut changes = Vec::with_capacity(alloc, bases.len())?;
        for pair in bases {
            changes.push(self.base_change(alloc, pair, upto)?)?;
        }
        Ok(Store {
            lists: self.lists.with_changes(alloc, changes)?,
        })
    }

    // The list of a part's key with the part as its newest layer.
    fn change(&self, alloc: Global, ts: u64, part: &Part) -> Mem<(Arc<Key>, Option<Arc<PList>>)>
        requires ops { Ascends op_cmp part.now.ops }
        requires newer { newest_ts (list_at part.now.key self.now) < ts }
        ensures { IfOk result (λ change. change_of change ≡ (part.now.key, Some (with_part ts self.now part.now))) }
    {
        let (key, list) = self.longer(alloc, ts, part)?;
        Ok((key, Some(list)))
    }

    // That list, with its key, which is copied only where the store hasn't got it. It looks once.
    fn longer(&self, alloc: Global, ts: u64, part: &Part) -> Mem<(Arc<Key>, Arc<PList>)>
        requires ops { Ascends op_cmp part.now.ops }
        requires newer { newest_ts (list_at part.now.key self.now) < ts }
        ensures key { IfOk result (λ longer. arc_value longer.0 ≡ part.now.key) }
        ensures list { IfOk result (λ longer. arc_value longer.1 ≡ with_part ts self.now part.now) }
    {
        let layer = layer_of(alloc, ts, part)?;
        match self.found(&part.key) {
            Some((key, list)) => {
                let list = list.with_layer(alloc, layer)?;
                Ok((Arc::try_clone(key)?, Arc::new(alloc, list)?))
            }
            None => {
                let list = PList::empty(alloc)?.with_layer(alloc, layer)?;
                Ok((
                    Arc::new(alloc, part.key.copy(alloc)?)?,
                    Arc::new(alloc, list)?,
                ))
            }
        }
    }

    // The list of a key over another base.
    fn base_change(
        &self,
        alloc: Global,
        pair: &(Arc<Key>, Arc<Base>),
        upto: u64,
    ) -> Mem<(Arc<Key>, Option<Arc<PList>>)>
        requires from { (list_at (arc_value pair.now.0) self.now).base_ts ≤ upto }
        requires base { arc_value pair.now.1 ≡ reading (list_at (arc_value pair.now.0) self.now) upto }
        ensures { IfOk result (λ change. change_of change ≡ (arc_value pair.now.0, Some (with_base (list_at (arc_value pair.now.0) self.now) (arc_value pair.now.1) upto))) }
    {
        let list = self.rolled(alloc, &pair.0, Arc::try_clone(&pair.1)?, upto)?;
        let list = Arc::new(alloc, list)?;
        Ok((self.shared_with(&pair.0)?, Some(list)))
    }

    // The list of a key with this base in the place of its base and of its layers at or below a timestamp.
    fn rolled(&self, alloc: Global, key: &Key, base: Arc<Base>, upto: u64) -> Mem<PList>
        requires from { (list_at key.now self.now).base_ts ≤ upto }
        requires base { arc_value base ≡ reading (list_at key.now self.now) upto }
        ensures { IfOk result (λ list. list ≡ with_base (list_at key.now self.now) (arc_value base) upto) }
    {
        match self.get(key) {
            Some(list) => list.with_base(alloc, base, upto),
            None => PList::empty(alloc)?.with_base(alloc, base, upto),
        }
    }

    // An equal key, which is copied only where the store hasn't got it.
    fn shared_key(&self, alloc: Global, key: &Key) -> Mem<Arc<Key>>
        ensures { IfOk result (λ shared. arc_value shared ≡ key.now) }
    {
        match self.there(key) {
            Some(there) => Ok(Arc::try_clone(there)?),
            None => Ok(Arc::new(alloc, key.copy(alloc)?)?),
        }
    }

    // The key that the store has, or else this one.
    fn shared_with(&self, key: &Arc<Key>) -> Mem<Arc<Key>>
        ensures { IfOk result (λ shared. arc_value shared ≡ arc_value key.now) }
    {
        match self.there(key) {
            Some(there) => Ok(Arc::try_clone(there)?),
            None => Ok(Arc::try_clone(key)?),
        }
    }

    // The key as the store has it.
    fn there(&self, key: &Key) -> Option<&Arc<Key>>
        ensures { IfSome result (λ there. arc_value there.now ≡ key.now) }
    {
        let (there, _) = self.found(key)?;
        Some(there)
    }

    // The key as the store has it, with its list.
    fn found(&self, key: &Key) -> Option<(&Arc<Key>, &Arc<PList>)>
        ensures key { IfSome result (λ found. arc_value found.0.now ≡ key.now) }
        ensures list { option_map (λ found. arc_value found.1.now) result ≡ list_under key.now self.now }
    {
        match self.lists.next_from(key) {
            Some((there, list)) => {
                if there.compare(key).is_eq() {
                    Some((there, list))
                } else {
                    None
                }
            }
            None => None,
        }
    }
}
