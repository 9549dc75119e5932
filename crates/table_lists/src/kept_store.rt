// A store with what may be asked of it.
ghost use Rattle.std.specs.Prelude.{◌≡◌, ◌↔◌, IfOk, IsTrue};
ghost use Rattle.std.specs.Arc.{arc_value};
ghost use Rattle.std.specs.Ordering.{on};
ghost use Rattle.std.specs.List.{AllByRecursion};
ghost use Rattle.dg_values.specs.Ascending.{Ascends};
ghost use Rattle.dg_delta.specs.Ops.{op_cmp};
ghost use Rattle.dg_keys.specs.Keys.{key_cmp, part_cmp};
ghost use Rattle.dg_list.specs.Lists.{reading};
ghost use Rattle.dg_store.specs.Stores.{list_at, bases_of};

use crate::fault::{Answer, Fault};
use crate::kept_list::KeptList;
use dg_base::Base;
use dg_keys::{Key, Part, Record};
use dg_list::PList;
use dg_sets::InOrder;
use dg_store::Store;
use dg_values::{Mem, OutOfMemory, Str};
use std::alloc::Global;
use std::marker::Model;
use std::sync::Arc;

// A store, a timestamp that no base is above, and one that no layer is above.
#[derive(Drop)]
pub(crate) struct KeptStore {
    store: Store,
    rolled: u64,
    newest: u64,
}

impl Model for KeptStore {
    ghost use Rattle.dg_store.specs.Stores.{Lists};
    ghost use Rattle.table_lists.specs.Kept.{AreWithin};

    ghost Value = { Lists };

    ghost view = { λ kept. kept.store };

    ghost invariant = { λ kept. AreWithin kept.rolled kept.newest kept.store };
}

impl KeptStore {
    pub(crate) fn new(alloc: Global) -> Mem<KeptStore> {
        Ok(KeptStore {
            store: Store::new(alloc)?,
            rolled: 0,
            newest: 0,
        })
    }

    pub(crate) fn share(&self) -> Mem<KeptStore> {
        Ok(KeptStore {
            store: self.store.share()?,
            rolled: self.rolled,
            newest: self.newest,
        })
    }

    pub(crate) fn store(&self) -> &Store {
        &self.store
    }

    // The list of a key, or an empty one.
    pub(crate) fn list(&self, alloc: Global, key: &Key) -> Mem<KeptList>
        ensures { IfOk result (λ list. list ≡ list_at key.now self.now) }
    {
        let list = list_of(alloc, &self.store, key)?;
        Ok(KeptList::new(list, self.rolled, self.newest))
    }

    // The store after a record, which has to be newer than all there.
    pub(crate) fn with_record(&self, alloc: Global, rec: &Record, held: &[Str]) -> Answer<KeptStore>
        requires parts { Ascends part_cmp rec.now.parts }
        requires each { AllByRecursion (λ part. Ascends op_cmp part.ops) rec.now.parts }
    {
        if rec.ts <= self.newest {
            return Err(Fault::Unfit);
        }
        let store = self.store.with_record(alloc, rec, held)?;
        Ok(KeptStore {
            store,
            rolled: self.rolled,
            newest: rec.ts,
        })
    }

    // The store after parts, whose timestamp has to be newer than all there.
    pub(crate) fn with_parts(&self, alloc: Global, ts: u64, parts: &[Part]) -> Answer<KeptStore>
        requires parts { Ascends part_cmp parts.now }
        requires each { AllByRecursion (λ part. Ascends op_cmp part.ops) parts.now }
    {
        if ts <= self.newest {
            return Err(Fault::Unfit);
        }
        let store = self.store.with_parts(alloc, ts, parts)?;
        Ok(KeptStore {
            store,
            rolled: self.rolled,
            newest: ts,
        })
    }

    // Adds a part, whose timestamp has to be newer than all there.
    pub(crate) fn put_part(&mut self, alloc: Global, ts: u64, part: &Part) -> Answer<()>
        requires { Ascends op_cmp part.now.ops }
    {
        if ts <= self.newest {
            return Err(Fault::Unfit);
        }
        self.store.put_part(alloc, ts, part)?;
        self.newest = ts;
        Ok(())
    }

    // The store with a base in the place of what a key's list has at or below a timestamp.
    pub(crate) fn with_base(&self, alloc: Global, key: &Key, upto: u64) -> Answer<KeptStore> {
        let list = self.list(alloc, key)?;
        let base = Arc::new(alloc, list.merged(alloc, upto)?)?;
        if upto < self.rolled {
            return Err(Fault::Unfit);
        }
        let store = self.store.with_base(alloc, key, base, upto)?;
        Ok(KeptStore {
            store,
            rolled: upto,
            newest: self.newest.max(upto),
        })
    }

    // The store with bases in the place of what the lists of keys, which have to ascend, have at or below a timestamp.
    pub(crate) fn with_bases(
        &self,
        alloc: Global,
        keys: &[Arc<Key>],
        upto: u64,
    ) -> Answer<KeptStore> {
        let bases = self.bases(alloc, keys, upto)?;
        if upto < self.rolled {
            return Err(Fault::Unfit);
        }
        if !ascend(bases.as_slice()) {
            return Err(Fault::Unfit);
        }
        let store = self.store.with_bases(alloc, bases.as_slice(), upto)?;
        Ok(KeptStore {
            store,
            rolled: upto,
            newest: self.newest.max(upto),
        })
    }

    // Bases that are the lists of keys at a timestamp.
    fn bases(
        &self,
        alloc: Global,
        keys: &[Arc<Key>],
        upto: u64,
    ) -> Answer<Vec<(Arc<Key>, Arc<Base>)>>
        ensures { IfOk result (λ bases. AllByRecursion (λ b. b.1 ≡ reading (list_at b.0 self.now) upto) (bases_of bases.items)) }
    {
        let mut bases = Vec::new(alloc);
        for key in keys {
            bases.push(self.base_at(alloc, key, upto)?)?;
        }
        Ok(bases)
    }

    // A base that is the list of a key at a timestamp.
    fn base_at(&self, alloc: Global, key: &Arc<Key>, upto: u64) -> Answer<(Arc<Key>, Arc<Base>)>
        ensures { IfOk result (λ base. arc_value base.1 ≡ reading (list_at (arc_value base.0) self.now) upto) }
    {
        let base = self.list(alloc, key)?.merged(alloc, upto)?;
        Ok((Arc::try_clone(key)?, Arc::new(alloc, base)?))
    }
}

// Whether each key is below the next.
fn ascend(bases: &[(Arc<Key>, Arc<Base>)]) -> bool
    ensures { IsTrue result ↔ Ascends (on (λ b. b.0) key_cmp) (bases_of bases.now) }
{
    bases.is_sorted_by(|a, b| (*a.0).compare(&*b.0).is_lt())
}

// The list of a key of a store, or an empty one.
fn list_of(alloc: Global, store: &Store, key: &Key) -> Mem<PList>
    ensures { IfOk result (λ list. list ≡ list_at key.now store.now) }
{
    match store.get(key) {
        Some(list) => list.share(),
        None => PList::empty(alloc),
    }
}
