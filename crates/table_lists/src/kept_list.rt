// A posting list with what may be asked of it.
ghost use Rattle.std.specs.Prelude.{◌≡◌, IfOk};
ghost use Rattle.dg_list.specs.Lists.{reading};
ghost use Rattle.table_lists.specs.Kept.{IsWithin};

use crate::fault::{Answer, Fault};
use crate::reads;
use dg_base::Base;
use dg_delta::Layer;
use dg_list::PList;
use dg_values::{Mem, OutOfMemory, Posting};
use std::alloc::Global;
use std::marker::Model;
use std::sync::Arc;

// A posting list, a timestamp that its base isn't above, and one that no layer is above.
#[derive(Drop)]
pub(crate) struct KeptList {
    list: PList,
    rolled: u64,
    newest: u64,
}

impl Model for KeptList {
    ghost use Rattle.dg_list.specs.Lists.{Layered};
    ghost use Rattle.table_lists.specs.Kept.{IsWithin};

    ghost Value = { Layered };

    ghost view = { λ kept. kept.list };

    ghost invariant = { λ kept. IsWithin kept.rolled kept.newest kept.list };
}

impl KeptList {
    pub(crate) fn empty(alloc: Global) -> Mem<KeptList> {
        Ok(KeptList {
            list: PList::empty(alloc)?,
            rolled: 0,
            newest: 0,
        })
    }

    pub(crate) fn new(list: PList, rolled: u64, newest: u64) -> KeptList
        requires { IsWithin rolled newest list }
        ensures { result ≡ list }
    {
        KeptList {
            list,
            rolled,
            newest,
        }
    }

    pub(crate) fn share(&self) -> Mem<KeptList> {
        Ok(KeptList {
            list: self.list.share()?,
            rolled: self.rolled,
            newest: self.newest,
        })
    }

    // The list with one more layer, which has to be newer than all there.
    pub(crate) fn with_layer(&self, alloc: Global, layer: Layer) -> Answer<KeptList> {
        let newest = layer.ts();
        if newest <= self.newest {
            return Err(Fault::Unfit);
        }
        let list = self.list.with_layer(alloc, Arc::new(alloc, layer)?)?;
        Ok(KeptList {
            list,
            rolled: self.rolled,
            newest,
        })
    }

    // The list with a base in the place of what is at or below a timestamp.
    pub(crate) fn with_base(&self, alloc: Global, upto: u64) -> Answer<KeptList> {
        let base = Arc::new(alloc, self.merged(alloc, upto)?)?;
        if upto < self.rolled {
            return Err(Fault::Unfit);
        }
        let list = self.list.with_base(alloc, base, upto)?;
        Ok(KeptList {
            list,
            rolled: upto,
            newest: self.newest.max(upto),
        })
    }

    // A base that is the list at a timestamp.
    pub(crate) fn merged(&self, alloc: Global, upto: u64) -> Answer<Base>
        ensures { IfOk result (λ base. base ≡ reading self.now upto) }
    {
        if upto < self.rolled {
            return Err(Fault::Unfit);
        }
        Ok(reads::merged(alloc, &self.list, upto)?)
    }

    // The list at a timestamp.
    pub(crate) fn read(&self, alloc: Global, ts: u64) -> Answer<Vec<Posting>> {
        if ts < self.rolled {
            return Err(Fault::Unfit);
        }
        Ok(reads::read(alloc, &self.list, ts)?)
    }

    // Whether the list at a timestamp has a posting.
    pub(crate) fn has(&self, ts: u64, item: &Posting) -> Answer<bool> {
        if ts < self.rolled {
            return Err(Fault::Unfit);
        }
        Ok(reads::has(&self.list, ts, item))
    }

    // Whether there is a layer at or below a timestamp.
    pub(crate) fn layered(&self, upto: u64) -> bool {
        self.list.layered(upto)
    }

    // A timestamp that no layer is above.
    pub(crate) fn newest(&self) -> u64 {
        self.newest
    }
}
