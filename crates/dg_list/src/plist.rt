// Posting lists.
ghost use Rattle.std.specs.Prelude.{[], ◌≡◌, ◌+◌, ◌<◌, ◌≤◌, IfOk, nat_le, nat_lt, map, filter, true};
ghost use Rattle.std.specs.Arc.{arc_value};
ghost use Rattle.std.specs.List.{list_any};
ghost use Rattle.dg_values.specs.Ascending.{Ascends, has};
ghost use Rattle.dg_values.specs.Order.{posting_cmp};
ghost use Rattle.dg_delta.specs.Ops.{op_cmp};
ghost use Rattle.dg_list.specs.Lists.{reading, newest_ts, IsSound, with_layer, with_base, ReadsAlike};
ghost use Rattle.dg_list.specs.Links.{list_of, is_lowest, IsTop, Replace};

use crate::covering::{stand_on_base, stand_on_puts};
use crate::deciding::decide_at;
use crate::gathered::{after_alone, after_gathered, gather};
use dg_base::Base;
use dg_delta::{Layer, Op};
use dg_values::{Mem, OutOfMemory, Posting, Steps};
use std::alloc::Global;
use std::marker::Model;
use std::sync::Arc;
use std::sync::ledger::Ledger;

/// A posting list that never changes, which contracts see as a base with its timestamp and the layers above it. Lists
/// that grew from one share what they have in common.
#[cycle(posting_list)]
#[derive(Drop)]
pub struct PList {
    top: Link,
}

// A base, or a layer over an older list.
#[cycle(posting_list)]
enum Link {
    Rolled(u64, Arc<Base>),
    Over {
        layer: Arc<Layer>,
        older: Arc<PList>,
        // Whether nothing of the older list is left under the layer. It may be false where this wasn't found out.
        alone: bool,
    },
}

// A list may have very many layers, so they are let go in a loop, up to the first that is shared.
impl Drop for Link {
    fn drop(mut self) {
        loop {
            match self {
                Link::Rolled(_, _) => return,
                Link::Over {
                    layer: _,
                    older,
                    alone: _,
                } => match Arc::into_inner(older) {
                    Some(PList { top }) => self = top,
                    None => return,
                },
            }
        }
    }
}

impl Link {
    // Whether newer operations leave nothing of the list that begins here. It goes down by at most as many layers as there
    // are operations, and where it doesn't come to the lowest that counts, false says nothing.
    fn is_replaced_by(&self, ops: &[Op]) -> bool
        requires top { IsTop self.now }
        requires ops { Ascends op_cmp ops.now }
        ensures sound { result ≡ true → Replace ops.now (list_of self.now) }
        ensures exact { is_lowest self.now ≡ true → Replace ops.now (list_of self.now) → result ≡ true }
    {
        let mut link = self;
        let mut depth = 0;
        while depth <= ops.len() {
            match link {
                Link::Rolled(_, base) => return stand_on_base(ops, base),
                Link::Over {
                    layer,
                    older,
                    alone,
                } => {
                    let on_puts = stand_on_puts(ops, layer.ops());
                    if *alone || !on_puts {
                        return on_puts;
                    }
                    let list: &PList = older;
                    link = &list.top;
                    depth += 1;
                }
            }
        }
        false
    }
}

impl Model for PList {
    ghost use Rattle.std.specs.Prelude.{length};
    ghost use Rattle.dg_list.specs.Lists.{Layered};

    ghost Value = { Layered };

    ghost use Rattle.dg_list.specs.Links.{list_of, IsTop};

    ghost view = { λ list. list_of list.top };

    ghost invariant = { λ list. IsTop list.top };

    ghost size = { λ list. length list.layers };

    ghost use Rattle.std.proofs.Common.{arith};

    ghost size_decreases = { λ list h. Prim.grind (arith) };
}

impl PList {
    /// The empty list, with the base timestamp 0. The error is want of memory.
    pub fn empty(alloc: Global) -> Mem<PList>
        ensures { IfOk result (λ list. list ≡ record { base_ts = 0; base = []; layers = [] }) }
    {
        Ok(PList {
            top: Link::Rolled(0, Arc::new(alloc, Base::pack(alloc, &[])?)?),
        })
    }

    /// An equal list, which shares all with this one. The error is want of memory.
    pub fn share(&self) -> Mem<PList>
        ensures { IfOk result (λ list. list ≡ self.now) }
    {
        Ok(PList {
            top: match &self.top {
                Link::Rolled(ts, base) => Link::Rolled(*ts, Arc::try_clone(base)?),
                Link::Over {
                    layer,
                    older,
                    alone,
                } => Link::Over {
                    layer: Arc::try_clone(layer)?,
                    older: Arc::try_clone(older)?,
                    alone: *alone,
                },
            },
        })
    }

    /// The list with one more layer, which is newer than all there. The error is want of memory.
    pub fn with_layer(&self, alloc: Global, layer: Arc<Layer>) -> Mem<PList>
        requires { newest_ts self.now < (arc_value layer).ts }
        ensures { IfOk result (λ list. list ≡ with_layer self.now (arc_value layer)) }
    {
        let alone = self.top.is_replaced_by(layer.ops());
        let older = Arc::new(alloc, self.share()?)?;
        Ok(PList {
            top: Link::Over {
                layer,
                older,
                alone,
            },
        })
    }

    // The list at a timestamp: the operations of the layers that count, from the newest down to one that stands alone or
    // to the base, and then their newest on what is below.
    fn list_at(&self, alloc: Global, ts: u64) -> Mem<Vec<Posting>>
        ensures list { IfOk result (λ items. items.items ≡ reading self.now ts) }
        ensures ascend { IfOk result (λ items. Ascends posting_cmp items.items) }
    {
        let mut ops = Vec::new(alloc);
        let mut list = self;
        loop {
            match &list.top {
                Link::Rolled(_, base) => {
                    let items = base.walk(alloc, 0, base.len())?;
                    return after_gathered(alloc, items, ops);
                }
                Link::Over {
                    layer,
                    older,
                    alone,
                } => {
                    if *alone && layer.ts() <= ts {
                        return after_alone(alloc, ops, layer);
                    }
                    gather(&mut ops, layer, ts)?;
                    list = older;
                }
            }
        }
    }

    /// The list at a timestamp: the base after the layers at or below it. It is one step. The error is want of memory.
    pub fn read_at<L: Ledger>(
        &self,
        alloc: Global,
        ts: u64,
        reads: &mut Steps<L>,
    ) -> Mem<Vec<Posting>>
        requires { self.now.base_ts ≤ ts }
        ensures list { IfOk result (λ items. items.items ≡ reading self.now ts) }
        ensures ascend { IfOk result (λ items. Ascends posting_cmp items.items) }
        ensures one_read { reads.new ≡ reads.old + 1 }
    {
        reads.tick();
        self.list_at(alloc, ts)
    }

    /// Whether the list at a timestamp has the posting. It is one step, and takes no memory.
    pub fn has_at<L: Ledger>(&self, ts: u64, item: &Posting, reads: &mut Steps<L>) -> bool
        requires { self.now.base_ts ≤ ts }
        ensures has { result ≡ has posting_cmp (reading self.now ts) item.now }
        ensures one_read { reads.new ≡ reads.old + 1 }
    {
        reads.tick();
        let mut list = self;
        loop {
            match &list.top {
                Link::Rolled(_, base) => return base.find(item),
                Link::Over {
                    layer,
                    older,
                    alone,
                } => {
                    if let Some(there) = decide_at(layer, ts, item) {
                        return there;
                    }
                    if *alone && layer.ts() <= ts {
                        return false;
                    }
                    list = older;
                }
            }
        }
    }

    /// A base that is the list at a timestamp. It is one step. The error is want of memory.
    pub fn merged<L: Ledger>(&self, alloc: Global, upto: u64, reads: &mut Steps<L>) -> Mem<Base>
        requires { self.now.base_ts ≤ upto }
        ensures list { IfOk result (λ base. base ≡ reading self.now upto) }
        ensures one_read { reads.new ≡ reads.old + 1 }
    {
        Base::pack(alloc, self.read_at(alloc, upto, reads)?.as_slice())
    }

    /// Whether a layer at or below a timestamp is there. It takes no memory.
    pub fn layered(&self, upto: u64) -> bool
        ensures { result ≡ list_any (λ layer. nat_le layer.ts upto) self.now.layers }
    {
        let mut list = self;
        loop {
            match &list.top {
                Link::Rolled(_, _) => return false,
                Link::Over { layer, older, .. } => {
                    if layer.ts() <= upto {
                        return true;
                    }
                    list = older;
                }
            }
        }
    }

    /// The list with this base in the place of its base and its layers at or below a timestamp, where the base is the
    /// list at that timestamp. It reads the same from there on. The error is want of memory.
    pub fn with_base(&self, alloc: Global, base: Arc<Base>, upto: u64) -> Mem<PList>
        requires from { self.now.base_ts ≤ upto }
        requires base { arc_value base ≡ reading self.now upto }
        ensures layers { IfOk result (λ list. list ≡ with_base self.now (arc_value base) upto) }
        ensures same { IfOk result (λ list. ReadsAlike upto self.now list) }
    {
        let mut layers = self.layers_above(alloc, upto)?;
        let mut list = PList {
            top: Link::Rolled(upto, base),
        };
        while let Some(layer) = layers.pop() {
            list = list.with_layer(alloc, layer)?;
        }
        Ok(list)
    }

    // The layers above a timestamp, the newest first.
    fn layers_above(&self, alloc: Global, ts: u64) -> Mem<Vec<Arc<Layer>>>
        ensures layers { IfOk result (λ layers. map arc_value layers.items ≡ filter (λ layer. nat_lt ts layer.ts) self.now.layers) }
        ensures sound { IfOk result (λ layers. IsSound self.now) }
    {
        let mut layers = Vec::new(alloc);
        let mut list = self;
        loop {
            match &list.top {
                Link::Rolled(_, _) => return Ok(layers),
                Link::Over { layer, older, .. } => {
                    if layer.ts() <= ts {
                        return Ok(layers);
                    }
                    layers.push(Arc::try_clone(layer)?)?;
                    list = older;
                }
            }
        }
    }
}
