// The reply of a mutation: the new nodes by their names.
ghost use Rattle.std.specs.Prelude.{◌≡◌, ◌+◌, ◌<◌, ◌^◌, ◌++◌, IfOk, OnOk, map, length};
ghost use Rattle.dg_tree.specs.Texts.{comma_before, with_commas};
ghost use Rattle.dg_node.specs.NewUids.{numbered, member_text, uids_text};

use dg_sets::{InOrder, in_order};
use dg_values::{List, Mem, OutOfMemory, Str};
use std::alloc::Global;
use std::cmp::Ordering;

// A new node: its name and its number.
#[derive(Debug, Drop)]
pub struct Numbered {
    pub name: Str,
    pub uid: u64,
}

/// By the bytes of the name.
impl InOrder for Numbered {
    ghost use Rattle.std.specs.Ordering.{nat_cmp};
    ghost use Rattle.dg_values.specs.Order.{text_cmp};
    ghost use Rattle.dg_sets.proofs.MadeOrders.{nat_order, text_order, then_order};
    ghost use Rattle.dg_node.specs.declared.new_uids.Numbered.{Numbered};
    ghost use Rattle.dg_node.specs.NewUids.{numbered_cmp};

    ghost order = { numbered_cmp };

    fn compare(&self, other: &Numbered) -> Ordering {
        self.name
            .compare(&other.name)
            .then(self.uid.cmp(&other.uid))
    }

    ghost total = { then_order (λ (n : Numbered). n.name) (λ n. n.uid) text_cmp nat_cmp text_order nat_order (λ x y e f. λ i. record { name = e i; uid = f i }) };
}

// Names, numbered in their order from `first`.
fn number(alloc: Global, names: Vec<Str>, first: u64) -> Mem<Vec<Numbered>>
    requires { first + length names.items < 2 ^ 64 }
    ensures { IfOk result (λ nodes. nodes.items ≡ numbered first names.items) }
{
    let mut nodes = Vec::with_capacity(alloc, names.len())?;
    let mut uid = first;
    for name in names {
        nodes.push(Numbered { name, uid })?;
        uid += 1;
    }
    Ok(nodes)
}

// A node as a member of an object of JSON.
fn member(alloc: Global, node: &Numbered) -> Mem<Str>
    ensures { IfOk result (λ text. text ≡ member_text node.now) }
{
    let Numbered { name, uid } = node;
    Ok(Str::from_string(format!(in alloc; "\"{name}\":\"0x{uid:x}\"")?))
}

// Adds the comma before the member at a place.
fn push_comma(text: &mut Str, place: usize) -> Mem<()>
    ensures { OnOk result (text.new ≡ text.old ++ comma_before place) }
{
    if place == 0 {
        return Ok(());
    }
    text.push_str(",")
}

// Adds nodes as members, with a comma between any two.
fn push_members(alloc: Global, text: &mut Str, nodes: &[Numbered]) -> Mem<()>
    ensures { OnOk result (text.new ≡ text.old ++ with_commas (map member_text nodes.now)) }
{
    for (place, node) in nodes.iter().enumerate() {
        push_comma(text, place)?;
        text.push_str(member(alloc, node)?.as_str())?;
    }
    Ok(())
}

/// The reply's body: `{"uids":{..}}` with the number of each new node by its name, in the order of the names' bytes.
/// The names are numbered in their order from `first`. The error is want of memory.
pub fn uids_text(alloc: Global, names: Vec<Str>, first: u64) -> Mem<List<u8>>
    requires { first + length names.items < 2 ^ 64 }
    ensures { IfOk result (λ text. text ≡ uids_text first names.items) }
{
    let nodes = in_order(number(alloc, names, first)?);
    let mut text = Str::from_str(alloc, "{\"uids\":{")?;
    push_members(alloc, &mut text, nodes.as_slice())?;
    text.push_str("}}")?;
    Ok(List::from_vec(text.into_string().into_bytes()))
}
