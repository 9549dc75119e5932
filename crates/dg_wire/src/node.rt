// The nodes of a generated script, as N-Quads.
ghost use Rattle.std.specs.Prelude.{◌≡◌, ◌<◌, ◌≤◌, ◌+◌, ◌*◌, ◌++◌, IfOk, OnOk};
ghost use Rattle.std.specs.List.{join_with_byte};
ghost use Rattle.std.specs.String.{string_bytes};
ghost use Rattle.dg_wire.specs.Draws.{Drawing};
ghost use Rattle.dg_wire.specs.Generator.{name_line, age_line, friend_line, node_text, node_behind, nodes_behind, joint};

use crate::draws::Draws;
use dg_values::{List, Mem, OutOfMemory};
use std::alloc::Global;

/// The lines of so many nodes, behind others, with line feeds between all.
pub fn nodes_text(
    alloc: Global,
    draws: &mut Draws,
    size: u32,
    done: u32,
    count: u32,
) -> Mem<List<u8>>
    requires made { draws.old.made ≡ 3 * done }
    requires within { done + count ≤ size }
    requires few { size ≤ 10000 }
    ensures text { IfOk result (λ text. text ≡ join_with_byte 10 (nodes_behind draws.old.seed size done count)) }
    ensures drawn { OnOk result (draws.new ≡ record { seed = draws.old.seed; made = 3 * (done + count) }) }
{
    let mut text = Vec::new(alloc);
    for before in 0..count {
        let node = next_node(alloc, draws, size, done + before)?;
        push_node(&mut text, before, node.as_bytes())?;
    }
    Ok(List::from_vec(text))
}

// Appends a node's lines behind so many others.
fn push_node(text: &mut Vec<u8>, before: u32, node: &[u8]) -> Mem<()>
    ensures { OnOk result (text.new.items ≡ text.old.items ++ (joint before ++ node.now)) }
{
    if before > 0 {
        text.push(b'\n')?;
    }
    text.extend_from_slice(node)?;
    Ok(())
}

// The lines of the node behind so many, by the next three draws.
fn next_node(alloc: Global, draws: &mut Draws, size: u32, done: u32) -> Mem<String>
    requires made { draws.old.made ≡ 3 * done }
    requires within { done < size }
    requires few { size ≤ 10000 }
    ensures text { IfOk result (λ text. string_bytes text ≡ node_behind draws.old.seed size done) }
    ensures drawn { draws.new ≡ record { seed = draws.old.seed; made = 3 * (done + 1) } }
{
    let name = draws.below(1000);
    let age = draws.below(100);
    let friend = draws.below(size) + 1;
    node_text(alloc, done + 1, name, age, friend)
}

// The three lines of a node.
fn node_text(alloc: Global, node: u32, name: u32, age: u32, friend: u32) -> Mem<String>
    ensures { IfOk result (λ text. string_bytes text ≡ node_text node name age friend) }
{
    let name = name_line(alloc, node, name)?;
    let age = age_line(alloc, node, age)?;
    let friend = friend_line(alloc, node, friend)?;
    Ok(format!(in alloc; "{name}\n{age}\n{friend}")?)
}

// The line of a node's name.
fn name_line(alloc: Global, node: u32, name: u32) -> Mem<String>
    ensures { IfOk result (λ text. string_bytes text ≡ name_line node name) }
{
    Ok(format!(in alloc; "<0x{node:x}> <name> \"n{name}\" .")?)
}

// The line of a node's age.
fn age_line(alloc: Global, node: u32, age: u32) -> Mem<String>
    ensures { IfOk result (λ text. string_bytes text ≡ age_line node age) }
{
    Ok(format!(in alloc; "<0x{node:x}> <age> \"{age}\" .")?)
}

// The line of a node's friend.
fn friend_line(alloc: Global, node: u32, friend: u32) -> Mem<String>
    ensures { IfOk result (λ text. string_bytes text ≡ friend_line node friend) }
{
    Ok(format!(in alloc; "<0x{node:x}> <friend> <0x{friend:x}> .")?)
}
