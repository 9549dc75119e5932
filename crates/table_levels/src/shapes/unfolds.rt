// Rows of recursion over columns: what is shown of a node as long as no node of the path comes again.
ghost use Rattle.std.specs.Prelude.{◌≤◌, IfSome};

use dg_recurse::{Column, Reach, unfold};
use dg_tree::TreeFault;
use dg_values::{List, Mem, OutOfMemory, Str};
use std::alloc::Global;

// How a node is unfolded: within which limit, how many nodes deep, and from which place.
#[derive(Clone, Copy)]
struct Start {
    limit: usize,
    depth: u32,
    node: usize,
}

// The start of a field, as `1000 3 0`: the depth is 1 to 32.
fn start_of(field: &str) -> Option<Start>
    ensures some { IfSome result (λ start. 1 ≤ start.depth) }
    ensures most { IfSome result (λ start. start.depth ≤ 32) }
{
    let (limit, rest) = field.split_once(' ')?;
    let (depth, node) = rest.split_once(' ')?;
    let limit = limit.parse::<usize>().ok()?;
    let depth = depth.parse::<u32>().ok()?;
    let node = node.parse::<usize>().ok()?;
    if depth < 1 || depth > 32 {
        return None;
    }
    Some(Start { limit, depth, node })
}

// What each place shows of itself, with a semicolon between any two.
fn texts_of(alloc: Global, field: &str) -> Mem<Vec<Str>> {
    let mut texts = Vec::new(alloc);
    for text in field.split(';') {
        texts.push(Str::from_str(alloc, text)?)?;
    }
    Ok(texts)
}

// The places of a list.
fn list_of(alloc: Global, field: &str) -> Mem<Option<List<usize>>> {
    let mut places = Vec::new(alloc);
    for word in field.split_whitespace() {
        match word.parse::<usize>() {
            Ok(place) => places.push(place)?,
            Err(_) => return Ok(None),
        }
    }
    Ok(Some(List::from_vec(places)))
}

// The list of each place, with a semicolon between any two.
fn lists_of(alloc: Global, field: &str) -> Mem<Option<Vec<List<usize>>>> {
    let mut lists = Vec::new(alloc);
    for list in field.split(';') {
        match list_of(alloc, list)? {
            Some(list) => lists.push(list)?,
            None => return Ok(None),
        }
    }
    Ok(Some(lists))
}

// The column of an edge, as `many 1 2;2;0` or `one 1;;0`.
fn edge_of(alloc: Global, field: &str) -> Mem<Option<Column>> {
    let Some((form, lists)) = field.split_once(' ') else {
        return Ok(None);
    };
    let Some(lists) = lists_of(alloc, lists)? else {
        return Ok(None);
    };
    let key = Str::from_str(alloc, "\"friend\":")?;
    let single = form == "one";
    Ok(Some(Column::Edge { key, single, lists }))
}

// The row of a node, or what is wrong.
fn row_of(alloc: Global, columns: &[Column], count: usize, start: &Start) -> Mem<String>
    requires some { 1 ≤ start.now.depth }
    requires most { start.now.depth ≤ 32 }
{
    let reach = Reach::of(alloc, columns, count, start.depth)?;
    match unfold(alloc, columns, &reach, start.limit, start.depth, start.node) {
        Ok(row) => Ok(row.into_string()),
        Err(TreeFault::OutOfMemory) => Err(OutOfMemory),
        Err(TreeFault::TooLarge) => Ok(TreeFault::TooLarge.to_string(alloc)?),
    }
}

/// `LIMIT DEPTH PLACE, TEXTS, FORM LISTS`: what recursion shows of the node at a place.
pub(crate) fn unfolded(alloc: Global, fields: &str) -> Mem<Option<String>> {
    let (start, rest) = fields.split_once('\t').unwrap_or((fields, ""));
    let (texts, lists) = rest.split_once('\t').unwrap_or((rest, ""));
    let Some(start) = start_of(start) else {
        return Ok(None);
    };
    let texts = texts_of(alloc, texts)?;
    let count = texts.len();
    let Some(edge) = edge_of(alloc, lists)? else {
        return Ok(None);
    };
    let mut columns = Vec::new(alloc);
    columns.push(Column::Own(texts))?;
    columns.push(edge)?;
    Ok(Some(row_of(alloc, columns.as_slice(), count, &start)?))
}
