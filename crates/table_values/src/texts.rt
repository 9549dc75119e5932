// Rows of texts and lists, and of a type that holds a list of itself.
use crate::fault::Fault;
use crate::fields::{joined, numbers, plain, quoted};
use dg_values::{List, Str};
use std::alloc::Global;

// A name, and what hangs below it.
#[derive(Debug, Drop)]
struct Tree {
    name: Str,
    below: List<Tree>,
}

// `text | A | B`: the text A with B at its end.
pub(crate) fn text_row(alloc: Global, fields: &[&str]) -> Result<String, Fault> {
    let [front, more] = *fields else {
        return Err(Fault::Unreadable);
    };
    let mut text = Str::from_str(alloc, plain(alloc, front)?.as_str())?;
    text.push_str(plain(alloc, more)?.as_str())?;
    let copy = quoted(alloc, text.copy(alloc)?.as_str())?;
    let printed = quoted(alloc, format!(in alloc; "<{text}>")?.as_str())?;
    let (len, empty) = (text.len(), text.is_empty());
    let back = quoted(alloc, text.into_string().as_str())?;
    Ok(format!(in alloc;
        "copy {copy}, bytes {len}, empty {empty}, printed {printed}, back {back}"
    )?)
}

// `list | NUMBERS | NUMBER`: the list of the numbers with the last one put at its end.
pub(crate) fn list_row(alloc: Global, fields: &[&str]) -> Result<String, Fault> {
    let [front, last] = *fields else {
        return Err(Fault::Unreadable);
    };
    let mut list = List::from_vec(numbers(alloc, front)?);
    for number in numbers(alloc, last)? {
        list.push(number)?;
    }
    let copy = joined(alloc, list.copy(alloc)?.as_slice())?;
    let (len, empty, greatest) = (list.len(), list.is_empty(), greatest(&list));
    let back = joined(alloc, list.into_vec().as_slice())?;
    Ok(format!(in alloc;
        "copy {copy}, items {len}, empty {empty}, greatest {greatest}, back {back}"
    )?)
}

// The greatest item, or 0.
fn greatest(list: &List<u64>) -> u64 {
    let mut greatest = 0;
    for item in list {
        greatest = greatest.max(*item);
    }
    greatest
}

// `tree | NAME | NAMES`: a tree of that name, and below it one for each of the others.
pub(crate) fn tree_row(alloc: Global, fields: &[&str]) -> Result<String, Fault> {
    let [name, names] = *fields else {
        return Err(Fault::Unreadable);
    };
    let mut tree = leaf(alloc, name)?;
    for name in names.split_whitespace() {
        tree.below.push(leaf(alloc, name)?)?;
    }
    let (name, len) = (&tree.name, tree.below.len());
    Ok(format!(in alloc; "{name}, below {len}, {tree:?}")?)
}

fn leaf(alloc: Global, name: &str) -> Result<Tree, Fault> {
    Ok(Tree {
        name: Str::from_str(alloc, name)?,
        below: List::new(alloc),
    })
}
