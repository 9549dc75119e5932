// What the rules of shape make of lists of nodes and of whole trees, and what recursion shows of a node.
mod orders;
mod trees;
mod unfolds;
mod wholes;

use dg_values::Mem;
use std::alloc::Global;

// What a table answers to the fields of a row; none where they can't be read.
pub(crate) fn answer(alloc: Global, table: &str, fields: &str) -> Mem<Option<String>> {
    match table {
        "order" => orders::ordered(alloc, fields),
        "many" => orders::many(alloc, fields),
        "page" => orders::paged(alloc, fields),
        "cascade" => wholes::cascaded(alloc, fields),
        "strip" => wholes::stripped(alloc, fields),
        "normalize" => wholes::normalized(alloc, fields),
        "product" => wholes::product(alloc, fields),
        "unfold" => unfolds::unfolded(alloc, fields),
        _ => Ok(None),
    }
}
