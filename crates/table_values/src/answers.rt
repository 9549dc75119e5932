// The answer to a row.
use crate::fault::Fault;
use crate::fields::fields_of;
use crate::sets::Kept;
use crate::{objects, readings, sets, tables, texts, tokens, uids};
use std::alloc::Global;

// What is printed behind a row. The first word is its table; the rest of that field names a call.
pub(crate) fn answer(alloc: Global, kept: &mut Kept, row: &str) -> Result<String, Fault> {
    let all = fields_of(alloc, row)?;
    let (head, fields) = all.as_slice().split_first().ok_or(Fault::Unreadable)?;
    let (table, call) = head.split_once(' ').unwrap_or((*head, ""));
    match table {
        "read" => readings::read_row(alloc, call, fields),
        "cut" => readings::cut_row(alloc, fields),
        "copy" => objects::copy_row(alloc, fields),
        "order" => objects::order_row(alloc, call, fields),
        "text" => texts::text_row(alloc, fields),
        "list" => texts::list_row(alloc, fields),
        "tree" => texts::tree_row(alloc, fields),
        "tokens" => tokens::tokens_row(alloc, call, fields),
        "table" => tables::table_row(alloc, call, fields),
        "set" => sets::set_row(alloc, kept, call, fields),
        "uids" => uids::uids_row(alloc, call, fields),
        _ => Err(Fault::Unreadable),
    }
}
