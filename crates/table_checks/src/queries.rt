// What the grammar of queries and of upsert blocks makes of a row, whose control characters stand as their pictures.
mod changes;
mod pictures;
mod texts;

use crate::MOST;
use crate::queries::pictures::plain;
use dg_values::Mem;
use std::alloc::Global;

// What a table answers to the fields of a row; none where they can't be read.
pub(crate) fn answer(alloc: Global, table: &str, fields: &str) -> Mem<Option<String>> {
    match table {
        "repeat" => texts::repeated(alloc, fields),
        _ => {
            let text = plain(alloc, fields)?;
            answer_to_text(alloc, table, text.as_str())
        }
    }
}

// What a table of texts answers to one.
fn answer_to_text(alloc: Global, table: &str, text: &str) -> Mem<Option<String>> {
    if text.len() > MOST {
        return Ok(None);
    }
    match table {
        "query" => texts::query(alloc, text),
        "upsert" => texts::upsert(alloc, text),
        "cut" => texts::cut(alloc, text),
        "changed" => changes::changed(alloc, text),
        _ => Ok(None),
    }
}
