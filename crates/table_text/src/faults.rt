// The texts of faults.
use dg_nquad::NquadFault;
use dg_schema::SchemaFault;
use dg_text::LexFault;
use dg_tree::TreeFault;
use dg_values::{Mem, OutOfMemory};
use std::alloc::Global;

// The text of the fault of this name; one with a place is at 7.
pub(crate) fn fault(alloc: Global, name: &str) -> Mem<Option<String>> {
    let text = match name {
        "LexFault::OutOfMemory" => LexFault::OutOfMemory.to_string(alloc)?,
        "LexFault::BadToken" => LexFault::BadToken { offset: 7 }.to_string(alloc)?,
        "SchemaFault::OutOfMemory" => SchemaFault::OutOfMemory.to_string(alloc)?,
        "SchemaFault::SchemaSyntax" => SchemaFault::SchemaSyntax { line: 7 }.to_string(alloc)?,
        "NquadFault::OutOfMemory" => NquadFault::OutOfMemory.to_string(alloc)?,
        "NquadFault::BadToken" => NquadFault::BadToken { offset: 7 }.to_string(alloc)?,
        "NquadFault::BadSyntax" => NquadFault::BadSyntax { offset: 7 }.to_string(alloc)?,
        "TreeFault::TooLarge" => TreeFault::TooLarge.to_string(alloc)?,
        "TreeFault from OutOfMemory" => TreeFault::from(OutOfMemory).to_string(alloc)?,
        _ => return Ok(None),
    };
    Ok(Some(text))
}
