// Schemas, as rows and answers write them.
use crate::groups::fault::{Answer, Fault};
use dg_schema::{Schema, SchemaFault, read_schema};
use std::alloc::Global;

// The most bytes that a text has.
const MOST: usize = 1_048_576;

// The schema that a text says.
pub(crate) fn schema_of(alloc: Global, text: &str) -> Answer<Schema> {
    if text.len() > MOST {
        return Err(Fault::Unfit);
    }
    match read_schema(alloc, text) {
        Ok(schema) => Ok(schema),
        Err(SchemaFault::SchemaSyntax { .. }) => Err(Fault::Unfit),
        Err(SchemaFault::OutOfMemory) => Err(Fault::OutOfMemory),
    }
}

// The lines of a schema, with a picture in the place of the end of each.
pub(crate) fn schema_text(alloc: Global, schema: &Schema) -> Answer<String> {
    let text = schema.text_of()?;
    Ok(
        text.chars()
            .map(|c| if c == '\n' { '␊' } else { c })
            .collect(alloc)?,
    )
}
