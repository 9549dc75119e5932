// Definitions put among others in place.
ghost use Rattle.std.specs.Prelude.{◌≡◌, ◌+◌, ◌<◌, ◌≤◌, [], ◌∷◌, ◌++◌, fold, length, vec_len, vec_capacity};
ghost use Rattle.dg_values.specs.Order.{text_cmp};
ghost use Rattle.dg_sets.specs.Placing.{BelongsAt};
ghost use Rattle.dg_schema.specs.Definitions.{with_definition};
ghost use Rattle.dg_schema.specs.Places.{names_at, IsIndexed, IsThere};

use crate::{PredDef, places};

// Adds a definition whose name isn't declared. There is room for it, and for its place.
fn add(definitions: &mut Vec<PredDef>, by_name: &mut Vec<usize>, at: usize, definition: PredDef)
    requires indexed { IsIndexed definitions.old.items by_name.old.items }
    requires belongs { BelongsAt text_cmp (names_at definitions.old.items by_name.old.items) definition.name at }
    requires room { vec_len definitions.old < vec_capacity definitions.old }
    requires room_by_name { vec_len by_name.old < vec_capacity by_name.old }
    ensures items { definitions.new.items ≡ with_definition definitions.old.items definition }
    ensures indexed { IsIndexed definitions.new.items by_name.new.items }
    ensures len { vec_len definitions.new ≡ vec_len definitions.old + 1 }
    ensures len_by_name { vec_len by_name.new ≡ vec_len by_name.old + 1 }
    ensures capacity { vec_capacity definitions.new ≡ vec_capacity definitions.old }
    ensures capacity_by_name { vec_capacity by_name.new ≡ vec_capacity by_name.old }
{
    let place = definitions.len();
    definitions.push_reserved(definition);
    match by_name.insert(at, place) {
        Ok(()) => {}
        Err(_) => unreachable!(),
    }
}

// Puts a definition in the place of its namesake.
fn replace(definitions: &mut Vec<PredDef>, by_name: &[usize], place: usize, definition: PredDef)
    requires indexed { IsIndexed definitions.old.items by_name.now }
    requires there { IsThere definitions.old.items definition.name place }
    ensures items { definitions.new.items ≡ with_definition definitions.old.items definition }
    ensures indexed { IsIndexed definitions.new.items by_name.now }
    ensures len { vec_len definitions.new ≡ vec_len definitions.old }
    ensures capacity { vec_capacity definitions.new ≡ vec_capacity definitions.old }
{
    definitions[place] = definition;
}

// Adds a definition, or puts it in the place of its namesake. There is room for it, and for its place.
fn put(definitions: &mut Vec<PredDef>, by_name: &mut Vec<usize>, definition: PredDef)
    requires indexed { IsIndexed definitions.old.items by_name.old.items }
    requires room { vec_len definitions.old < vec_capacity definitions.old }
    requires room_by_name { vec_len by_name.old < vec_capacity by_name.old }
    ensures items { definitions.new.items ≡ with_definition definitions.old.items definition }
    ensures indexed { IsIndexed definitions.new.items by_name.new.items }
    ensures len { vec_len definitions.new ≤ vec_len definitions.old + 1 }
    ensures len_by_name { vec_len by_name.new ≤ vec_len by_name.old + 1 }
    ensures capacity { vec_capacity definitions.new ≡ vec_capacity definitions.old }
    ensures capacity_by_name { vec_capacity by_name.new ≡ vec_capacity by_name.old }
{
    match places::place_of(
        definitions.as_slice(),
        by_name.as_slice(),
        definition.name.as_str(),
    ) {
        Ok(place) => replace(definitions, by_name.as_slice(), place, definition),
        Err(at) => add(definitions, by_name, at, definition),
    }
}

/// Adds definitions one after the other, or puts them in the places of their namesakes. There is room for them, and for
/// their places.
pub fn put_all(definitions: &mut Vec<PredDef>, by_name: &mut Vec<usize>, newer: Vec<PredDef>)
    requires indexed { IsIndexed definitions.old.items by_name.old.items }
    requires room { vec_len definitions.old + length newer.items ≤ vec_capacity definitions.old }
    requires room_by_name { vec_len by_name.old + length newer.items ≤ vec_capacity by_name.old }
    ensures items { definitions.new.items ≡ fold with_definition definitions.old.items newer.items }
    ensures indexed { IsIndexed definitions.new.items by_name.new.items }
{
    for definition in newer {
        put(definitions, by_name, definition);
    }
}
