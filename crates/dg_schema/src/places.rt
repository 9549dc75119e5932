// The places of definitions in ascending order of their names, looked into by halves.
ghost use Rattle.std.specs.Prelude.{◌≡◌, ◌≤◌, ◌<◌, Some, true, false, length, get_or, option_copied, slice_get, IfOk, IfErr, IfSome, IfNone};
ghost use Rattle.std.specs.List.Sorted.{IsPartitionPoint};
ghost use Rattle.std.specs.Ordering.{is_lt};
ghost use Rattle.dg_values.specs.Order.{text_cmp, same_text};
ghost use Rattle.dg_sets.specs.Placing.{BelongsAt};
ghost use Rattle.dg_schema.specs.Definitions.{definition_of, is_named};
ghost use Rattle.dg_schema.specs.Places.{name_at, names_at, IsIndexed, IsThere};

use crate::PredDef;

// Whether a definition has this name.
fn is_named(definition: &PredDef, name: &str) -> bool
    ensures { result ≡ is_named name.now definition.now }
{
    definition.name.as_str().cmp(name).is_eq()
}

// The number at a place.
fn place_at(places: &[usize], at: usize) -> Option<usize>
    ensures { result ≡ slice_get places.now at }
{
    places.get(at).copied()
}

/// The definition at a place.
pub fn definition_at<'a>(definitions: &'a [PredDef], place: usize) -> Option<&'a PredDef>
    ensures { option_copied result ≡ slice_get definitions.now place }
{
    definitions.get(place)
}

// The name of the definition at a place; empty where there is none.
fn name_at<'a>(definitions: &'a [PredDef], place: usize) -> &'a str
    ensures { result.now ≡ name_at definitions.now place }
{
    match definition_at(definitions, place) {
        Some(definition) => definition.name.as_str(),
        None => "",
    }
}

// Whether the name at a place is below this one.
fn is_below(definitions: &[PredDef], place: usize, name: &str) -> bool
    ensures { result ≡ is_lt (text_cmp (name_at definitions.now place) name.now) }
{
    name_at(definitions, place).cmp(name).is_lt()
}

// How many of the places have a name below this one.
pub fn below(definitions: &[PredDef], places: &[usize], name: &str) -> usize
    requires indexed { IsIndexed definitions.now places.now }
    ensures within { result ≤ length places.now }
    ensures point { IsPartitionPoint (λ p. is_lt (text_cmp (name_at definitions.now p) name.now) ≡ true) (λ p. is_lt (text_cmp (name_at definitions.now p) name.now) ≡ false) places.now result }
{
    places.partition_point(|p| is_below(definitions, *p, name))
}

// Whether the definition at a place has this name.
fn is_at(definitions: &[PredDef], place: usize, name: &str) -> bool
    ensures { result ≡ same_text (name_at definitions.now place) name.now }
{
    name_at(definitions, place).cmp(name).is_eq()
}

// The place that stands here among the places, where the definition there has this name.
fn place_here(definitions: &[PredDef], places: &[usize], here: usize, name: &str) -> Option<usize>
    ensures some { IfSome result (λ place. slice_get places.now here ≡ Some place) }
    ensures named { IfSome result (λ place. same_text (name_at definitions.now place) name.now ≡ true) }
    ensures none { IfNone result (here < length places.now → same_text (name_at definitions.now (get_or places.now here 0)) name.now ≡ false) }
{
    let place = place_at(places, here)?;
    if is_at(definitions, place, name) {
        Some(place)
    } else {
        None
    }
}

/// The place of the definition of a name, or else where a place for the name belongs among the places.
pub fn place_of(definitions: &[PredDef], places: &[usize], name: &str) -> Result<usize, usize>
    requires indexed { IsIndexed definitions.now places.now }
    ensures there { IfOk result (IsThere definitions.now name.now) }
    ensures missing { IfErr result (BelongsAt text_cmp (names_at definitions.now places.now) name.now) }
{
    let here = below(definitions, places, name);
    match place_here(definitions, places, here, name) {
        Some(place) => Ok(place),
        None => Err(here),
    }
}

// The definition of a name.
pub fn named<'a>(definitions: &'a [PredDef], places: &[usize], name: &str) -> Option<&'a PredDef>
    requires indexed { IsIndexed definitions.now places.now }
    ensures { option_copied result ≡ definition_of definitions.now name.now }
{
    let place = place_at(places, below(definitions, places, name))?;
    let definition = definition_at(definitions, place)?;
    if is_named(definition, name) {
        Some(definition)
    } else {
        None
    }
}
