// The text of trees and fields, within a limit.
ghost use Rattle.std.specs.Prelude.{◌≡◌, ◌≤◌, ◌<◌, ◌++◌, length, codes, map, IfOk, OnOk, IsErrOf};
ghost use Rattle.std.specs.Fmt.{signed_decimal};
ghost use Rattle.std.specs.List.{list_all};
ghost use Rattle.json.specs.Print.{quoted};
ghost use Rattle.dg_values.specs.Printing.{truth_text};
ghost use Rattle.dg_tree.specs.Plain.{is_plain_byte, in_quotes};
ghost use Rattle.dg_tree.specs.Texts.{comma_before, array_text, object_text, key_text, tree_text, field_text};

use crate::{Field, Tree, TreeFault};
use dg_values::{Mem, OutOfMemory, Str};
use serde_json::Value as Json;
use std::alloc::Global;

// A text in quotes, as a string of JSON.
fn quote(alloc: Global, text: &str) -> Mem<Str>
    ensures { IfOk result (λ s. s ≡ quoted text.now) }
{
    let json = Json::String(String::from_str(alloc, text)?);
    Ok(Str::from_string(json.to_string(alloc)?))
}

// Whether a byte stands in a string of JSON as it is.
fn is_plain_byte(byte: u8) -> bool
    ensures { result ≡ is_plain_byte byte }
{
    byte >= b' ' && byte != b'"' && byte != b'\\'
}

// Whether all bytes of a text do.
fn is_plain(text: &str) -> bool
    ensures { result ≡ list_all is_plain_byte text.now }
{
    text.as_bytes().iter().all(|byte| is_plain_byte(*byte))
}

// A number in decimal.
fn decimal(alloc: Global, n: i64) -> Mem<Str>
    ensures { IfOk result (λ s. s ≡ signed_decimal n) }
{
    Ok(Str::from_string(n.to_string(alloc)?))
}

fn truth_word(b: bool) -> &'static str
    ensures { result.now ≡ truth_text b }
{
    if b { "true" } else { "false" }
}

/// Adds a text at the end, where both together have at most `limit` bytes.
pub fn push(out: &mut Str, limit: usize, text: &str) -> Result<(), TreeFault>
    ensures ok { OnOk result (out.new ≡ out.old ++ text.now) }
    ensures within { length out.old ≤ limit → length out.new ≤ limit }
    ensures too_large { IsErrOf result TreeFault.TooLarge → limit < length (out.old ++ text.now) }
{
    if text.len() > limit.saturating_sub(out.len()) {
        return Err(TreeFault::TooLarge);
    }
    Ok(out.push_str(text)?)
}

// Adds a text between quotes, as it is.
fn push_in_quotes(out: &mut Str, limit: usize, text: &str) -> Result<(), TreeFault>
    ensures ok { OnOk result (out.new ≡ out.old ++ in_quotes text.now) }
    ensures within { length out.old ≤ limit → length out.new ≤ limit }
    ensures too_large { IsErrOf result TreeFault.TooLarge → limit < length (out.old ++ in_quotes text.now) }
{
    push(out, limit, "\"")?;
    push(out, limit, text)?;
    push(out, limit, "\"")
}

// Adds a text as a string of JSON. Of one without escapes no other text is made.
#[tactic(auto, using(crate::proofs::Plain::plain_quoted))]
fn push_quoted(alloc: Global, out: &mut Str, limit: usize, text: &str) -> Result<(), TreeFault>
    ensures ok { OnOk result (out.new ≡ out.old ++ quoted text.now) }
    ensures within { length out.old ≤ limit → length out.new ≤ limit }
    ensures too_large { IsErrOf result TreeFault.TooLarge → limit < length (out.old ++ quoted text.now) }
{
    if is_plain(text) {
        return push_in_quotes(out, limit, text);
    }
    push(out, limit, quote(alloc, text)?.as_str())
}

// Adds the comma before the tree or field at a place.
fn push_comma(out: &mut Str, limit: usize, place: usize) -> Result<(), TreeFault>
    ensures ok { OnOk result (out.new ≡ out.old ++ comma_before place) }
    ensures within { length out.old ≤ limit → length out.new ≤ limit }
    ensures too_large { IsErrOf result TreeFault.TooLarge → limit < length (out.old ++ comma_before place) }
{
    if place == 0 {
        return Ok(());
    }
    push(out, limit, ",")
}

/// Adds the key of a field, and its colon.
pub fn push_key(alloc: Global, out: &mut Str, limit: usize, key: &str) -> Result<(), TreeFault>
    ensures ok { OnOk result (out.new ≡ out.old ++ key_text key.now) }
    ensures within { length out.old ≤ limit → length out.new ≤ limit }
    ensures too_large { IsErrOf result TreeFault.TooLarge → limit < length (out.old ++ key_text key.now) }
{
    push_quoted(alloc, out, limit, key)?;
    push(out, limit, ":")
}

/// Adds a tree.
#[cycle(push)]
pub fn push_tree(alloc: Global, out: &mut Str, limit: usize, tree: &Tree) -> Result<(), TreeFault>
    ensures ok { OnOk result (out.new ≡ out.old ++ tree_text tree.now) }
    ensures within { length out.old ≤ limit → length out.new ≤ limit }
    ensures too_large { IsErrOf result TreeFault.TooLarge → limit < length (out.old ++ tree_text tree.now) }
{
    match tree {
        Tree::Int(n) => push(out, limit, decimal(alloc, *n)?.as_str()),
        Tree::Bool(b) => push(out, limit, truth_word(*b)),
        Tree::Text(text) => push_quoted(alloc, out, limit, text.as_str()),
        Tree::Array(trees) => push_array(alloc, out, limit, trees.as_slice()),
        Tree::Node(fields) => push_object(alloc, out, limit, fields.as_slice()),
    }
}

#[cycle(push)]
fn push_array(alloc: Global, out: &mut Str, limit: usize, trees: &[Tree]) -> Result<(), TreeFault>
    ensures ok { OnOk result (out.new ≡ out.old ++ array_text (map tree_text trees.now)) }
    ensures within { length out.old ≤ limit → length out.new ≤ limit }
    ensures too_large { IsErrOf result TreeFault.TooLarge
        → limit < length (out.old ++ array_text (map tree_text trees.now)) }
{
    push(out, limit, "[")?;
    for (place, tree) in trees.iter().enumerate() {
        push_comma(out, limit, place)?;
        push_tree(alloc, out, limit, tree)?;
    }
    push(out, limit, "]")
}

/// Adds an object of fields.
#[cycle(push)]
pub fn push_object(
    alloc: Global,
    out: &mut Str,
    limit: usize,
    fields: &[Field],
) -> Result<(), TreeFault>
    ensures ok { OnOk result (out.new ≡ out.old ++ object_text (map field_text fields.now)) }
    ensures within { length out.old ≤ limit → length out.new ≤ limit }
    ensures too_large { IsErrOf result TreeFault.TooLarge
        → limit < length (out.old ++ object_text (map field_text fields.now)) }
{
    push(out, limit, "{")?;
    for (place, field) in fields.iter().enumerate() {
        push_comma(out, limit, place)?;
        push_field(alloc, out, limit, field)?;
    }
    push(out, limit, "}")
}

#[cycle(push)]
fn push_field(alloc: Global, out: &mut Str, limit: usize, field: &Field) -> Result<(), TreeFault>
    ensures ok { OnOk result (out.new ≡ out.old ++ field_text field.now) }
    ensures within { length out.old ≤ limit → length out.new ≤ limit }
    ensures too_large { IsErrOf result TreeFault.TooLarge → limit < length (out.old ++ field_text field.now) }
{
    push_key(alloc, out, limit, field.key.as_str())?;
    push_tree(alloc, out, limit, &field.tree)
}
