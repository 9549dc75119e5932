// Where subjects are filed by their objects: under tokens, under the nodes that they point to, and under numbers.
ghost use Rattle.std.specs.Prelude.{◌≡◌, ◌++◌, IfOk, OnOk, flat_map, length, map};
ghost use Rattle.dg_schema.specs.Definitions.{definition_of};
ghost use Rattle.dg_graph.specs.Lookups.{tokens_of_object};
ghost use Rattle.dg_keys.specs.declared.key.Key.{Key};
ghost use Rattle.dg_edges.specs.Lists.{Lists};
ghost use Rattle.dg_edges.specs.Filing as filings;
ghost use Rattle.dg_edges.specs.Filing.{filed_by, filed_node, filed_object, filed_number, filed_under, filed_if};

use crate::lists::Objects;
use crate::touched::object_tokens;
use dg_keys::Key;
use dg_schema::{PredDef, Schema};
use dg_tokens::{IndexToken, copy_token};
use dg_values::{Mem, OutOfMemory, Posting, Str, Tokenizer};
use std::alloc::Global;

// A node under a key.
#[derive(Drop)]
pub struct Filed {
    pub key: Key,
    pub node: u64,
}

// Filings before changes and after them.
#[derive(Drop)]
pub struct Filings {
    pub before: Vec<Filed>,
    pub after: Vec<Filed>,
}

// Files a subject under some tokens.
fn file_tokens(
    alloc: Global,
    p: &Str,
    s: u64,
    tokens: &[IndexToken],
    filed: &mut Vec<Filed>,
) -> Mem<()>
    ensures { OnOk result (filed.new.items ≡ filed.old.items ++ map (filings.filed_token p.now s) tokens.now) }
{
    for token in tokens {
        let p = p.copy(alloc)?;
        let t = copy_token(alloc, token)?;
        let key = Key::Index { p, t };
        filed.push(Filed { key, node: s })?;
    }
    Ok(())
}

// Files a subject under the tokens of an object by one tokenizer.
fn file_by(
    alloc: Global,
    p: &Str,
    s: u64,
    object: &Posting,
    tokenizer: &Tokenizer,
    filed: &mut Vec<Filed>,
) -> Mem<()>
    ensures { OnOk result (filed.new.items ≡ filed.old.items ++ filed_by p.now s object.now tokenizer.now) }
{
    let tokens = object_tokens(alloc, *tokenizer, object)?;
    file_tokens(alloc, p, s, tokens.as_slice(), filed)
}

// Files a subject under the tokens of an object by some tokenizers.
fn file_tokenized(
    alloc: Global,
    p: &Str,
    s: u64,
    object: &Posting,
    tokenizers: &[Tokenizer],
    filed: &mut Vec<Filed>,
) -> Mem<()>
    ensures { OnOk result (filed.new.items ≡ filed.old.items ++ flat_map (filed_by p.now s object.now) tokenizers.now) }
{
    for tokenizer in tokenizers {
        file_by(alloc, p, s, object, tokenizer, filed)?;
    }
    Ok(())
}

// Files a subject under a node that it points to.
fn file_node(alloc: Global, p: &Str, s: u64, object: &Posting, filed: &mut Vec<Filed>) -> Mem<()>
    ensures { OnOk result (filed.new.items ≡ filed.old.items ++ filed_node p.now s object.now) }
{
    match object {
        Posting::Uid(n) => {
            let p = p.copy(alloc)?;
            let key = Key::Reverse { p, o: *n };
            Ok(filed.push(Filed { key, node: s })?)
        }
        Posting::Val(_) => Ok(()),
    }
}

// The same, where the predicate has such lists.
fn file_back(
    alloc: Global,
    def: &PredDef,
    p: &Str,
    s: u64,
    object: &Posting,
    filed: &mut Vec<Filed>,
) -> Mem<()>
    ensures { OnOk result (filed.new.items ≡ filed.old.items ++ filings.filed_back def.now p.now s object.now) }
{
    if def.reverse {
        file_node(alloc, p, s, object, filed)
    } else {
        Ok(())
    }
}

// Files a subject under an object.
fn file_object(
    alloc: Global,
    def: &PredDef,
    p: &Str,
    s: u64,
    object: &Posting,
    filed: &mut Vec<Filed>,
) -> Mem<()>
    ensures { OnOk result (filed.new.items ≡ filed.old.items ++ filed_object def.now p.now s object.now) }
{
    file_tokenized(alloc, p, s, object, def.tokens.as_slice(), filed)?;
    file_back(alloc, def, p, s, object, filed)
}

// Files a subject under some objects.
fn file_objects(
    alloc: Global,
    def: &PredDef,
    p: &Str,
    s: u64,
    objects: &[Posting],
    filed: &mut Vec<Filed>,
) -> Mem<()>
    ensures { OnOk result (filed.new.items ≡ filed.old.items ++ flat_map (filed_object def.now p.now s) objects.now) }
{
    for object in objects {
        file_object(alloc, def, p, s, object, filed)?;
    }
    Ok(())
}

// Files a subject under the number of its objects, from 1 on.
fn file_number(alloc: Global, p: &Str, s: u64, n: u64, filed: &mut Vec<Filed>) -> Mem<()>
    ensures { OnOk result (filed.new.items ≡ filed.old.items ++ filed_number p.now s n) }
{
    if n < 1 {
        return Ok(());
    }
    let p = p.copy(alloc)?;
    let key = Key::Count { p, n };
    Ok(filed.push(Filed { key, node: s })?)
}

// The same, where the predicate has such lists.
fn file_count(
    alloc: Global,
    def: &PredDef,
    p: &Str,
    s: u64,
    n: u64,
    filed: &mut Vec<Filed>,
) -> Mem<()>
    ensures { OnOk result (filed.new.items ≡ filed.old.items ++ filings.filed_count def.now p.now s n) }
{
    if def.count {
        file_number(alloc, p, s, n, filed)
    } else {
        Ok(())
    }
}

// Files a subject under its objects.
fn file_under(
    alloc: Global,
    def: &PredDef,
    p: &Str,
    s: u64,
    objects: &[Posting],
    filed: &mut Vec<Filed>,
) -> Mem<()>
    ensures { OnOk result (filed.new.items ≡ filed.old.items ++ filed_under def.now p.now s objects.now) }
{
    file_objects(alloc, def, p, s, objects, filed)?;
    file_count(alloc, def, p, s, objects.len() as u64, filed)
}

// The same, where its predicate is declared.
fn file_subject(
    alloc: Global,
    schema: &Schema,
    p: &Str,
    s: u64,
    objects: &[Posting],
    filed: &mut Vec<Filed>,
) -> Mem<()>
    ensures { OnOk result (filed.new.items ≡ filed.old.items ++ filed_if (definition_of schema.now p.now) p.now s objects.now) }
{
    match schema.lookup(p.as_str()) {
        Some(def) => file_under(alloc, def, p, s, objects, filed),
        None => Ok(()),
    }
}

// Files the subject of a key under its objects.
pub fn file_at(
    alloc: Global,
    schema: &Schema,
    key: &Key,
    objects: &[Posting],
    filed: &mut Vec<Filed>,
) -> Mem<()>
    ensures { OnOk result (filed.new.items ≡ filed.old.items ++ filings.filed_at schema.now key.now objects.now) }
{
    match key {
        Key::Data { p, s } => file_subject(alloc, schema, p, *s, objects, filed),
        _ => Ok(()),
    }
}

// Files the subject of a key under its objects before changes and after some.
fn file_both(
    alloc: Global,
    schema: &Schema,
    key: &Key,
    objects: &Objects,
    found: &mut Filings,
) -> Mem<()>
    ensures before { OnOk result (found.new.before.items ≡ found.old.before.items ++ filings.filed_at schema.now key.now objects.now.before) }
    ensures after { OnOk result (found.new.after.items ≡ found.old.after.items ++ filings.filed_at schema.now key.now objects.now.after) }
{
    file_at(alloc, schema, key, objects.before(), &mut found.before)?;
    file_at(alloc, schema, key, objects.after(), &mut found.after)
}

// The filings of the subjects of keys, before changes and after some.
pub fn filings_of(alloc: Global, schema: &Schema, keys: &[Key], lists: &[Objects]) -> Mem<Filings>
    requires each { length lists.now ≡ length keys.now }
    ensures before { (f : Key → Lists) → lists.now ≡ map f keys.now → IfOk result (λ found. found.before.items ≡ flat_map (λ k. filings.filed_at schema.now k (f k).before) keys.now) }
    ensures after { (f : Key → Lists) → lists.now ≡ map f keys.now → IfOk result (λ found. found.after.items ≡ flat_map (λ k. filings.filed_at schema.now k (f k).after) keys.now) }
{
    let mut found = Filings {
        before: Vec::new(alloc),
        after: Vec::new(alloc),
    };
    for (place, key) in keys.iter().enumerate() {
        file_both(alloc, schema, key, &lists[place], &mut found)?;
    }
    Ok(found)
}
