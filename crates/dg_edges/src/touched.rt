// The keys of one change: of its data, of the tokens of the objects that it touches, and of what is counted.
ghost use Rattle.std.specs.Prelude.{◌≡◌, ◌++◌, ◌∷◌, [], IfOk, OnOk, flat_map};
ghost use Rattle.dg_graph.specs.Lookups.{tokens_of_object};
ghost use Rattle.dg_zero.specs.Listings.{keys_of_token, keys_of_object, reverse_keys};
ghost use Rattle.dg_edges.specs.Replaced.{keys_of_tokens, keys_of_data, keys_of_count, counted_keys, keys_with};

use dg_graph::Triple;
use dg_keys::ConflictKey;
use dg_schema::PredDef;
use dg_tokens::{IndexToken, copy_token, tokens_of};
use dg_values::{Mem, OutOfMemory, Posting, Tokenizer};
use std::alloc::Global;

// The key of a token, with a subject or at any.
fn index_key(alloc: Global, t: &Triple, token: &IndexToken, s: Option<u64>) -> Mem<ConflictKey>
    ensures { IfOk result (λ key. key ≡ ConflictKey.Index t.now.p token.now s) }
{
    Ok(ConflictKey::Index {
        p: t.p.copy(alloc)?,
        t: copy_token(alloc, token)?,
        s,
    })
}

// Adds the keys of one token.
fn push_token(
    alloc: Global,
    def: &PredDef,
    t: &Triple,
    token: &IndexToken,
    found: &mut Vec<ConflictKey>,
) -> Mem<()>
    ensures { OnOk result (found.new.items ≡ found.old.items ++ keys_of_token def.now t.now token.now) }
{
    found.push(index_key(alloc, t, token, Some(t.s))?)?;
    if def.upsert {
        found.push(index_key(alloc, t, token, None)?)?;
    }
    Ok(())
}

// Adds the keys of some tokens.
fn push_tokens(
    alloc: Global,
    def: &PredDef,
    t: &Triple,
    tokens: &[IndexToken],
    found: &mut Vec<ConflictKey>,
) -> Mem<()>
    ensures { OnOk result (found.new.items ≡ found.old.items ++ flat_map (keys_of_token def.now t.now) tokens.now) }
{
    for token in tokens {
        push_token(alloc, def, t, token, found)?;
    }
    Ok(())
}

// The tokens of an object by one tokenizer.
pub fn object_tokens(alloc: Global, tokenizer: Tokenizer, object: &Posting) -> Mem<Vec<IndexToken>>
    ensures { IfOk result (λ v. v.items ≡ tokens_of_object tokenizer object.now) }
{
    match object {
        Posting::Uid(_) => Ok(Vec::new(alloc)),
        Posting::Val(value) => tokens_of(alloc, tokenizer, value),
    }
}

// Adds the keys of the tokens of an object by one tokenizer.
fn push_by(
    alloc: Global,
    def: &PredDef,
    t: &Triple,
    tokenizer: &Tokenizer,
    object: &Posting,
    found: &mut Vec<ConflictKey>,
) -> Mem<()>
    ensures { OnOk result (found.new.items ≡ found.old.items ++ keys_of_tokens def.now t.now object.now tokenizer.now) }
{
    let tokens = object_tokens(alloc, *tokenizer, object)?;
    push_tokens(alloc, def, t, tokens.as_slice(), found)
}

// Adds the keys of the tokens of an object by some tokenizers.
fn push_tokenized(
    alloc: Global,
    def: &PredDef,
    t: &Triple,
    tokenizers: &[Tokenizer],
    object: &Posting,
    found: &mut Vec<ConflictKey>,
) -> Mem<()>
    ensures { OnOk result (found.new.items ≡ found.old.items ++ flat_map (keys_of_tokens def.now t.now object.now) tokenizers.now) }
{
    for tokenizer in tokenizers {
        push_by(alloc, def, t, tokenizer, object, found)?;
    }
    Ok(())
}

// Adds the keys of an object.
fn push_object(
    alloc: Global,
    def: &PredDef,
    t: &Triple,
    object: &Posting,
    found: &mut Vec<ConflictKey>,
) -> Mem<()>
    ensures { OnOk result (found.new.items ≡ found.old.items ++ keys_of_object def.now t.now object.now) }
{
    push_tokenized(alloc, def, t, def.tokens.as_slice(), object, found)
}

// Adds the keys of the tokens of some objects.
fn push_objects(
    alloc: Global,
    def: &PredDef,
    t: &Triple,
    objects: &[Posting],
    found: &mut Vec<ConflictKey>,
) -> Mem<()>
    ensures { OnOk result (found.new.items ≡ found.old.items ++ flat_map (keys_of_object def.now t.now) objects.now) }
{
    for object in objects {
        push_object(alloc, def, t, object, found)?;
    }
    Ok(())
}

// Adds the key of the number of subjects that point to a node.
fn push_node(alloc: Global, t: &Triple, object: &Posting, found: &mut Vec<ConflictKey>) -> Mem<()>
    ensures { OnOk result (found.new.items ≡ found.old.items ++ reverse_keys t.now object.now) }
{
    match object {
        Posting::Uid(n) => {
            let p = t.p.copy(alloc)?;
            Ok(found.push(ConflictKey::RCount { p, o: *n })?)
        }
        Posting::Val(_) => Ok(()),
    }
}

// Adds these keys of some nodes.
fn push_nodes(
    alloc: Global,
    t: &Triple,
    objects: &[Posting],
    found: &mut Vec<ConflictKey>,
) -> Mem<()>
    ensures { OnOk result (found.new.items ≡ found.old.items ++ flat_map (reverse_keys t.now) objects.now) }
{
    for object in objects {
        push_node(alloc, t, object, found)?;
    }
    Ok(())
}

// Adds the keys of the nodes that are counted: the object of a triple, and some others.
fn push_counted(
    alloc: Global,
    def: &PredDef,
    t: &Triple,
    objects: &[Posting],
    found: &mut Vec<ConflictKey>,
) -> Mem<()>
    ensures { OnOk result (found.new.items ≡ found.old.items ++ counted_keys def.now t.now (t.now.o ∷ objects.now)) }
{
    if !def.reverse || !def.count {
        return Ok(());
    }
    push_node(alloc, t, &t.o, found)?;
    push_nodes(alloc, t, objects, found)
}

// The key of the data of a triple.
fn data_key(alloc: Global, def: &PredDef, t: &Triple) -> Mem<ConflictKey>
    ensures { IfOk result (λ key. key ≡ keys_of_data def.now t.now) }
{
    let p = t.p.copy(alloc)?;
    if !def.list {
        return Ok(ConflictKey::Data { p, s: t.s, o: None });
    }
    let o = Some(t.o.copy(alloc)?);
    Ok(ConflictKey::Data { p, s: t.s, o })
}

// Adds the key of the number of a subject's objects, where they are counted.
fn push_count(alloc: Global, def: &PredDef, t: &Triple, found: &mut Vec<ConflictKey>) -> Mem<()>
    ensures { OnOk result (found.new.items ≡ found.old.items ++ keys_of_count def.now t.now) }
{
    if def.count {
        let p = t.p.copy(alloc)?;
        found.push(ConflictKey::Count { p, s: t.s })?;
    }
    Ok(())
}

// Adds the keys of a change of a triple that takes the place of some objects.
pub fn push_keys(
    alloc: Global,
    def: &PredDef,
    t: &Triple,
    objects: &[Posting],
    found: &mut Vec<ConflictKey>,
) -> Mem<()>
    ensures { OnOk result (found.new.items ≡ found.old.items ++ keys_with def.now t.now objects.now) }
{
    found.push(data_key(alloc, def, t)?)?;
    push_object(alloc, def, t, &t.o, found)?;
    push_objects(alloc, def, t, objects, found)?;
    push_count(alloc, def, t, found)?;
    push_counted(alloc, def, t, objects, found)
}
