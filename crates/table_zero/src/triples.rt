// The table of triples, graphs and what changes make of them.
ghost use Rattle.std.specs.Prelude.{◌≡◌};
ghost use Rattle.dg_values.specs.Ascending.{Ascends};
ghost use Rattle.dg_values.specs.Order.{posting_cmp};

use crate::fault::{Answer, Fault};
use crate::ground::{Ground, schema_of, schema_text};
use crate::large::pointed;
use crate::postings::{changes, postings_text, triple, triple_text};
use crate::words::{listed, number, sides, told, truth, words_of};
use crate::{counted, lookups};
use dg_graph::{
    Change, Triple, change_objects, graphs, is_of_subject, is_single, lists_of_graphs, look_ups,
};
use dg_schema::Schema;
use dg_sets::InOrder;
use dg_values::{Mem, OutOfMemory, Posting, Str};
use std::alloc::Global;
use std::cmp::Ordering;

pub(crate) fn answer(
    alloc: Global,
    ground: &mut Option<Ground>,
    command: &str,
    rest: &str,
) -> Answer<String> {
    match command {
        "new" => {
            *ground = Some(Ground::new(alloc)?);
            told(alloc, "made")
        }
        "laws" => {
            graphs();
            lists_of_graphs();
            look_ups();
            told(alloc, "hold")
        }
        "copy" => copied(alloc, rest),
        "order" => ordered(alloc, rest),
        "of" => owned(alloc, rest),
        _ => match ground {
            Some(ground) => asked(alloc, ground, command, rest),
            None => Err(Fault::Unfit),
        },
    }
}

fn copied(alloc: Global, rest: &str) -> Answer<String> {
    let words = words_of(alloc, rest)?;
    let copy = triple(alloc, words.as_slice())?.copy(alloc)?;
    Ok(triple_text(alloc, &copy)?)
}

// How one triple stands to another.
fn ordered(alloc: Global, rest: &str) -> Answer<String> {
    let words = words_of(alloc, rest)?;
    let (one, other) = sides(words.as_slice())?;
    let one = triple(alloc, one)?;
    let other = triple(alloc, other)?;
    match one.compare(&other) {
        Ordering::Less => told(alloc, "less"),
        Ordering::Equal => told(alloc, "equal"),
        Ordering::Greater => told(alloc, "greater"),
    }
}

// Whether a triple is of a subject.
fn owned(alloc: Global, rest: &str) -> Answer<String> {
    let words = words_of(alloc, rest)?;
    let ([s, p], written) = sides(words.as_slice())? else {
        return Err(Fault::Unfit);
    };
    let triple = triple(alloc, written)?;
    truth(alloc, is_of_subject(p, number(s)?, &triple))
}

fn asked(alloc: Global, ground: &mut Ground, command: &str, rest: &str) -> Answer<String> {
    match command {
        "schema" => {
            ground.at.schema = schema_of(alloc, rest)?;
            schema_text(alloc, &ground.at.schema)
        }
        "apply" => {
            let words = words_of(alloc, rest)?;
            let count = ground.apply(alloc, words.as_slice())?;
            Ok(format!(in alloc; "{count} triples")?)
        }
        "large" => pointed(alloc, ground, rest),
        "triples" => Ok(triples_text(alloc, ground.at.graph.triples())?),
        "single" => truth(alloc, is_single(&ground.at.schema, rest)),
        "objects" => objects(alloc, ground, rest),
        "snapshot" => snapshot(alloc, ground, rest),
        "change" => change(alloc, &ground.at.schema, rest),
        _ => lookups::answer(alloc, &ground.at, command, rest),
    }
}

fn triples_text(alloc: Global, triples: &[Triple]) -> Mem<String> {
    let mut texts = Vec::new(alloc);
    for triple in triples {
        texts.push(triple_text(alloc, triple)?)?;
    }
    listed(alloc, texts.as_slice())
}

// A subject's number and a predicate.
pub(crate) fn subject<'a>(words: &[&'a str]) -> Answer<(u64, &'a str)> {
    match *words {
        [s, p] => Ok((number(s)?, p)),
        _ => Err(Fault::Unfit),
    }
}

fn objects(alloc: Global, ground: &Ground, rest: &str) -> Answer<String> {
    let words = words_of(alloc, rest)?;
    let (s, p) = subject(words.as_slice())?;
    let objects = ground.at.graph.objects(alloc, p, s)?;
    Ok(postings_text(alloc, objects.as_slice())?)
}

// The same, through the trait.
fn snapshot(alloc: Global, ground: &Ground, rest: &str) -> Answer<String> {
    let words = words_of(alloc, rest)?;
    let (s, p) = subject(words.as_slice())?;
    let p = Str::from_str(alloc, p)?;
    let objects = counted::objects(alloc, &ground.at, &p, s)?;
    Ok(postings_text(alloc, objects.as_slice())?)
}

// What changes make of no object of a subject.
fn change(alloc: Global, schema: &Schema, rest: &str) -> Answer<String> {
    let words = words_of(alloc, rest)?;
    let (of, written) = sides(words.as_slice())?;
    let (s, p) = subject(of)?;
    let changes = changes(alloc, written)?;
    let objects = changed(alloc, schema, p, s, changes.as_slice())?;
    Ok(postings_text(alloc, objects.as_slice())?)
}

fn changed(
    alloc: Global,
    schema: &Schema,
    p: &str,
    s: u64,
    changes: &[Change],
) -> Mem<Vec<Posting>> {
    let mut objects = Vec::new(alloc);
    for change in changes {
        change_objects(alloc, schema, p, s, &mut objects, change)?;
    }
    Ok(objects)
}
