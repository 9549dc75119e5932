// The table of checked statements, and of offers.
ghost use Rattle.std.specs.Prelude.{◌≡◌};
ghost use Rattle.std.specs.List.{AllByRecursion};
ghost use Rattle.dg_nquad.specs.Plain.{HasNoVariable};

use crate::fault::{Answer, Fault};
use crate::ground::{Ground, MOST, schema_of};
use crate::lawful::lawful_at;
use crate::listing::{keys_text, names_text, parts_text};
use crate::postings::{changes, changes_text};
use crate::words::{halved, number, told, truth, words_of};
use crate::{counted, large};
use dg_edges::{
    EdgeFault, Resolved, are_fitting, changes_as_parts, commits_as_changes, exact_histories,
    mutations, named_triples, offers, preds_of, resolve,
};
use dg_graph::Change;
use dg_nquad::{NquadFault, read_mutation};
use dg_schema::Schema;
use dg_zero::Offer;
use std::alloc::Global;

// The greatest number from which new nodes are numbered here, and the most names of them.
const LAST_FIRST: u64 = 1 << 62;

const MOST_NAMES: usize = 1_000;

pub(crate) fn answer(
    alloc: Global,
    ground: &Option<Ground>,
    command: &str,
    rest: &str,
) -> Answer<String> {
    match command {
        "laws" => {
            mutations();
            offers();
            changes_as_parts();
            commits_as_changes();
            named_triples();
            exact_histories();
            told(alloc, "hold")
        }
        _ => match ground {
            Some(ground) => asked(alloc, ground, command, rest),
            None => Err(Fault::Unfit),
        },
    }
}

fn asked(alloc: Global, ground: &Ground, command: &str, rest: &str) -> Answer<String> {
    match command {
        "resolve" => resolved(alloc, &ground.at.schema, rest),
        "expand" => expanded(alloc, ground, rest),
        "alter" => altered(alloc, ground, rest),
        "offer" => {
            let (start, rest) = halved(rest);
            offered(alloc, ground, number(start)?, rest)
        }
        "large" => enlarged(alloc, ground, rest),
        _ => {
            let words = words_of(alloc, rest)?;
            let changes = changes(alloc, words.as_slice())?;
            of_changes(alloc, ground, command, changes.as_slice())
        }
    }
}

// The calls at a large size.
fn enlarged(alloc: Global, ground: &Ground, rest: &str) -> Answer<String> {
    let (command, rest) = halved(rest);
    match command {
        "offer" => large::offered(alloc, ground, rest),
        "alter" => large::altered(alloc, ground, rest),
        "expand" => large::stated(alloc, ground, rest),
        _ => Err(Fault::Unfit),
    }
}

// What lists gain and lose where definitions are added or replaced.
fn altered(alloc: Global, ground: &Ground, rest: &str) -> Answer<String> {
    let newer = schema_of(alloc, rest)?;
    let at = lawful_at(alloc, ground, &[])?;
    let parts = counted::alter_parts(alloc, &at, &newer)?;
    Ok(parts_text(alloc, parts.as_slice())?)
}

fn of_changes(alloc: Global, ground: &Ground, command: &str, changes: &[Change]) -> Answer<String> {
    match command {
        "fitting" => truth(alloc, are_fitting(&ground.at.schema, changes)),
        "preds" => {
            let preds = preds_of(alloc, changes)?;
            Ok(names_text(alloc, preds.as_slice())?)
        }
        "parts" => {
            let at = lawful_at(alloc, ground, changes)?;
            let (parts, _) = counted::parts_and_keys(alloc, &at, changes)?;
            Ok(parts_text(alloc, parts.as_slice())?)
        }
        "keys" => {
            let at = lawful_at(alloc, ground, changes)?;
            let (_, keys) = counted::parts_and_keys(alloc, &at, changes)?;
            Ok(keys_text(alloc, keys.as_slice())?)
        }
        _ => Err(Fault::Unfit),
    }
}

fn offered(alloc: Global, ground: &Ground, start: u64, rest: &str) -> Answer<String> {
    let words = words_of(alloc, rest)?;
    let changes = changes(alloc, words.as_slice())?;
    let at = lawful_at(alloc, ground, changes.as_slice())?;
    let offer = counted::offer(alloc, &at, start, changes.as_slice())?;
    offer_text(alloc, &offer)
}

// What an offer says.
pub(crate) fn offer_text(alloc: Global, offer: &Offer) -> Answer<String> {
    let preds = names_text(alloc, offer.preds.as_slice())?;
    let keys = keys_text(alloc, offer.keys.as_slice())?;
    let changes = changes_text(alloc, offer.changes.as_slice())?;
    let parts = parts_text(alloc, offer.parts.as_slice())?;
    let start = offer.start;
    Ok(format!(in alloc; "{start}; {preds}; {keys}; {changes}; {parts}")?)
}

// The statements of a text, checked.
pub(crate) fn checked(
    alloc: Global,
    schema: &Schema,
    text: &str,
) -> Answer<Result<Resolved, EdgeFault>> {
    if text.len() > MOST {
        return Err(Fault::Unfit);
    }
    match read_mutation(alloc, text) {
        Ok(mutation) => Ok(resolve(alloc, schema, mutation)),
        Err(NquadFault::OutOfMemory) => Err(Fault::OutOfMemory),
        Err(NquadFault::BadToken { .. } | NquadFault::BadSyntax { .. }) => Err(Fault::Unfit),
    }
}

// Why statements are refused.
pub(crate) fn fault_text(alloc: Global, fault: &EdgeFault) -> Answer<String> {
    match fault {
        EdgeFault::OutOfMemory => Err(Fault::OutOfMemory),
        EdgeFault::NoPredicate { pred } => Ok(format!(in alloc; "no predicate {pred}")?),
        EdgeFault::WrongObject { pred } => Ok(format!(in alloc; "wrong object {pred}")?),
        EdgeFault::BadLiteral { pred } => Ok(format!(in alloc; "bad literal {pred}")?),
    }
}

// The new names, the greatest node that is named by its number, and whether there is no statement.
fn resolved(alloc: Global, schema: &Schema, text: &str) -> Answer<String> {
    match checked(alloc, schema, text)? {
        Err(fault) => fault_text(alloc, &fault),
        Ok(r) => {
            let names = names_text(alloc, r.new_names(alloc)?.as_slice())?;
            let (top, empty) = (r.top_uid(), r.is_empty());
            Ok(format!(in alloc; "new {names}; top {top}; empty {empty}")?)
        }
    }
}

// The changes of the statements of a text, with new nodes from a number on.
fn expanded(alloc: Global, ground: &Ground, rest: &str) -> Answer<String> {
    let (first, text) = halved(rest);
    match checked(alloc, &ground.at.schema, text)? {
        Err(fault) => fault_text(alloc, &fault),
        Ok(r) => numbered(alloc, ground, &r, number(first)?),
    }
}

fn numbered(alloc: Global, ground: &Ground, r: &Resolved, first: u64) -> Answer<String> {
    if first > LAST_FIRST || r.new_names(alloc)?.len() > MOST_NAMES {
        return Err(Fault::Unfit);
    }
    let changes = counted::expanded(alloc, &ground.at, r, first)?;
    Ok(changes_text(alloc, changes.as_slice())?)
}
