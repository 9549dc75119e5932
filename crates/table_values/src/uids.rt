// Rows of sets of nodes.
use crate::fault::Fault;
use crate::fields::{behind, joined, number, numbers, word, yes_or_no};
use dg_uids::Uids;
use std::alloc::Global;

// `uids CALL | NUMBERS | ..`: a call on the set of these nodes.
pub(crate) fn uids_row(alloc: Global, call: &str, fields: &[&str]) -> Result<String, Fault> {
    match call {
        "from_sorted" => made(alloc, fields),
        "has" => has(alloc, fields),
        "get" => at(alloc, fields),
        "page" => paged(alloc, fields),
        _ => joint(alloc, call, fields),
    }
}

// The set of nodes that have to ascend.
fn set_of(alloc: Global, field: &str) -> Result<Uids, Fault> {
    Uids::from_sorted(numbers(alloc, field)?).ok_or(Fault::Unreadable)
}

// How many nodes there are, and which.
fn set_text(alloc: Global, uids: &Uids) -> Result<String, Fault> {
    let items = joined(alloc, uids.as_slice())?;
    Ok(format!(in alloc; "{}: {items}", uids.len())?)
}

fn made(alloc: Global, fields: &[&str]) -> Result<String, Fault> {
    let [items] = *fields else {
        return Err(Fault::Unreadable);
    };
    match Uids::from_sorted(numbers(alloc, items)?) {
        Some(uids) => set_text(alloc, &uids),
        None => word(alloc, "refused"),
    }
}

// Whether a node is in the set.
fn has(alloc: Global, fields: &[&str]) -> Result<String, Fault> {
    let [items, uid] = *fields else {
        return Err(Fault::Unreadable);
    };
    yes_or_no(alloc, set_of(alloc, items)?.has(number(uid)?))
}

// The node at a place.
fn at(alloc: Global, fields: &[&str]) -> Result<String, Fault> {
    let [items, place] = *fields else {
        return Err(Fault::Unreadable);
    };
    match set_of(alloc, items)?.get(number(place)? as usize) {
        Some(uid) => Ok(uid.to_string(alloc)?),
        None => word(alloc, "none"),
    }
}

// What two sets make.
fn joint(alloc: Global, call: &str, fields: &[&str]) -> Result<String, Fault> {
    let [items, others] = *fields else {
        return Err(Fault::Unreadable);
    };
    let uids = set_of(alloc, items)?;
    let others = set_of(alloc, others)?;
    let made = match call {
        "and" => uids.and(alloc, &others)?,
        "or" => uids.or(alloc, &others)?,
        "without" => uids.without(alloc, &others)?,
        _ => return Err(Fault::Unreadable),
    };
    set_text(alloc, &made)
}

// `uids page | NUMBERS | after N | offset N | first N`, or `first all`.
fn paged(alloc: Global, fields: &[&str]) -> Result<String, Fault> {
    let [items, after, offset, first] = *fields else {
        return Err(Fault::Unreadable);
    };
    let after = number(behind("after ", after)?)?;
    let offset = number(behind("offset ", offset)?)?;
    let first = first_of(behind("first ", first)?)?;
    let page = set_of(alloc, items)?.page(alloc, after, offset, first)?;
    set_text(alloc, &page)
}

fn first_of(field: &str) -> Result<Option<i64>, Fault> {
    if field == "all" {
        return Ok(None);
    }
    Ok(Some(field.parse::<i64>().ok().ok_or(Fault::Unreadable)?))
}
