// Rows of vectors that ascend, which go on from row to row.
use crate::fault::Fault;
use crate::fields::{listed, numbers, plain, quoted, word, yes_or_no};
use crate::objects::{posting_of, posting_text};
use dg_sets::{InOrder, ascend, in_order, is_there, place_of, put, take_out};
use dg_values::{Posting, Str};
use std::alloc::Global;

// The sets that rows change.
#[derive(Drop)]
pub(crate) struct Kept {
    names: Vec<Str>,
    objects: Vec<Posting>,
}

impl Kept {
    pub(crate) fn new(alloc: Global) -> Self {
        Kept {
            names: Vec::new(alloc),
            objects: Vec::new(alloc),
        }
    }
}

// `set CALL | ITEM`: a call on the set of texts or on that of postings, by what the item is.
// `set new` empties both; `set ascend | NUMBERS` and `set in_order | POSTING | ..` don't change them.
pub(crate) fn set_row(
    alloc: Global,
    kept: &mut Kept,
    call: &str,
    fields: &[&str],
) -> Result<String, Fault> {
    match call {
        "new" => {
            *kept = Kept::new(alloc);
            word(alloc, "none")
        }
        "ascend" => ascending(alloc, fields),
        "in_order" => sorted(alloc, fields),
        _ => changed(alloc, kept, call, fields),
    }
}

// What a call says of an item, and what is in the set after it.
fn changed(alloc: Global, kept: &mut Kept, call: &str, fields: &[&str]) -> Result<String, Fault> {
    let [field] = *fields else {
        return Err(Fault::Unreadable);
    };
    if field.starts_with('"') {
        let name = Str::from_string(plain(alloc, field)?);
        let said = said_of(alloc, &mut kept.names, call, name)?;
        let names = name_texts(alloc, kept.names.as_slice())?;
        Ok(format!(in alloc; "{said}; the set: {names}")?)
    } else {
        let said = said_of(alloc, &mut kept.objects, call, posting_of(alloc, field)?)?;
        let objects = object_texts(alloc, kept.objects.as_slice())?;
        Ok(format!(in alloc; "{said}; the set: {objects}")?)
    }
}

// A call on items that ascend, and one more.
fn said_of<T: InOrder + Drop>(
    alloc: Global,
    items: &mut Vec<T>,
    call: &str,
    item: T,
) -> Result<String, Fault> {
    if !ascend(items.as_slice()) {
        return Err(Fault::Unreadable);
    }
    match call {
        "put" => {
            put(items, item)?;
            word(alloc, "done")
        }
        "take_out" => {
            take_out(items, &item);
            word(alloc, "done")
        }
        "place_of" => place_text(alloc, place_of(items.as_slice(), &item)),
        "is_there" => yes_or_no(alloc, is_there(items.as_slice(), &item)),
        _ => Err(Fault::Unreadable),
    }
}

fn place_text(alloc: Global, place: Result<usize, usize>) -> Result<String, Fault> {
    match place {
        Ok(place) => Ok(format!(in alloc; "stands at {place}")?),
        Err(place) => Ok(format!(in alloc; "belongs at {place}")?),
    }
}

fn name_texts(alloc: Global, names: &[Str]) -> Result<String, Fault> {
    let mut texts = Vec::new(alloc);
    for name in names {
        texts.push(quoted(alloc, name.as_str())?)?;
    }
    listed(alloc, texts.as_slice())
}

fn object_texts(alloc: Global, objects: &[Posting]) -> Result<String, Fault> {
    let mut texts = Vec::new(alloc);
    for object in objects {
        texts.push(posting_text(alloc, object)?)?;
    }
    listed(alloc, texts.as_slice())
}

fn ascending(alloc: Global, fields: &[&str]) -> Result<String, Fault> {
    let [field] = *fields else {
        return Err(Fault::Unreadable);
    };
    yes_or_no(alloc, ascend(numbers(alloc, field)?.as_slice()))
}

fn sorted(alloc: Global, fields: &[&str]) -> Result<String, Fault> {
    let mut objects = Vec::new(alloc);
    for field in fields {
        objects.push(posting_of(alloc, field)?)?;
    }
    object_texts(alloc, in_order(objects).as_slice())
}
