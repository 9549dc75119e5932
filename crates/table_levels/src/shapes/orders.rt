// Rows of lists of nodes: their order and their pages.
use crate::words::value_of;
use dg_check::Variable;
use dg_parse::QArg;
use dg_shape::{Key, order, page};
use dg_uids::Uids;
use dg_values::{List, Mem, Value};
use std::alloc::Global;

// The nodes of a field, in the order of the row.
fn nodes_in(alloc: Global, field: &str) -> Mem<Option<Vec<u64>>> {
    let mut nodes = Vec::new(alloc);
    for word in field.split_whitespace() {
        match word.parse::<u64>() {
            Ok(node) => nodes.push(node)?,
            Err(_) => return Ok(None),
        }
    }
    Ok(Some(nodes))
}

// Numbers with a blank between any two.
fn joined(alloc: Global, nodes: &[u64]) -> Mem<String> {
    let mut text = String::new(alloc);
    for node in nodes {
        if !text.is_empty() {
            text.push_str(" ")?;
        }
        text.push_str(node.to_string(alloc)?.as_str())?;
    }
    Ok(text)
}

// The value of a word, as `int:5`.
fn value_in(alloc: Global, word: &str) -> Mem<Option<Value>> {
    match word.split_once(':') {
        Some((kind, text)) => value_of(alloc, kind, text),
        None => Ok(None),
    }
}

// The node and the value of a word, as `7=int:5`.
fn pair_of(alloc: Global, word: &str) -> Mem<Option<(u64, Value)>> {
    let Some((node, value)) = word.split_once('=') else {
        return Ok(None);
    };
    match node.parse::<u64>() {
        Ok(node) => Ok(value_in(alloc, value)?.map(|value| (node, value))),
        Err(_) => Ok(None),
    }
}

// The values that stand beside nodes, which have to ascend in the row.
fn variable_of(alloc: Global, words: &str) -> Mem<Option<Variable>> {
    let mut nodes = Vec::new(alloc);
    let mut values = List::new(alloc);
    for word in words.split_whitespace() {
        match pair_of(alloc, word)? {
            Some((node, value)) => {
                nodes.push(node)?;
                values.push(value)?;
            }
            None => return Ok(None),
        }
    }
    Ok(Uids::from_sorted(nodes).map(|nodes| Variable { nodes, values }))
}

// Whether the greatest comes first, and the values.
#[derive(Drop)]
struct Column {
    down: bool,
    values: Variable,
}

fn column_of(alloc: Global, field: &str) -> Mem<Option<Column>> {
    let (word, said) = field.split_once(' ').unwrap_or((field, ""));
    let down = match word {
        "up" => false,
        "down" => true,
        _ => return Ok(None),
    };
    Ok(variable_of(alloc, said)?.map(|values| Column { down, values }))
}

fn columns_of(alloc: Global, fields: &[&str]) -> Mem<Option<Vec<Column>>> {
    let mut columns = Vec::new(alloc);
    for field in fields {
        match column_of(alloc, field)? {
            Some(column) => columns.push(column)?,
            None => return Ok(None),
        }
    }
    Ok(Some(columns))
}

fn keys_of(alloc: Global, columns: &[Column]) -> Mem<Vec<Key<'_>>> {
    let mut keys = Vec::new(alloc);
    for column in columns {
        let key = Key {
            down: column.down,
            values: &column.values,
        };
        keys.push(key)?;
    }
    Ok(keys)
}

/// `NODES, KEY, ..`: the nodes in the order of the keys, of which each is `up` or `down` and the nodes' values.
pub(crate) fn ordered(alloc: Global, fields: &str) -> Mem<Option<String>> {
    let parts: Vec<&str> = fields.split('\t').collect(alloc)?;
    let Some((nodes, rest)) = parts.as_slice().split_first() else {
        return Ok(None);
    };
    let Some(nodes) = nodes_in(alloc, nodes)? else {
        return Ok(None);
    };
    let Some(columns) = columns_of(alloc, rest)? else {
        return Ok(None);
    };
    let keys = keys_of(alloc, columns.as_slice())?;
    let made = order(alloc, &Uids::gathered(nodes), keys.as_slice())?;
    Ok(Some(joined(alloc, made.as_slice())?))
}

// Each of so many nodes with a value that repeats after seven.
fn sevenths(alloc: Global, count: u64) -> Mem<Variable> {
    let mut nodes = Vec::new(alloc);
    let mut values = List::new(alloc);
    for node in 0..count {
        nodes.push(node)?;
        values.push(Value::Int((node % 7) as i64))?;
    }
    Ok(Variable {
        nodes: Uids::gathered(nodes),
        values,
    })
}

/// `COUNT`: the first and the last of so many nodes, put in order downwards by their remainders by seven.
pub(crate) fn many(alloc: Global, fields: &str) -> Mem<Option<String>> {
    let Ok(count) = fields.parse::<u64>() else {
        return Ok(None);
    };
    let values = sevenths(alloc, count.min(1_000_000))?;
    let keys = [Key {
        down: true,
        values: &values,
    }];
    let made = order(alloc, &values.nodes, &keys)?;
    let first = made.as_slice().first().copied().unwrap_or(0);
    let last = made.as_slice().last().copied().unwrap_or(0);
    Ok(Some(format!(in alloc; "{first} {last}")?))
}

// An argument, as `first:2`.
fn argument_of(word: &str) -> Option<QArg> {
    let (name, said) = word.split_once(':')?;
    match name {
        "first" => said.parse::<i64>().ok().map(QArg::First),
        "offset" => said.parse::<i64>().ok().map(QArg::Offset),
        "after" => said.parse::<u64>().ok().map(QArg::After),
        _ => None,
    }
}

fn arguments_of(alloc: Global, field: &str) -> Mem<Option<Vec<QArg>>> {
    let mut arguments = Vec::new(alloc);
    for word in field.split_whitespace() {
        match argument_of(word) {
            Some(argument) => arguments.push(argument)?,
            None => return Ok(None),
        }
    }
    Ok(Some(arguments))
}

/// `NODES, ARGUMENTS`: the page of the nodes, in the order of the row.
pub(crate) fn paged(alloc: Global, fields: &str) -> Mem<Option<String>> {
    let (nodes, said) = fields.split_once('\t').unwrap_or((fields, ""));
    let Some(nodes) = nodes_in(alloc, nodes)? else {
        return Ok(None);
    };
    let Some(arguments) = arguments_of(alloc, said)? else {
        return Ok(None);
    };
    let made = page(nodes, arguments.as_slice());
    Ok(Some(joined(alloc, made.as_slice())?))
}
