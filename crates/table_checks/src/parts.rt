// The parts of plans: behind the names of variables, for each block its root, its order keys, its filters and its fields.
ghost use Rattle.std.specs.Prelude.{◌≤◌, length};

use crate::answers::fault_text;
use crate::plans::add_values;
use dg_check::{
    By, Field, Filter, Func, Item, Node, Of, OrderKey, Part, Parts, Plan, RegexPatterns, check,
};
use dg_parse::{CmpOp, QEdge, parse};
use dg_schema::Schema;
use dg_values::{Mem, OutOfMemory};
use std::alloc::Global;
use std::fmt::Write;

// The parts of a query's plan, or what is wrong with it.
pub(crate) fn parts(alloc: Global, schema: &Schema, text: &str) -> Mem<Option<String>>
    requires { length text.now ≤ 1048576 }
{
    match parse(alloc, text) {
        Ok(query) => {
            let mut maker = RegexPatterns::new(alloc);
            match check(alloc, query, schema, &mut maker) {
                Ok(plan) => Ok(Some(parts_text(alloc, &plan)?)),
                Err(fault) => Ok(Some(fault_text(alloc, &fault)?)),
            }
        }
        Err(fault) => Ok(Some(fault.to_string(alloc)?)),
    }
}

// The names of variables, and the parts of blocks.
fn parts_text(alloc: Global, plan: &Plan) -> Mem<String> {
    let mut out = String::from_str(alloc, "ok")?;
    for name in plan.vars.as_slice() {
        write!(out, " {name}")?;
    }
    for block in plan.parts.as_slice() {
        add_block(alloc, &mut out, block)?;
    }
    Ok(out)
}

// Adds the parts of a block, a `;` between any two.
fn add_block(alloc: Global, out: &mut String, block: &Parts) -> Mem<()> {
    add_var(out, &block.var)?;
    write!(out, " <")?;
    add_root(alloc, out, &block.root)?;
    write!(out, ";")?;
    add_orders(out, block.orders.as_slice())?;
    write!(out, ";")?;
    add_filters(alloc, out, block.filters.as_slice())?;
    write!(out, ";")?;
    add_fields(alloc, out, block.fields.as_slice())?;
    Ok(write!(out, ">")?)
}

// Adds the place of the variable that is defined, where one is.
fn add_var(out: &mut String, var: &Option<usize>) -> Mem<()> {
    match var {
        None => Ok(()),
        Some(place) => Ok(write!(out, " ${place} =")?),
    }
}

// Adds the function of a root, where there is one.
fn add_root(alloc: Global, out: &mut String, root: &Option<Func>) -> Mem<()> {
    match root {
        None => Ok(write!(out, "-")?),
        Some(func) => add_func(alloc, out, func),
    }
}

// Adds order keys, with `+` for the least first and `-` for the greatest.
fn add_orders(out: &mut String, orders: &[OrderKey]) -> Mem<()> {
    for key in orders {
        match key {
            OrderKey::Asc(by) => add_by(out, '+', by)?,
            OrderKey::Desc(by) => add_by(out, '-', by)?,
        }
    }
    Ok(())
}

// Adds what a list is ordered by, behind a sign.
fn add_by(out: &mut String, sign: char, by: &By) -> Mem<()> {
    match by {
        By::Pred(pred) => Ok(write!(out, " {sign}{pred}")?),
        By::Val(place) => Ok(write!(out, " {sign}${place}")?),
    }
}

// Adds filters.
#[cycle(filter)]
fn add_filters(alloc: Global, out: &mut String, filters: &[Filter]) -> Mem<()> {
    for filter in filters {
        let nots = filter.nots;
        write!(out, " {nots}")?;
        add_part(alloc, out, &filter.part)?;
    }
    Ok(())
}

// Adds what `not` stands before.
#[cycle(filter)]
fn add_part(alloc: Global, out: &mut String, part: &Part) -> Mem<()> {
    match part {
        Part::Or(parts) => {
            write!(out, "or[")?;
            add_filters(alloc, out, parts.as_slice())?;
            Ok(write!(out, " ]")?)
        }
        Part::And(parts) => {
            write!(out, "and[")?;
            add_filters(alloc, out, parts.as_slice())?;
            Ok(write!(out, " ]")?)
        }
        Part::Func(func) => {
            write!(out, "(")?;
            add_func(alloc, out, func)?;
            Ok(write!(out, ")")?)
        }
    }
}

// Adds fields.
#[cycle(field)]
fn add_fields(alloc: Global, out: &mut String, fields: &[Field]) -> Mem<()> {
    for field in fields {
        add_var(out, &field.var)?;
        add_item(alloc, out, &field.item)?;
    }
    Ok(())
}

// Adds what is kept of an item: `.` where nothing is, the place of a variable, or the parts of an edge.
#[cycle(field)]
fn add_item(alloc: Global, out: &mut String, item: &Item) -> Mem<()> {
    match item {
        Item::Plain => Ok(write!(out, " .")?),
        Item::Val(place) => Ok(write!(out, " ${place}")?),
        Item::Edge {
            orders,
            filters,
            fields,
        } => {
            write!(out, " {{")?;
            add_orders(out, orders.as_slice())?;
            write!(out, ";")?;
            add_filters(alloc, out, filters.as_slice())?;
            write!(out, ";")?;
            add_fields(alloc, out, fields.as_slice())?;
            Ok(write!(out, " }}")?)
        }
    }
}

// Adds a function.
fn add_func(alloc: Global, out: &mut String, func: &Func) -> Mem<()> {
    match func {
        Func::Uid(uids) => {
            write!(out, "uid")?;
            add_nodes(out, uids.as_slice())
        }
        Func::Cmp {
            op,
            of,
            kind,
            values,
        } => {
            let word = op_word(*op);
            write!(out, "{word} ")?;
            add_of(out, of)?;
            add_values(alloc, out, *kind, values.as_slice())
        }
        Func::Between { of, kind, values } => {
            write!(out, "between ")?;
            add_of(out, of)?;
            add_values(alloc, out, *kind, values.as_slice())
        }
        Func::Has(edge) => {
            write!(out, "has ")?;
            add_edge(out, edge)
        }
        Func::Terms { all, pred, text } => {
            let word = if *all { "all" } else { "any" };
            Ok(write!(out, "{word} {pred} '{text}'")?)
        }
        Func::Regexp { pred, .. } => Ok(write!(out, "regexp {pred}")?),
        Func::UidIn { edge, uids } => {
            write!(out, "uid_in ")?;
            add_edge(out, edge)?;
            add_nodes(out, uids.as_slice())
        }
    }
}

// Adds nodes, and variables by their places.
fn add_nodes(out: &mut String, nodes: &[Node]) -> Mem<()> {
    for node in nodes {
        match node {
            Node::Uid(uid) => write!(out, " {uid}")?,
            Node::Var(place) => write!(out, " ${place}")?,
        }
    }
    Ok(())
}

// Adds what is compared.
fn add_of(out: &mut String, of: &Of) -> Mem<()> {
    match of {
        Of::Pred(pred) => Ok(write!(out, "{pred}")?),
        Of::Count(edge) => {
            write!(out, "count ")?;
            add_edge(out, edge)
        }
        Of::Val(place) => Ok(write!(out, "${place}")?),
    }
}

// Adds an edge.
fn add_edge(out: &mut String, edge: &QEdge) -> Mem<()> {
    let sign = if edge.back { "~" } else { "" };
    let pred = edge.pred.as_str();
    Ok(write!(out, "{sign}{pred}")?)
}

// The word of a comparison.
fn op_word(op: CmpOp) -> &'static str {
    match op {
        CmpOp::Eq => "eq",
        CmpOp::Le => "le",
        CmpOp::Lt => "lt",
        CmpOp::Ge => "ge",
        CmpOp::Gt => "gt",
    }
}
