// The statements for which those of an upsert block stand.
ghost use Rattle.std.specs.Prelude.{◌≡◌, [], ◌∷◌, ◌++◌, IfOk, OnOk, IsTrue, map, flat_map, option_copied, option_to_list};
ghost use Rattle.dg_nquad.specs.declared.mutation.Node.TheVariants as nodes;
ghost use Rattle.dg_nquad.specs.declared.mutation.Object.TheVariants as objects;
ghost use Rattle.dg_upsert.specs.Conditions.{nodes_named};
ghost use Rattle.dg_upsert.specs.Meaning.{nodes_for, ends_meant, value_at_subject, literal_of, with_objects, of_subject, statements_meant, mutation_means, mutations_mean};

use crate::conditions::is_taken;
use crate::copying::{copy_node, copy_object};
use crate::known::{Known, common_nodes, value_named};
use crate::nodes::{ends_meant, nodes_meant, stands_for_none};
use dg_nquad::{Node, Object, Statement};
use dg_parse::UMut;
use dg_values::{Mem, OutOfMemory, Str, Value, write_value};
use std::alloc::Global;

// Adds a statement with this subject and object in the place of its own.
fn add(
    alloc: Global,
    statement: &Statement,
    subject: &Node,
    object: Object,
    out: &mut Vec<Statement>,
) -> Mem<()>
    ensures { OnOk result (out.new.items ≡ out.old.items ++ with_objects statement.now.delete statement.now.p subject.now (object ∷ [])) }
{
    let s = copy_node(alloc, subject)?;
    let p = statement.p.copy(alloc)?;
    out.push(Statement {
        delete: statement.delete,
        s,
        p,
        o: object,
    })?;
    Ok(())
}

// Adds one with each of these nodes as the object.
fn add_ends(
    alloc: Global,
    statement: &Statement,
    subject: &Node,
    ends: &[Node],
    out: &mut Vec<Statement>,
) -> Mem<()>
    ensures { OnOk result (out.new.items ≡ out.old.items ++ with_objects statement.now.delete statement.now.p subject.now (map objects.Node ends.now)) }
{
    for end in ends {
        let object = Object::Node(copy_node(alloc, end)?);
        add(alloc, statement, subject, object, out)?;
    }
    Ok(())
}

// The value of a variable at a subject, if it has one.
fn value_at_subject<'a>(known: &'a Known<'_>, variable: &str, subject: &Node) -> Option<&'a Value>
    ensures { option_copied result ≡ value_at_subject known.now.names known.now.vars.now.variables variable.now subject.now }
{
    match subject {
        Node::Uid(uid) => value_named(known, variable, *uid),
        Node::Blank(_) | Node::Var(_) => None,
    }
}

// The literal of a value's text.
fn literal_of(alloc: Global, value: &Value) -> Mem<Object>
    ensures { IfOk result (λ o. o ≡ literal_of value.now) }
{
    let mut text = Str::from_str(alloc, "")?;
    write_value(alloc, &mut text, value)?;
    Ok(Object::Literal { text, tag: None })
}

// Adds one with the text of the value that a variable has at the subject, if it has one.
fn add_value(
    alloc: Global,
    known: &Known<'_>,
    statement: &Statement,
    subject: &Node,
    variable: &str,
    out: &mut Vec<Statement>,
) -> Mem<()>
    ensures { OnOk result (out.new.items ≡ out.old.items ++ with_objects statement.now.delete statement.now.p subject.now (map literal_of (option_to_list (value_at_subject known.now.names known.now.vars.now.variables variable.now subject.now)))) }
{
    match value_at_subject(known, variable, subject) {
        Some(value) => add(alloc, statement, subject, literal_of(alloc, value)?, out),
        None => Ok(()),
    }
}

// Adds the statements of one subject. `ends` has the nodes for which the object stands.
fn add_of_subject(
    alloc: Global,
    known: &Known<'_>,
    statement: &Statement,
    ends: &[Node],
    subject: &Node,
    out: &mut Vec<Statement>,
) -> Mem<()>
    requires { ends.now ≡ ends_meant known.now.names known.now.vars.now.variables statement.now.delete statement.now.o }
    ensures { OnOk result (out.new.items ≡ out.old.items ++ of_subject known.now.names known.now.vars.now.variables statement.now.delete statement.now.p statement.now.o subject.now) }
{
    match &statement.o {
        Object::Node(_) => add_ends(alloc, statement, subject, ends, out),
        Object::Val(x) => add_value(alloc, known, statement, subject, x.as_str(), out),
        Object::Literal { .. } | Object::Star => {
            let object = copy_object(alloc, &statement.o)?;
            add(alloc, statement, subject, object, out)
        }
    }
}

// Adds the statements of these subjects.
fn add_of_subjects(
    alloc: Global,
    known: &Known<'_>,
    statement: &Statement,
    ends: &[Node],
    subjects: &[Node],
    out: &mut Vec<Statement>,
) -> Mem<()>
    requires { ends.now ≡ ends_meant known.now.names known.now.vars.now.variables statement.now.delete statement.now.o }
    ensures { OnOk result (out.new.items ≡ out.old.items ++ flat_map (of_subject known.now.names known.now.vars.now.variables statement.now.delete statement.now.p statement.now.o) subjects.now) }
{
    for subject in subjects {
        add_of_subject(alloc, known, statement, ends, subject, out)?;
    }
    Ok(())
}

// How many objects a subject has at most. `ends` is the number of nodes for which the object stands.
fn objects_at_most(object: &Object, ends: usize) -> usize {
    match object {
        Object::Node(_) => ends,
        Object::Literal { .. } | Object::Star | Object::Val(_) => 1,
    }
}

// Makes room for all statements of these subjects at once. A product for which there is no memory is so refused before the
// first of its statements is made, and not when memory is full of them.
fn make_room(out: &mut Vec<Statement>, subjects: usize, objects: usize) -> Mem<()>
    ensures { OnOk result (out.new.items ≡ out.old.items) }
{
    Ok(out.reserve(subjects.saturating_mul(objects))?)
}

// Adds every combination of a subject and an object for which those of a statement stand.
fn add_combinations(
    alloc: Global,
    known: &Known<'_>,
    statement: &Statement,
    out: &mut Vec<Statement>,
) -> Mem<()>
    ensures { OnOk result (out.new.items ≡ out.old.items ++ statements_meant known.now.names known.now.vars.now.variables statement.now) }
{
    let subjects = nodes_meant(alloc, known, statement.delete, &statement.s)?;
    let ends = ends_meant(alloc, known, statement.delete, &statement.o)?;
    let objects = objects_at_most(&statement.o, ends.len());
    make_room(out, subjects.len(), objects)?;
    add_of_subjects(alloc, known, statement, &ends, &subjects, out)
}

// Adds one at each of these nodes at which a variable has a value.
fn add_values(
    alloc: Global,
    known: &Known<'_>,
    statement: &Statement,
    subjects: &[u64],
    variable: &str,
    out: &mut Vec<Statement>,
) -> Mem<()>
    ensures { OnOk result (out.new.items ≡ out.old.items ++ flat_map (λ uid. of_subject known.now.names known.now.vars.now.variables statement.now.delete statement.now.p (objects.Val variable.now) (nodes.Uid uid)) subjects.now) }
{
    for uid in subjects {
        add_value(alloc, known, statement, &Node::Uid(*uid), variable, out)?;
    }
    Ok(())
}

// Adds one at each node of a variable at which another has a value. It goes over the nodes of both alone.
fn add_values_in(
    alloc: Global,
    known: &Known<'_>,
    statement: &Statement,
    subjects: &Str,
    values: &Str,
    out: &mut Vec<Statement>,
) -> Mem<()>
    ensures { OnOk result (out.new.items ≡ out.old.items ++ flat_map (of_subject known.now.names known.now.vars.now.variables statement.now.delete statement.now.p (objects.Val values.now)) (nodes_for statement.now.delete subjects.now (nodes_named known.now.names known.now.vars.now.variables subjects.now))) }
{
    let common = common_nodes(alloc, known, subjects.as_str(), values.as_str())?;
    make_room(out, common.len(), 1)?;
    add_values(
        alloc,
        known,
        statement,
        common.as_slice(),
        values.as_str(),
        out,
    )
}

// Whether a statement stands for none, as its subject or its object stands for no node.
fn gives_none(known: &Known<'_>, statement: &Statement) -> bool
    ensures { IsTrue result → statements_meant known.now.names known.now.vars.now.variables statement.now ≡ [] }
{
    match &statement.o {
        Object::Node(end) if stands_for_none(known, statement.delete, end) => true,
        _ => stands_for_none(known, statement.delete, &statement.s),
    }
}

// Adds the statements for which one stands. Where it stands for none, no node of either side is gone over.
fn add_meant(
    alloc: Global,
    known: &Known<'_>,
    statement: &Statement,
    out: &mut Vec<Statement>,
) -> Mem<()>
    ensures { OnOk result (out.new.items ≡ out.old.items ++ statements_meant known.now.names known.now.vars.now.variables statement.now) }
{
    if gives_none(known, statement) {
        return Ok(());
    }
    match (&statement.s, &statement.o) {
        (Node::Var(subjects), Object::Val(values)) => {
            add_values_in(alloc, known, statement, subjects, values, out)
        }
        _ => add_combinations(alloc, known, statement, out),
    }
}

// Adds the statements for which these stand.
fn add_all_meant(
    alloc: Global,
    known: &Known<'_>,
    statements: &[Statement],
    out: &mut Vec<Statement>,
) -> Mem<()>
    ensures { OnOk result (out.new.items ≡ out.old.items ++ flat_map (statements_meant known.now.names known.now.vars.now.variables) statements.now) }
{
    for statement in statements {
        add_meant(alloc, known, statement, out)?;
    }
    Ok(())
}

// Adds the statements for which a mutation stands.
fn add_mutation(
    alloc: Global,
    known: &Known<'_>,
    mutation: &UMut,
    out: &mut Vec<Statement>,
) -> Mem<()>
    ensures { OnOk result (out.new.items ≡ out.old.items ++ mutation_means known.now.names known.now.vars.now.variables mutation.now) }
{
    if is_taken(known, &mutation.cond) {
        add_all_meant(alloc, known, mutation.mutation.statements.as_slice(), out)
    } else {
        Ok(())
    }
}

/// The statements for which mutations stand, in the order of the text.
pub fn mutations_mean(alloc: Global, known: &Known<'_>, mutations: &[UMut]) -> Mem<Vec<Statement>>
    ensures { IfOk result (λ all. all.items ≡ mutations_mean known.now.names known.now.vars.now.variables mutations.now) }
{
    let mut all = Vec::new(alloc);
    for mutation in mutations {
        add_mutation(alloc, known, mutation, &mut all)?;
    }
    Ok(all)
}
