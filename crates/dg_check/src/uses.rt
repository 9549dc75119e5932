// The uses of variables, in the order of the text.
ghost use Rattle.std.specs.Prelude.{◌≡◌, ◌++◌, [], ◌∷◌, IfOk, OnOk, flat_map};
ghost use Rattle.dg_check.specs.Places.{place_met, places_met};
ghost use Rattle.dg_check.specs.Variables.{uses_met, uses_of_named, uses_of_part, uses_of_func, uses_of_order, uses_of_arg, uses_at, uses_in, uses_of_condition, uses_of_cond_part, uses_of_any_condition, uses_of_node, uses_of_object, uses_of_statement, uses_of_mutation, uses_of_mutations};

use crate::places::Place;
use dg_nquad::{Node, Object, Statement};
use dg_parse::{QArg, QFunc, QOf, QOrder, UCond, UMut, UPart, UidArg};
use dg_values::{Mem, OutOfMemory, Str};
use std::alloc::Global;

/// A variable that is used.
#[derive(Clone, Copy)]
pub struct Use<'a> {
    /// Its name.
    pub name: &'a str,
    /// Whether its values are used, or its nodes alone.
    pub values: bool,
}

// Adds the use of a variable.
fn add<'a>(out: &mut Vec<Use<'a>>, values: bool, name: &'a Str) -> Mem<()>
    ensures { OnOk result (uses_met out.new.items ≡ uses_met out.old.items ++ record { name = name.now; values = values } ∷ []) }
{
    let name = name.as_str();
    Ok(out.push(Use { name, values })?)
}

// Adds `x`, where it stands among nodes.
fn add_named<'a>(out: &mut Vec<Use<'a>>, named: &'a UidArg) -> Mem<()>
    ensures { OnOk result (uses_met out.new.items ≡ uses_met out.old.items ++ uses_of_named named.now) }
{
    match named {
        UidArg::Uid(_) => Ok(()),
        UidArg::Var(name) => add(out, false, name),
    }
}

// Adds the variables among nodes.
fn add_all_named<'a>(out: &mut Vec<Use<'a>>, all: &'a [UidArg]) -> Mem<()>
    ensures { OnOk result (uses_met out.new.items ≡ uses_met out.old.items ++ flat_map uses_of_named all.now) }
{
    for named in all {
        add_named(out, named)?;
    }
    Ok(())
}

// Adds the variable whose value is compared, where it is one.
fn add_part<'a>(out: &mut Vec<Use<'a>>, of: &'a QOf) -> Mem<()>
    ensures { OnOk result (uses_met out.new.items ≡ uses_met out.old.items ++ uses_of_part of.now) }
{
    match of {
        QOf::Pred(_) | QOf::Count(_) => Ok(()),
        QOf::Val(name) => add(out, true, name),
    }
}

// Adds the variables of a function.
fn add_func<'a>(out: &mut Vec<Use<'a>>, func: &'a QFunc) -> Mem<()>
    ensures { OnOk result (uses_met out.new.items ≡ uses_met out.old.items ++ uses_of_func func.now) }
{
    match func {
        QFunc::Uid(uids) => add_all_named(out, uids.as_slice()),
        QFunc::UidIn { uids, .. } => add_all_named(out, uids.as_slice()),
        QFunc::Cmp { of, .. } => add_part(out, of),
        QFunc::Between { of, .. } => add_part(out, of),
        QFunc::Has(_) | QFunc::Terms { .. } | QFunc::Regexp { .. } => Ok(()),
    }
}

// Adds the variable by whose values a list is put in order, where it is one.
fn add_order<'a>(out: &mut Vec<Use<'a>>, order: &'a QOrder) -> Mem<()>
    ensures { OnOk result (uses_met out.new.items ≡ uses_met out.old.items ++ uses_of_order order.now) }
{
    match order {
        QOrder::Pred(_) => Ok(()),
        QOrder::Val(name) => add(out, true, name),
    }
}

// Adds the variable of an argument, where it has one.
fn add_arg<'a>(out: &mut Vec<Use<'a>>, arg: &'a QArg) -> Mem<()>
    ensures { OnOk result (uses_met out.new.items ≡ uses_met out.old.items ++ uses_of_arg arg.now) }
{
    match arg {
        QArg::First(_) | QArg::Offset(_) | QArg::After(_) => Ok(()),
        QArg::Asc(order) => add_order(out, order),
        QArg::Desc(order) => add_order(out, order),
    }
}

// Adds the variables of arguments.
fn add_args<'a>(out: &mut Vec<Use<'a>>, args: &'a [QArg]) -> Mem<()>
    ensures { OnOk result (uses_met out.new.items ≡ uses_met out.old.items ++ flat_map uses_of_arg args.now) }
{
    for arg in args {
        add_arg(out, arg)?;
    }
    Ok(())
}

// Adds the variables of a place.
fn add_place<'a>(out: &mut Vec<Use<'a>>, place: Place<'a>) -> Mem<()>
    ensures { OnOk result (uses_met out.new.items ≡ uses_met out.old.items ++ uses_at (place_met place.entry)) }
{
    match place {
        Place::Root(func) => add_func(out, func),
        Place::Tested(func) => add_func(out, func),
        Place::Arguments(args) => add_args(out, args),
        Place::Shown(name) => add(out, true, name),
        Place::Aggregated(_, name) => add(out, true, name),
        Place::Defined(..) | Place::Recursion(_) | Place::Edge(_) => Ok(()),
    }
}

/// Adds the variables of places.
pub fn add_places<'a>(out: &mut Vec<Use<'a>>, places: &[Place<'a>]) -> Mem<()>
    ensures { OnOk result (uses_met out.new.items ≡ uses_met out.old.items ++ uses_in (places_met places.now)) }
{
    for place in places {
        add_place(out, *place)?;
    }
    Ok(())
}

// Adds the variables of a condition.
#[cycle(condition)]
fn add_condition<'a>(out: &mut Vec<Use<'a>>, condition: &'a UCond) -> Mem<()>
    ensures { OnOk result (uses_met out.new.items ≡ uses_met out.old.items ++ uses_of_condition condition.now) }
{
    add_condition_part(out, &condition.part)
}

// Adds the variables of a condition's part, before which `not` may stand.
#[cycle(condition)]
fn add_condition_part<'a>(out: &mut Vec<Use<'a>>, part: &'a UPart) -> Mem<()>
    ensures { OnOk result (uses_met out.new.items ≡ uses_met out.old.items ++ uses_of_cond_part part.now) }
{
    match part {
        UPart::Or(parts) => add_conditions(out, parts.as_slice()),
        UPart::And(parts) => add_conditions(out, parts.as_slice()),
        UPart::Len { var, .. } => add(out, false, var),
    }
}

// Adds the variables of conditions.
#[cycle(condition)]
fn add_conditions<'a>(out: &mut Vec<Use<'a>>, conditions: &'a [UCond]) -> Mem<()>
    ensures { OnOk result (uses_met out.new.items ≡ uses_met out.old.items ++ flat_map uses_of_condition conditions.now) }
{
    for condition in conditions {
        add_condition(out, condition)?;
    }
    Ok(())
}

// Adds the variables of a condition, where there is one.
fn add_any_condition<'a>(out: &mut Vec<Use<'a>>, condition: &'a Option<UCond>) -> Mem<()>
    ensures { OnOk result (uses_met out.new.items ≡ uses_met out.old.items ++ uses_of_any_condition condition.now) }
{
    match condition {
        None => Ok(()),
        Some(condition) => add_condition(out, condition),
    }
}

// Adds the variable of a node, where it is one.
fn add_node<'a>(out: &mut Vec<Use<'a>>, node: &'a Node) -> Mem<()>
    ensures { OnOk result (uses_met out.new.items ≡ uses_met out.old.items ++ uses_of_node node.now) }
{
    match node {
        Node::Uid(_) | Node::Blank(_) => Ok(()),
        Node::Var(name) => add(out, false, name),
    }
}

// Adds the variable of an object, where it has one.
fn add_object<'a>(out: &mut Vec<Use<'a>>, object: &'a Object) -> Mem<()>
    ensures { OnOk result (uses_met out.new.items ≡ uses_met out.old.items ++ uses_of_object object.now) }
{
    match object {
        Object::Node(node) => add_node(out, node),
        Object::Literal { .. } | Object::Star => Ok(()),
        Object::Val(name) => add(out, true, name),
    }
}

// Adds the variables of statements.
fn add_statements<'a>(out: &mut Vec<Use<'a>>, statements: &'a [Statement]) -> Mem<()>
    ensures { OnOk result (uses_met out.new.items ≡ uses_met out.old.items ++ flat_map uses_of_statement statements.now) }
{
    for statement in statements {
        add_statement(out, statement)?;
    }
    Ok(())
}

// Adds the variables of a statement, the subject's before the object's.
fn add_statement<'a>(out: &mut Vec<Use<'a>>, statement: &'a Statement) -> Mem<()>
    ensures { OnOk result (uses_met out.new.items ≡ uses_met out.old.items ++ uses_of_statement statement.now) }
{
    add_node(out, &statement.s)?;
    add_object(out, &statement.o)
}

// Adds the variables of a mutation, the condition's before the statements'.
fn add_mutation<'a>(out: &mut Vec<Use<'a>>, mutation: &'a UMut) -> Mem<()>
    ensures { OnOk result (uses_met out.new.items ≡ uses_met out.old.items ++ uses_of_mutation mutation.now) }
{
    add_any_condition(out, &mutation.cond)?;
    add_statements(out, mutation.mutation.statements.as_slice())
}

/// Adds the variables of the mutations of an upsert block.
pub fn add_mutations<'a>(out: &mut Vec<Use<'a>>, mutations: &'a [UMut]) -> Mem<()>
    ensures { OnOk result (uses_met out.new.items ≡ uses_met out.old.items ++ uses_of_mutations mutations.now) }
{
    for mutation in mutations {
        add_mutation(out, mutation)?;
    }
    Ok(())
}

/// The variables that are used at places, in their order.
pub fn uses_of_places<'a>(alloc: Global, places: &[Place<'a>]) -> Mem<Vec<Use<'a>>>
    ensures { IfOk result (λ uses. uses_met uses.items ≡ uses_in (places_met places.now)) }
{
    let mut uses = Vec::new(alloc);
    add_places(&mut uses, places)?;
    Ok(uses)
}
