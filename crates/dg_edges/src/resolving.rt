// Statements checked against a schema.
ghost use Rattle.std.specs.Prelude.{◌≡◌, ◌↔◌, IsTrue, ◌⊎◌, Some, MatchOption, MatchResult};
ghost use Rattle.std.specs.List.{AllByRecursion};
ghost use Rattle.dg_values.specs.declared.kind.Kind.TheVariants as kinds;
ghost use Rattle.dg_nquad.specs.declared.mutation.Object.TheVariants as objects;
ghost use Rattle.dg_values.specs.declared.value.Value.{Value};
ghost use Rattle.dg_values.specs.Reading.{Reads};
ghost use Rattle.dg_edges.specs.Resolving.{node_said, IsTyped, IsValueOf, TargetSaid, IsMisfit, Says, Resolves, IsAnswer};
ghost use Rattle.dg_nquad.specs.Plain.{IsNamed, IsNoVariable, HasNoVariable};

use crate::{Edge, EdgeFault, Named, Resolved, Target};
use dg_nquad::{Mutation, Node, Object, Statement};
use dg_schema::Schema;
use dg_values::{Kind, List, Str, Value, ValueFault, read_value};
use std::alloc::Global;

/// Checks the statements of a mutation against a schema, in their order. Texts are moved, not copied.
///
/// # Errors
///
/// The first statement that is refused decides. `NoPredicate` comes where its predicate isn't declared, else
/// `WrongObject` where a node stands on a predicate of values or a literal on one of nodes, else `BadLiteral` where
/// the literal's text is no value of its own type or of the predicate's kind.
pub fn resolve(alloc: Global, schema: &Schema, m: Mutation) -> Result<Resolved, EdgeFault>
    requires { AllByRecursion HasNoVariable m.statements }
    ensures { IsAnswer (Resolves schema.now m.statements) result }
{
    let statements = m.statements.into_vec();
    let mut edges = Vec::with_capacity(alloc, statements.len())?;
    for statement in statements {
        edges.push(check(alloc, schema, statement)?)?;
    }
    Ok(Resolved {
        edges: List::from_vec(edges),
    })
}

// Checks one statement.
fn check(alloc: Global, schema: &Schema, statement: Statement) -> Result<Edge, EdgeFault>
    requires { HasNoVariable statement }
    ensures { Says schema.now statement result }
{
    let Statement { delete, s, p, o } = statement;
    let Some(definition) = schema.lookup(p.as_str()) else {
        return Err(EdgeFault::NoPredicate { pred: p });
    };
    match target(alloc, definition.kind, o) {
        Ok(o) => Ok(Edge {
            delete,
            s: named(s),
            p,
            o,
        }),
        Err(Misfit::Sort) => Err(EdgeFault::WrongObject { pred: p }),
        Err(Misfit::Literal) => Err(EdgeFault::BadLiteral { pred: p }),
    }
}

// Why an object has no place on a predicate.
enum Misfit {
    // A node stands on a predicate of values, or a literal on one of nodes.
    Sort,
    // The literal has no value there.
    Literal,
}

// The node that a statement names.
fn named(node: Node) -> Named
    requires { IsNamed node }
    ensures { node_said node ≡ Some result }
{
    match node {
        Node::Uid(uid) => Named::Uid(uid),
        Node::Blank(name) => Named::New(name),
        Node::Var(_) => unreachable!(),
    }
}

// What an object is on a predicate of this kind.
fn target(alloc: Global, kind: Kind, object: Object) -> Result<Target, Misfit>
    requires { IsNoVariable object }
    ensures { MatchResult result (λ target. TargetSaid object target kind) (λ misfit. IsMisfit object kind misfit) }
{
    match object {
        Object::Star => Ok(Target::All),
        Object::Node(node) => node_on(kind, node),
        Object::Literal { text, tag } => literal_on(alloc, kind, tag, text),
        Object::Val(_) => unreachable!(),
    }
}

// What a node is on a predicate of this kind.
fn node_on(kind: Kind, node: Node) -> Result<Target, Misfit>
    requires { IsNamed node }
    ensures { MatchResult result (λ target. TargetSaid (objects.Node node) target kind) (λ misfit. IsMisfit (objects.Node node) kind misfit) }
{
    match kind {
        Kind::Uid => Ok(Target::Node(named(node))),
        _ => Err(Misfit::Sort),
    }
}

// What a literal is on a predicate of this kind.
fn literal_on(alloc: Global, kind: Kind, tag: Option<Kind>, text: Str) -> Result<Target, Misfit>
    ensures { MatchResult result (λ target. TargetSaid (objects.Literal text tag) target kind) (λ misfit. IsMisfit (objects.Literal text tag) kind misfit) }
{
    if kind == Kind::Uid {
        return Err(Misfit::Sort);
    }
    match value_on(alloc, kind, tag, text) {
        Some(value) => Ok(Target::Value(value)),
        None => Err(Misfit::Literal),
    }
}

// A literal's value on a predicate of this kind, where it has one.
fn value_on(alloc: Global, kind: Kind, tag: Option<Kind>, text: Str) -> Option<Value>
    ensures { MatchOption result ((value : Value) → ¬ IsValueOf kind tag text value) (λ value. IsValueOf kind tag text value) }
{
    if is_typed(alloc, tag, text.as_str()) {
        read(alloc, kind, text)
    } else {
        None
    }
}

// Whether the text is a value of the type, where there is one. It takes no memory.
fn is_typed(alloc: Global, tag: Option<Kind>, text: &str) -> bool
    ensures { IsTrue result ↔ IsTyped tag text.now }
{
    match tag {
        Some(kind) => is_text(kind) || read_scalar(alloc, kind, text).is_some(),
        None => true,
    }
}

// The value of this kind that the text reads as, where it does. It takes no memory.
fn read(alloc: Global, kind: Kind, text: Str) -> Option<Value>
    ensures { MatchOption result ((value : Value) → ¬ Reads kind text value) (λ value. Reads kind text value) }
{
    if is_text(kind) {
        Some(Value::Text(text))
    } else {
        read_scalar(alloc, kind, text.as_str())
    }
}

// The value of this kind, which isn't one of texts, that the text reads as. It takes no memory.
fn read_scalar(alloc: Global, kind: Kind, text: &str) -> Option<Value>
    requires { ¬ ((kind ≡ kinds.Default) ⊎ (kind ≡ kinds.Text)) }
    ensures { MatchOption result ((value : Value) → ¬ Reads kind text.now value) (λ value. Reads kind text.now value) }
{
    match read_value(alloc, kind, text) {
        Ok(value) => Some(value),
        Err(ValueFault::BadLiteral) => None,
        Err(ValueFault::OutOfMemory) => unreachable!(),
    }
}

// Whether the values of a kind are texts.
fn is_text(kind: Kind) -> bool
    ensures { IsTrue result ↔ (kind ≡ kinds.Default) ⊎ (kind ≡ kinds.Text) }
{
    matches!(kind, Kind::Default | Kind::Text)
}
