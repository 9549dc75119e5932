// Whether literals read as the kind of what they are compared with, and sums are of whole numbers.
ghost use Rattle.std.specs.Prelude.{◌≡◌, [], ◌∷◌, IfOk, is_some, option_map, slice_get};
ghost use Rattle.std.specs.List.{list_all};
ghost use Rattle.dg_values.specs.Scanning.{value_of_text};
ghost use Rattle.dg_check.specs.Faults.{read_outcome, reads_as, kind_in, kind_named, kind_of_part, name_of_part, unread, unread_func, is_summed, bad_sum};

use crate::finding::Check;
use crate::names::Names;
use crate::places::Place;
use crate::variables::{Definition, all_names};
use crate::{CheckFault, Content};
use dg_parse::{AggOp, QFunc, QOf};
use dg_schema::Schema;
use dg_values::{Kind, Mem, OutOfMemory, Str, Value, ValueFault, read_value};
use std::alloc::Global;
use std::marker::Model;

/// The variables that are defined, with what they have. Contracts see them in the order of the text.
#[derive(Drop)]
pub struct Variables<'a> {
    definitions: Vec<Definition<'a>>,
    // Their names, in the same order.
    names: Names<'a>,
}

impl<'a> Model for Variables<'a> {
    ghost use Rattle.std.specs.Prelude.{◌≡◌, List, map};
    ghost use Rattle.dg_check.specs.Variables.{Definition, definitions_met};

    ghost Value = { List Definition };

    ghost view = { λ v. definitions_met v.definitions.items };

    ghost invariant = { λ v. v.names ≡ map (λ d. d.name) (definitions_met v.definitions.items) };
}

impl<'a> Variables<'a> {
    ghost use Rattle.std.specs.Prelude.{◌≡◌, IfOk};
    ghost use Rattle.dg_check.specs.Variables.{definitions_met, content_named};
    ghost use Rattle.dg_check.specs.Faults.{kind_named};
    ghost use Rattle.dg_check.specs.Plans.{place_of};

    /// The variables of these definitions.
    pub fn of(alloc: Global, definitions: Vec<Definition<'a>>) -> Mem<Variables<'a>>
        ensures { IfOk result (λ variables. variables ≡ definitions_met definitions.entry.items) }
    {
        let names = all_names(alloc, definitions.as_slice())?;
        Ok(Variables { definitions, names })
    }

    /// The place of the first variable of a name, or how many there are. It looks by halves.
    pub fn place(&self, name: &str) -> usize
        ensures { result ≡ place_of self.now name.now }
    {
        self.names.place(name)
    }

    // What the first variable of a name has. It looks by halves.
    fn content(&self, name: &str) -> Option<Content>
        ensures { result ≡ content_named self.now name.now }
    {
        content_at(self.definitions.as_slice(), self.names.place(name))
    }

    // The kind of its values, where it has one.
    fn kind(&self, name: &str) -> Option<Kind>
        ensures { result ≡ kind_named self.now name.now }
    {
        match self.content(name) {
            None => None,
            Some(content) => kind_in(content),
        }
    }
}

// What the definition at a place has.
fn content_at(definitions: &[Definition<'_>], at: usize) -> Option<Content>
    ensures { result ≡ option_map (λ d. d.content) (slice_get definitions.now at) }
{
    match definitions.get(at) {
        None => None,
        Some(definition) => Some(definition.content),
    }
}

// The kind as which literals have to read.
fn kind_in(content: Content) -> Option<Kind>
    ensures { result ≡ kind_in content }
{
    match content {
        Content::Nodes => Some(Kind::Uid),
        Content::Values(kind) => Some(kind),
        Content::Both => None,
    }
}

// Whether there is a value; nothing for want of memory.
fn is_read(read: Result<Value, ValueFault>) -> Option<bool>
    ensures { result ≡ read_outcome read }
{
    match read {
        Ok(_) => Some(true),
        Err(ValueFault::BadLiteral) => Some(false),
        Err(ValueFault::OutOfMemory) => None,
    }
}

// Whether a literal reads as a kind.
fn reads(alloc: Global, kind: Kind, literal: &str) -> Mem<bool>
    ensures { IfOk result (λ b. b ≡ is_some (value_of_text kind literal.now)) }
{
    match is_read(read_value(alloc, kind, literal)) {
        Some(b) => Ok(b),
        None => Err(OutOfMemory),
    }
}

// Whether a literal reads as a kind; any does where there is none.
fn reads_as(alloc: Global, kind: Option<Kind>, literal: &Str) -> Mem<bool>
    ensures { IfOk result (λ b. b ≡ reads_as kind literal.now) }
{
    match kind {
        None => Ok(true),
        Some(kind) => reads(alloc, kind, literal.as_str()),
    }
}

// Whether all literals read as a kind.
fn all_read(alloc: Global, kind: Option<Kind>, literals: &[Str]) -> Mem<bool>
    ensures { IfOk result (λ b. b ≡ list_all (reads_as kind) literals.now) }
{
    for literal in literals {
        if !reads_as(alloc, kind, literal)? {
            return Ok(false);
        }
    }
    Ok(true)
}

// Whether two literals read as a kind.
fn both_read(alloc: Global, kind: Option<Kind>, low: &Str, high: &Str) -> Mem<bool>
    ensures { IfOk result (λ b. b ≡ list_all (reads_as kind) (low.now ∷ high.now ∷ [])) }
{
    if !reads_as(alloc, kind, low)? {
        return Ok(false);
    }
    reads_as(alloc, kind, high)
}

/// The predicate or the variable that is compared, for its fault.
pub fn name_of_part(alloc: Global, of: &QOf) -> Mem<Str>
    ensures { IfOk result (λ name. name ≡ name_of_part of.now) }
{
    match of {
        QOf::Pred(pred) => pred.copy(alloc),
        QOf::Count(edge) => edge.pred.copy(alloc),
        QOf::Val(name) => name.copy(alloc),
    }
}

/// Whether literals read as the kind of what they are compared with, and sums are of whole numbers.
#[derive(Drop)]
pub struct Literals<'a> {
    /// How predicates are declared.
    pub schema: &'a Schema,
    /// What variables have.
    pub variables: Variables<'a>,
}

impl Literals<'_> {
    ghost use Rattle.std.specs.Prelude.{◌≡◌, ◌∷◌, [], IfOk, option_map};
    ghost use Rattle.dg_schema.specs.Definitions.{definition_of};
    ghost use Rattle.dg_check.specs.Faults.{kind_of_part, unread, unread_func, bad_sum};

    // The kind of a predicate, where it is declared.
    fn kind_of_pred(&self, pred: &str) -> Option<Kind>
        ensures { result ≡ option_map (λ d. d.kind) (definition_of self.now.schema.now pred.now) }
    {
        match self.schema.lookup(pred) {
            None => None,
            Some(definition) => Some(definition.kind),
        }
    }

    /// The kind of what is compared.
    pub fn kind_of_part(&self, of: &QOf) -> Option<Kind>
        ensures { result ≡ kind_of_part self.now.schema.now self.now.variables of.now }
    {
        match of {
            QOf::Pred(pred) => self.kind_of_pred(pred.as_str()),
            QOf::Count(_) => Some(Kind::Int),
            QOf::Val(name) => self.variables.kind(name.as_str()),
        }
    }

    // The fault of a comparison one of whose literals doesn't read.
    fn unread(&self, alloc: Global, of: &QOf, literals: &[Str]) -> Mem<Option<CheckFault>>
        ensures { IfOk result (λ found. found ≡ unread self.now.schema.now self.now.variables of.now literals.now) }
    {
        if all_read(alloc, self.kind_of_part(of), literals)? {
            return Ok(None);
        }
        let name = name_of_part(alloc, of)?;
        Ok(Some(CheckFault::BadLiteral { name }))
    }

    // The fault of `between` one of whose ends doesn't read.
    fn unread_ends(&self, alloc: Global, of: &QOf, low: &Str, high: &Str) -> Mem<Option<CheckFault>>
        ensures { IfOk result (λ found. found ≡ unread self.now.schema.now self.now.variables of.now (low.now ∷ high.now ∷ [])) }
    {
        if both_read(alloc, self.kind_of_part(of), low, high)? {
            return Ok(None);
        }
        let name = name_of_part(alloc, of)?;
        Ok(Some(CheckFault::BadLiteral { name }))
    }

    // The fault of a function's literals.
    fn unread_func(&self, alloc: Global, func: &QFunc) -> Mem<Option<CheckFault>>
        ensures { IfOk result (λ found. found ≡ unread_func self.now.schema.now self.now.variables func.now) }
    {
        match func {
            QFunc::Cmp { of, lits, .. } => self.unread(alloc, of, lits.as_slice()),
            QFunc::Between { of, low, high } => self.unread_ends(alloc, of, low, high),
            QFunc::Uid(_)
            | QFunc::Has(_)
            | QFunc::Terms { .. }
            | QFunc::Regexp { .. }
            | QFunc::UidIn { .. } => Ok(None),
        }
    }

    /// The fault of a sum that isn't of whole numbers.
    pub fn bad_sum(&self, alloc: Global, op: AggOp, name: &Str) -> Mem<Option<CheckFault>>
        ensures { IfOk result (λ found. found ≡ bad_sum self.now.variables op name.now) }
    {
        match op {
            AggOp::Min | AggOp::Max => Ok(None),
            AggOp::Sum => match self.variables.kind(name.as_str()) {
                Some(Kind::Int) => Ok(None),
                _ => {
                    let name = name.copy(alloc)?;
                    Ok(Some(CheckFault::BadLiteral { name }))
                }
            },
        }
    }
}

impl Check for Literals<'_> {
    ghost use Rattle.dg_check.specs.Faults.{bad_literal_at};

    ghost finds = { λ check. bad_literal_at check.schema.now check.variables };

    fn at(&self, alloc: Global, place: Place<'_>) -> Mem<Option<CheckFault>> {
        match place {
            Place::Root(func) => self.unread_func(alloc, func),
            Place::Tested(func) => self.unread_func(alloc, func),
            Place::Aggregated(op, name) => self.bad_sum(alloc, op, name),
            Place::Defined(..)
            | Place::Arguments(_)
            | Place::Recursion(_)
            | Place::Edge(_)
            | Place::Shown(_) => Ok(None),
        }
    }
}
