// What edges lead to.
ghost use Rattle.std.specs.Prelude.{◌≡◌, option_copied};
ghost use Rattle.dg_level.specs.Shown.{sort_of_kind, sort_of};
ghost use Rattle.dg_level.specs.Planned.{is_single};
ghost use Rattle.dg_level.specs.Levels.{leads_to_nodes};

use dg_schema::PredDef;
use dg_values::Kind;

/// What an edge leads to.
#[derive(Clone, Copy, Debug, PartialEq, Eq)]
pub enum Sort {
    /// Nothing: its predicate isn't declared.
    Nothing,
    /// Values.
    Values,
    /// One node at most.
    Node,
    /// A list of nodes.
    Nodes,
}

// By a predicate of nodes to one node or to a list of them, by any other to values.
fn sort_of_kind(kind: Kind, list: bool) -> Sort
    ensures { result ≡ sort_of_kind kind list }
{
    match kind {
        Kind::Uid if list => Sort::Nodes,
        Kind::Uid => Sort::Node,
        Kind::Default | Kind::Text | Kind::Int | Kind::Bool | Kind::Time => Sort::Values,
    }
}

/// What an edge leads to, by the definition of its predicate and whether it is followed backwards.
pub fn sort_of(definition: Option<&PredDef>, back: bool) -> Sort
    ensures { result ≡ sort_of (option_copied definition.entry) back }
{
    match definition {
        None => Sort::Nothing,
        Some(_) if back => Sort::Nodes,
        Some(definition) => sort_of_kind(definition.kind, definition.list),
    }
}

/// Whether an edge leads to nodes.
pub fn leads_to_nodes(sort: Sort) -> bool
    ensures { result ≡ leads_to_nodes sort }
{
    match sort {
        Sort::Nothing | Sort::Values => false,
        Sort::Node | Sort::Nodes => true,
    }
}

/// Whether an edge leads to one node at most.
pub fn is_single(sort: Sort) -> bool
    ensures { result ≡ is_single sort }
{
    match sort {
        Sort::Nothing | Sort::Values | Sort::Nodes => false,
        Sort::Node => true,
    }
}
