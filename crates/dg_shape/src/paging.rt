// Pages of lists of nodes.
ghost use Rattle.std.specs.Prelude.{◌≡◌, drop};
ghost use Rattle.dg_shape.specs.Orders as spec;

use dg_parse::QArg;

// How many nodes an argument asks for.
fn first_of(arg: &QArg) -> Option<i64>
    ensures { result ≡ spec.first_of arg.now }
{
    match arg {
        QArg::First(n) => Some(*n),
        QArg::Offset(_) | QArg::After(_) | QArg::Asc(_) | QArg::Desc(_) => None,
    }
}

// How many nodes an argument leaves out at the front.
fn offset_of(arg: &QArg) -> Option<i64>
    ensures { result ≡ spec.offset_of arg.now }
{
    match arg {
        QArg::Offset(n) => Some(*n),
        QArg::First(_) | QArg::After(_) | QArg::Asc(_) | QArg::Desc(_) => None,
    }
}

// The node after which an argument lets the page begin.
fn after_of(arg: &QArg) -> Option<u64>
    ensures { result ≡ spec.after_of arg.now }
{
    match arg {
        QArg::After(n) => Some(*n),
        QArg::First(_) | QArg::Offset(_) | QArg::Asc(_) | QArg::Desc(_) => None,
    }
}

// How many nodes are asked for.
fn first_in(args: &[QArg]) -> Option<i64>
    ensures { result ≡ spec.first_in args.now }
{
    for arg in args {
        let n = first_of(arg);
        if n.is_some() {
            return n;
        }
    }
    None
}

// How many nodes are left out at the front.
fn offset_in(args: &[QArg]) -> Option<i64>
    ensures { result ≡ spec.offset_in args.now }
{
    for arg in args {
        let n = offset_of(arg);
        if n.is_some() {
            return n;
        }
    }
    None
}

// The node after which the page begins.
fn after_in(args: &[QArg]) -> Option<u64>
    ensures { result ≡ spec.after_in args.now }
{
    for arg in args {
        let n = after_of(arg);
        if n.is_some() {
            return n;
        }
    }
    None
}

// The nodes of a greater number.
fn above(mut nodes: Vec<u64>, after: Option<u64>) -> Vec<u64>
    ensures { result.items ≡ spec.above after nodes.items }
{
    match after {
        Some(after) => {
            nodes.retain(|n| *n > after);
            nodes
        }
        None => nodes,
    }
}

// The nodes without the first so many.
fn behind(mut nodes: Vec<u64>, n: usize) -> Vec<u64>
    ensures { result.items ≡ drop n nodes.items }
{
    let n = nodes.len().min(n);
    nodes.drain(..n);
    nodes
}

// The nodes without the first so many, where that is no negative number.
fn past(nodes: Vec<u64>, offset: Option<i64>) -> Vec<u64>
    ensures { result.items ≡ spec.past offset nodes.items }
{
    match offset {
        Some(offset) if offset >= 0 => behind(nodes, offset.unsigned_abs() as usize),
        _ => nodes,
    }
}

// The first so many nodes, or for a negative number the last.
fn at_most(mut nodes: Vec<u64>, first: Option<i64>) -> Vec<u64>
    ensures { result.items ≡ spec.at_most first nodes.items }
{
    let Some(first) = first else { return nodes };
    let n = first.unsigned_abs() as usize;
    if first >= 0 {
        nodes.truncate(n);
    } else {
        let n = nodes.len().saturating_sub(n);
        nodes.drain(..n);
    }
    nodes
}

/// The page that arguments ask of nodes: those of a number greater than `after`, without the first `offset`, and of these
/// the first `first`, or where it is negative the last. Of two arguments of one kind the first counts. It cuts in place and
/// takes no memory.
pub fn page(nodes: Vec<u64>, args: &[QArg]) -> Vec<u64>
    ensures { result.items ≡ spec.page args.now nodes.items }
{
    let nodes = past(above(nodes, after_in(args)), offset_in(args));
    at_most(nodes, first_in(args))
}
