// Whether arguments can stand where they do, and the depths of recursions.
ghost use Rattle.std.specs.Prelude.{◌≡◌, ◌∷◌, [], IfOk, Option, is_some, pos};
ghost use Rattle.std.specs.List.{list_any};
ghost use Rattle.dg_check.specs.Faults.{is_order, arg_word, is_negative, is_misplaced, is_same_arg, is_wrong, bad_page, depth_in, bad_depth};

use crate::CheckFault;
use crate::finding::Check;
use crate::places::Place;
use dg_parse::{QArg, QOpt};
use dg_values::{Mem, OutOfMemory, Str};
use std::alloc::Global;

// Whether an argument is an order.
fn is_order(arg: &QArg) -> bool
    ensures { result ≡ is_order arg.now }
{
    matches!(arg, QArg::Asc(_) | QArg::Desc(_))
}

// Whether one of the arguments is an order.
fn is_ordered(args: &[QArg]) -> bool
    ensures { result ≡ list_any is_order args.now }
{
    args.iter().any(|arg| is_order(arg))
}

// An argument's word.
fn arg_word(arg: &QArg) -> &'static str
    ensures { result.now ≡ arg_word arg.now }
{
    match arg {
        QArg::First(_) => "first",
        QArg::Offset(_) => "offset",
        QArg::After(_) => "after",
        QArg::Asc(_) => "orderasc",
        QArg::Desc(_) => "orderdesc",
    }
}

// Whether an argument is wrong by itself.
fn is_misplaced(ordered: bool, arg: &QArg) -> bool
    ensures { result ≡ is_misplaced ordered arg.now }
{
    match arg {
        QArg::First(n) => ordered && *n < 0,
        QArg::Offset(n) => *n < 0,
        QArg::After(_) => ordered,
        QArg::Asc(_) | QArg::Desc(_) => false,
    }
}

// Whether two arguments are the same one, other than an order.
fn is_same_arg(a: &QArg, b: &QArg) -> bool
    ensures { result ≡ is_same_arg a.now b.now }
{
    match a {
        QArg::First(_) => matches!(b, QArg::First(_)),
        QArg::Offset(_) => matches!(b, QArg::Offset(_)),
        QArg::After(_) => matches!(b, QArg::After(_)),
        QArg::Asc(_) | QArg::Desc(_) => false,
    }
}

// Whether an argument, other than an order, stands among these.
fn stands_in(args: &[QArg], arg: &QArg) -> bool
    ensures { result ≡ list_any (is_same_arg arg.now) args.now }
{
    args.iter().any(|other| is_same_arg(arg, other))
}

// Whether an argument is wrong behind these.
fn is_wrong(ordered: bool, before: &[QArg], arg: &QArg) -> bool
    ensures { result ≡ is_wrong ordered before.now arg.now }
{
    if is_order(arg) {
        return false;
    }
    stands_in(before, arg) || is_misplaced(ordered, arg)
}

// The fault of an argument.
fn bad_arg(alloc: Global, arg: &QArg) -> Mem<CheckFault>
    ensures { IfOk result (λ fault. fault ≡ CheckFault.BadPage (arg_word arg.now)) }
{
    let argument = Str::from_str(alloc, arg_word(arg))?;
    Ok(CheckFault::BadPage { argument })
}

// The first argument that is wrong. The number of steps is that of the arguments: before the second of one kind there are
// three at most that aren't orders.
fn bad_page(alloc: Global, args: &[QArg]) -> Mem<Option<CheckFault>>
    ensures { IfOk result (λ found. found ≡ bad_page args.now) }
{
    let ordered = is_ordered(args);
    for (i, arg) in args.iter().enumerate() {
        if is_wrong(ordered, &args[..i], arg) {
            return Ok(Some(bad_arg(alloc, arg)?));
        }
    }
    Ok(None)
}

/// Whether arguments can stand where they do.
#[derive(Clone, Copy)]
pub struct Pages;

impl Check for Pages {
    ghost use Rattle.dg_check.specs.Faults.{bad_page_at};

    ghost finds = { λ check. bad_page_at };

    fn at(&self, alloc: Global, place: Place<'_>) -> Mem<Option<CheckFault>> {
        match place {
            Place::Arguments(args) => bad_page(alloc, args),
            Place::Root(_)
            | Place::Tested(_)
            | Place::Edge(_)
            | Place::Defined(..)
            | Place::Recursion(_)
            | Place::Shown(_)
            | Place::Aggregated(..) => Ok(None),
        }
    }
}

// The depth that options give, or 0.
fn depth_in(options: &[QOpt]) -> i64
    ensures { result ≡ depth_in options.now }
{
    for option in options {
        match option {
            QOpt::Depth(n) => return *n,
            QOpt::Again(_) => {}
        }
    }
    0
}

// The fault of a depth that isn't 1 to 32.
fn bad_depth(n: i64) -> Option<CheckFault>
    ensures { result ≡ bad_depth n }
{
    if n < 1 || 32 < n {
        Some(CheckFault::BadDepth { n })
    } else {
        None
    }
}

/// Whether depths are 1 to 32.
#[derive(Clone, Copy)]
pub struct Depths;

impl Check for Depths {
    ghost use Rattle.dg_check.specs.Faults.{bad_depth_at};

    ghost finds = { λ check. bad_depth_at };

    fn at(&self, _alloc: Global, place: Place<'_>) -> Mem<Option<CheckFault>> {
        match place {
            Place::Recursion(options) => Ok(bad_depth(depth_in(options))),
            Place::Root(_)
            | Place::Tested(_)
            | Place::Edge(_)
            | Place::Defined(..)
            | Place::Arguments(_)
            | Place::Shown(_)
            | Place::Aggregated(..) => Ok(None),
        }
    }
}
