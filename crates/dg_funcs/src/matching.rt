// Patterns in texts.
ghost use Rattle.std.specs.Prelude.{◌≡◌, IfOk, OnOk};
ghost use Rattle.std.specs.List.{list_any};
ghost use Rattle.regex.specs.Strings.{matcher_pattern};
ghost use Rattle.dg_funcs.specs.Truth.{texts_at, found_in};
ghost use Rattle.dg_funcs.specs.Tests.{in_text};

use dg_graph::Snapshot;
use dg_values::{Mem, OutOfMemory, Posting, Steps, Value};
use regex::Matcher;
use std::alloc::Global;
use std::sync::ledger::Ledger;

// Whether the pattern is found in a text.
fn is_found_in(matcher: &mut Matcher<'_>, text: &str) -> bool
    ensures found { result ≡ found_in (matcher_pattern matcher.old) text.now }
    ensures same { matcher_pattern matcher.new ≡ matcher_pattern matcher.old }
{
    matcher.is_match(text)
}

// Whether the pattern is found in an object that is a text.
fn is_found(matcher: &mut Matcher<'_>, object: &Posting) -> bool
    ensures found { result ≡ in_text (found_in (matcher_pattern matcher.old)) object.now }
    ensures same { matcher_pattern matcher.new ≡ matcher_pattern matcher.old }
{
    match object {
        Posting::Val(value) => match value {
            Value::Text(text) => is_found_in(matcher, text.as_str()),
            _ => false,
        },
        Posting::Uid(_) => false,
    }
}

// Whether the pattern is found in some object.
fn any_found(matcher: &mut Matcher<'_>, objects: &[Posting]) -> bool
    ensures found { result ≡ list_any (in_text (found_in (matcher_pattern matcher.old))) objects.now }
    ensures same { matcher_pattern matcher.new ≡ matcher_pattern matcher.old }
{
    for object in objects {
        if is_found(matcher, object) {
            return true;
        }
    }
    false
}

/// Whether the pattern is found in a text of a node. It reads one list.
pub(crate) fn node_matches<S: Snapshot, L: Ledger>(
    alloc: Global,
    snap: &S,
    p: &str,
    matcher: &mut Matcher<'_>,
    node: u64,
    reads: &mut Steps<L>,
) -> Mem<bool>
    ensures found { IfOk result (λ b. b ≡ list_any (found_in (matcher_pattern matcher.old)) (texts_at (S.graph snap.now) p.now node)) }
    ensures same { OnOk result (matcher_pattern matcher.new ≡ matcher_pattern matcher.old) }
{
    let objects = snap.objects(alloc, p, node, reads)?;
    Ok(any_found(matcher, objects.as_slice()))
}
