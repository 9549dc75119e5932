// Texts against the keys of fields, without memory.
ghost use Rattle.std.specs.Prelude.{◌≡◌, ◌++◌, List, ℕ, bytes_eq, option_copied};
ghost use Rattle.dg_parse.specs.Keys as spec;
ghost use Rattle.dg_parse.specs.declared.query.QItem.TheViews.{out-QItem};
ghost use Rattle.dg_shape.specs.Keyed.{is_rest, is_number};

use dg_parse::{AggOp, QEdge, QField, QItem};

// Whether two texts are equal.
fn same(text: &[u8], other: &[u8]) -> bool
    ensures { result ≡ bytes_eq text.now other.now }
{
    text == other
}

// What is left of a text behind this front; none where it doesn't begin with it.
fn behind<'a>(text: &'a [u8], front: &[u8]) -> Option<&'a [u8]>
    ensures { (back : List ℕ) → bytes_eq text.now (front.now ++ back) ≡ is_rest (option_copied result) back }
{
    text.strip_prefix(front)
}

// What is left of a text behind a predicate, with `~` where it is followed backwards.
fn behind_edge<'a>(text: &'a [u8], edge: &QEdge) -> Option<&'a [u8]>
    ensures { (back : List ℕ) → bytes_eq text.now (spec.edge_text edge.now ++ back) ≡ is_rest (option_copied result) back }
{
    let pred = edge.pred.as_str().as_bytes();
    if edge.back {
        return behind(behind(text, b"~")?, pred);
    }
    behind(text, pred)
}

// Whether a text is a predicate, with `~` where it is followed backwards.
fn is_edge(text: &[u8], edge: &QEdge) -> bool
    ensures { result ≡ bytes_eq text.now (spec.edge_text edge.now) }
{
    let pred = edge.pred.as_str().as_bytes();
    if edge.back {
        return match behind(text, b"~") {
            Some(rest) => same(rest, pred),
            None => false,
        };
    }
    same(text, pred)
}

// Whether a text is the key of the number of an edge's objects.
fn is_count_of(text: &[u8], edge: &QEdge) -> bool
    ensures { result ≡ bytes_eq text.now (spec.count_key edge.now) }
{
    match behind(text, b"count(") {
        Some(rest) => match behind_edge(rest, edge) {
            Some(rest) => same(rest, b")"),
            None => false,
        },
        None => false,
    }
}

// Whether a text is a front, a name and a back.
fn is_between(text: &[u8], front: &[u8], name: &[u8], back: &[u8]) -> bool
    ensures { result ≡ bytes_eq text.now (front.now ++ (name.now ++ back.now)) }
{
    match behind(text, front) {
        Some(rest) => match behind(rest, name) {
            Some(rest) => same(rest, back),
            None => false,
        },
        None => false,
    }
}

// Whether a text is the key of an aggregate of a variable.
fn is_aggregate(text: &[u8], op: AggOp, var: &[u8]) -> bool
    ensures { result ≡ bytes_eq text.now (spec.agg_key op var.now) }
{
    match op {
        AggOp::Min => is_between(text, b"min(val(", var, b"))"),
        AggOp::Max => is_between(text, b"max(val(", var, b"))"),
        AggOp::Sum => is_between(text, b"sum(val(", var, b"))"),
    }
}

// Whether a text is the key of an item that has no alias.
fn is_key_of_item(text: &[u8], item: &QItem) -> bool
    ensures { result ≡ bytes_eq text.now (spec.item_key item.now) }
{
    match item {
        QItem::Uid => same(text, b"uid"),
        QItem::CountUid => same(text, b"count"),
        QItem::Count(edge) => is_count_of(text, edge),
        QItem::Val(x) => is_between(text, b"val(", x.as_str().as_bytes(), b")"),
        QItem::Agg { op, var } => is_aggregate(text, *op, var.as_str().as_bytes()),
        QItem::Edge { edge, .. } => is_edge(text, edge),
    }
}

/// Whether a text is the key of a field.
pub fn is_key_of(text: &str, field: &QField) -> bool
    ensures { result ≡ bytes_eq text.now (spec.key_of field.now) }
{
    match &field.alias {
        Some(key) => text == key.as_str(),
        None => is_key_of_item(text.as_bytes(), &field.item),
    }
}

/// Whether a field is the number of nodes of the list.
pub fn is_number(field: &QField) -> bool
    ensures { result ≡ is_number (out-QItem field.now.item) }
{
    matches!(&field.item, QItem::CountUid)
}
