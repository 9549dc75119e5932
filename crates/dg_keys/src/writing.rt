// Keys as bytes.
ghost use Rattle.std.specs.Prelude.{◌≡◌, ◌↔◌, ◌<◌, ◌^◌, ◌++◌, IfOk, OnOk, IsTrue};
ghost use Rattle.std.specs.Int.{w64, to_be_bytes};
ghost use Rattle.std.specs.Int.RustNames.{FitsSigned};
ghost use Rattle.dg_values.specs.declared.value.Value.{Value};
ghost use Rattle.dg_values.specs.Instant.{IsInstant};
ghost use Rattle.dg_values.specs.Order.{tokenizer_rank};
ghost use Rattle.dg_keys.specs.KeyBytes.{flipped, value_bytes, token_bytes, field_bytes, key_bytes, is_of_kind, has_kind, has_zero, IsPlain, IsValue, IsField, IsKey};

use crate::Key;
use dg_tokens::IndexToken;
use dg_values::{Mem, Moment, OutOfMemory, Tokenizer, Value};
use std::alloc::Global;

// The highest bit of a number.
pub(crate) const HIGHEST: u64 = 1 << 63;

/// Whether the bytes of a key are no other key's: its predicate has no zero byte, and the value of its token, where it
/// has one, is of its tokenizer's kind.
pub fn is_plain(key: &Key) -> bool
    ensures { IsTrue result ↔ IsPlain key.now }
{
    !has_zero(key.pred().as_str().as_bytes()) && has_kind(key)
}

fn has_zero(bytes: &[u8]) -> bool
    ensures { result ≡ has_zero bytes.now }
{
    bytes.iter().any(|b| *b == 0)
}

// Whether the token of a key, where it has one, is of its tokenizer's kind.
fn has_kind(key: &Key) -> bool
    ensures { result ≡ has_kind key.now }
{
    match key {
        Key::Index { t, .. } => is_of_kind(t.tokenizer, &t.value),
        _ => true,
    }
}

fn is_of_kind(tokenizer: Tokenizer, value: &Value) -> bool
    ensures { result ≡ is_of_kind tokenizer value.now }
{
    match value {
        Value::Text(_) => matches!(
            tokenizer,
            Tokenizer::Exact | Tokenizer::Hash | Tokenizer::Term | Tokenizer::Trigram
        ),
        Value::Int(_) => matches!(tokenizer, Tokenizer::Int),
        Value::Bool(_) => matches!(tokenizer, Tokenizer::Bool),
        Value::Time(_) => matches!(
            tokenizer,
            Tokenizer::Year | Tokenizer::Month | Tokenizer::Day | Tokenizer::Hour
        ),
    }
}

/// The bytes of a key. They order as keys do, and no other key has them.
///
/// They are the predicate, a zero byte, a byte for the kind (1 for `Data` to 5 for `RCount`), and then the node or
/// number as 8 bytes, or the tokenizer's byte and the value: a text as it is, a number as 8 bytes with the highest bit
/// flipped, a truth value as 0 or 1, and a moment as its seconds like a number and its nanoseconds as 4 bytes. Each
/// number begins with its highest byte. The error is want of memory.
pub fn key_bytes(alloc: Global, key: &Key) -> Mem<Vec<u8>>
    requires { IsPlain key.now }
    ensures bytes { IfOk result (λ bytes. bytes.items ≡ key_bytes key.now) }
    // What holds of each key by its type, so that the laws on bytes may be used.
    ensures key { OnOk result (IsKey key.now) }
{
    let mut bytes = Vec::from_slice(alloc, key.pred().as_str().as_bytes())?;
    bytes.push(0)?;
    bytes.push(key.rank())?;
    push_field(&mut bytes, key)?;
    Ok(bytes)
}

// The node, number or token behind the byte of the kind.
fn push_field(bytes: &mut Vec<u8>, key: &Key) -> Mem<()>
    ensures pushed { OnOk result (bytes.new.items ≡ bytes.old.items ++ field_bytes key.now) }
    ensures field { OnOk result (IsField key.now) }
{
    match key {
        Key::Data { s, .. } => push_number(bytes, *s),
        Key::Index { t, .. } => push_token(bytes, t),
        Key::Reverse { o, .. } => push_number(bytes, *o),
        Key::Count { n, .. } => push_number(bytes, *n),
        Key::RCount { n, .. } => push_number(bytes, *n),
    }
}

fn push_number(bytes: &mut Vec<u8>, n: u64) -> Mem<()>
    ensures pushed { OnOk result (bytes.new.items ≡ bytes.old.items ++ to_be_bytes w64 n) }
    ensures fits { OnOk result (n < 2 ^ 64) }
{
    Ok(bytes.extend_from_slice(&n.to_be_bytes())?)
}

fn push_token(bytes: &mut Vec<u8>, token: &IndexToken) -> Mem<()>
    ensures pushed { OnOk result (bytes.new.items ≡ bytes.old.items ++ token_bytes token.now) }
    ensures value { OnOk result (IsValue token.now.value) }
{
    bytes.push(rank(token.tokenizer))?;
    push_value(bytes, &token.value)
}

// The place of a tokenizer among the tokenizers.
fn rank(tokenizer: Tokenizer) -> u8
    ensures { result ≡ tokenizer_rank tokenizer }
{
    tokenizer as u8
}

fn push_value(bytes: &mut Vec<u8>, value: &Value) -> Mem<()>
    ensures pushed { OnOk result (bytes.new.items ≡ bytes.old.items ++ value_bytes value.now) }
    ensures value { OnOk result (IsValue value.now) }
{
    match value {
        Value::Int(n) => push_number(bytes, flipped(*n)),
        Value::Text(text) => Ok(bytes.extend_from_slice(text.as_str().as_bytes())?),
        Value::Bool(b) => Ok(bytes.push(u8::from(*b))?),
        Value::Time(m) => push_moment(bytes, *m),
    }
}

fn push_moment(bytes: &mut Vec<u8>, m: Moment) -> Mem<()>
    ensures pushed { OnOk result (bytes.new.items ≡ bytes.old.items ++ value_bytes (Value.Time m)) }
    ensures moment { OnOk result (IsInstant m) }
{
    push_number(bytes, flipped(m.secs()))?;
    Ok(bytes.extend_from_slice(&m.nanos().to_be_bytes())?)
}

// The bits of a number, of which the highest is flipped: they order as the numbers do.
fn flipped(n: i64) -> u64
    ensures bits { result ≡ flipped n }
    ensures fits { FitsSigned w64 n }
{
    n.cast_unsigned() ^ HIGHEST
}
