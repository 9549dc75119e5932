// Keys read back from their bytes. Memory is taken only once it is known that a key has the bytes.
ghost use Rattle.std.specs.Prelude.{◌≡◌, ◌≢◌, ◌↔◌, ℕ, ◌<◌, ◌^◌, List, [], ◌∷◌, ◌++◌, false, true, Err, IfOk, IfSome, IsTrue, length, ◌==◌, MatchOption, MatchResult, IsUtf8};
ghost use Rattle.std.specs.Int.{w32, w64, to_be_bytes, from_bool};
ghost use Rattle.std.specs.Int.RustNames.{FitsSigned};
ghost use Rattle.std.specs.List.{position};
ghost use Rattle.dg_values.specs.declared.value.Value.{Value};
ghost use Rattle.dg_values.specs.Instant.{IsInstant};
ghost use Rattle.dg_values.specs.Order.{tokenizer_rank};
ghost use Rattle.dg_keys.specs.declared.key.Key.{Key};
ghost use Rattle.dg_keys.specs.declared.key_fault.KeyFault.TheVariants as faults;
ghost use Rattle.dg_keys.specs.Keys.{pred_of, kind_rank};
ghost use Rattle.dg_keys.specs.KeyBytes.{flipped, value_bytes, token_bytes, field_bytes, is_of_kind, has_kind, has_zero, IsValue, IsField, IsKey, key_bytes};
ghost use Rattle.dg_keys.specs.KeyReading.{Finds, Reads};

use crate::writing::HIGHEST;
use crate::{Key, KeyFault};
use dg_tokens::IndexToken;
use dg_values::{Moment, Str, Tokenizer, Value};
use std::alloc::Global;
use std::str;

// The first second of the year 0000.
const FIRST_SECOND: i64 = -62_167_219_200;

// The last second of the year 9999.
const LAST_SECOND: i64 = 253_402_300_799;

// How many nanoseconds a second has.
const SECOND: u32 = 1_000_000_000;

/// The key that has these bytes, of those that [`crate::key_bytes`] may be asked for.
///
/// # Errors
///
/// `NoKey` exactly where no such key has the bytes. Memory is wanting only where one has them.
pub fn read_key(alloc: Global, bytes: &[u8]) -> Result<Key, KeyFault>
    // The key has the bytes.
    ensures found { IfOk result (λ key. IsKey key × (key_bytes key ≡ bytes.now)) }
    // There is none exactly where no key has them.
    ensures none { (result ≡ Err faults.NoKey) ↔ ((key : Key) → IsKey key → key_bytes key ≢ bytes.now) }
    // A key's bytes are read as that key.
    ensures back { (key : Key) → IsKey key → key_bytes key ≡ bytes.now → IfOk result (λ read. read ≡ key) }
{
    key_of(alloc, bytes)
}

fn key_of(alloc: Global, bytes: &[u8]) -> Result<Key, KeyFault>
    ensures { Reads IsKey key_bytes bytes.now result }
{
    match around_zero(bytes) {
        Some((front, behind)) => read_field(alloc, read_text(front)?, behind),
        None => Err(KeyFault::NoKey),
    }
}

// The place of the first zero byte.
fn first_zero(bytes: &[u8]) -> Option<usize>
    ensures place { result ≡ position (λ b. b == 0) bytes.now }
    ensures within { IfSome result (λ at. at < length bytes.now) }
{
    bytes.iter().position(|b| *b == 0)
}

// The bytes before the first zero byte, and those behind it.
fn around_zero(bytes: &[u8]) -> Option<(&[u8], &[u8])>
    ensures { MatchOption result (has_zero bytes.now ≡ false) (λ x. (has_zero x.0.now ≡ false) × (bytes.now ≡ x.0.now ++ 0 ∷ x.1.now)) }
{
    match first_zero(bytes) {
        Some(at) => {
            let (front, _) = bytes.split_at(at);
            let (_, behind) = bytes.split_at(at + 1);
            Some((front, behind))
        }
        None => None,
    }
}

fn read_text(bytes: &[u8]) -> Result<&str, KeyFault>
    ensures { MatchResult result (λ text. (text.now ≡ bytes.now) × IsUtf8 bytes.now) (λ fault. (fault ≡ faults.NoKey) × (IsUtf8 bytes.now → ⊥)) }
{
    match str::from_utf8(bytes) {
        Ok(text) => Ok(text),
        Err(_) => Err(KeyFault::NoKey),
    }
}

// The key of a predicate by its kind, and its node, number or token.
fn read_field(alloc: Global, pred: &str, bytes: &[u8]) -> Result<Key, KeyFault>
    ensures { Reads (λ key. (pred_of key ≡ pred.now) × (has_kind key ≡ true) × IsField key) (λ key. kind_rank key ∷ field_bytes key) bytes.now result }
{
    match bytes {
        [1, rest @ ..] => {
            let s = read_number(rest)?;
            let p = Str::from_str(alloc, pred)?;
            Ok(Key::Data { p, s })
        }
        [2, rest @ ..] => {
            let t = read_token(alloc, rest)?;
            let p = Str::from_str(alloc, pred)?;
            Ok(Key::Index { p, t })
        }
        [3, rest @ ..] => {
            let o = read_number(rest)?;
            let p = Str::from_str(alloc, pred)?;
            Ok(Key::Reverse { p, o })
        }
        [4, rest @ ..] => {
            let n = read_number(rest)?;
            let p = Str::from_str(alloc, pred)?;
            Ok(Key::Count { p, n })
        }
        [5, rest @ ..] => {
            let n = read_number(rest)?;
            let p = Str::from_str(alloc, pred)?;
            Ok(Key::RCount { p, n })
        }
        _ => Err(KeyFault::NoKey),
    }
}

fn read_number(bytes: &[u8]) -> Result<u64, KeyFault>
    ensures { Finds (λ n. n < 2 ^ 64) (λ n. to_be_bytes w64 n) bytes.now result }
{
    match *bytes {
        [a, b, c, d, e, f, g, h] => Ok(u64::from_be_bytes([a, b, c, d, e, f, g, h])),
        _ => Err(KeyFault::NoKey),
    }
}

fn read_nanos(bytes: &[u8]) -> Result<u32, KeyFault>
    ensures { Finds (λ n. n < 2 ^ 32) (λ n. to_be_bytes w32 n) bytes.now result }
{
    match *bytes {
        [a, b, c, d] => Ok(u32::from_be_bytes([a, b, c, d])),
        _ => Err(KeyFault::NoKey),
    }
}

fn read_token(alloc: Global, bytes: &[u8]) -> Result<IndexToken, KeyFault>
    ensures { Reads (λ t. (is_of_kind t.tokenizer t.value ≡ true) × IsValue t.value) token_bytes bytes.now result }
{
    match bytes {
        [first, rest @ ..] => {
            let tokenizer = read_tokenizer(*first)?;
            let value = read_value(alloc, tokenizer, rest)?;
            Ok(IndexToken { tokenizer, value })
        }
        [] => Err(KeyFault::NoKey),
    }
}

// The tokenizer at a place among the tokenizers.
fn read_tokenizer(place: u8) -> Result<Tokenizer, KeyFault>
    ensures { MatchResult result (λ tokenizer. tokenizer_rank tokenizer ≡ place) (λ fault. (fault ≡ faults.NoKey) × (9 < place)) }
{
    match place {
        0 => Ok(Tokenizer::Exact),
        1 => Ok(Tokenizer::Hash),
        2 => Ok(Tokenizer::Term),
        3 => Ok(Tokenizer::Trigram),
        4 => Ok(Tokenizer::Int),
        5 => Ok(Tokenizer::Bool),
        6 => Ok(Tokenizer::Year),
        7 => Ok(Tokenizer::Month),
        8 => Ok(Tokenizer::Day),
        9 => Ok(Tokenizer::Hour),
        _ => Err(KeyFault::NoKey),
    }
}

fn read_value(alloc: Global, tokenizer: Tokenizer, bytes: &[u8]) -> Result<Value, KeyFault>
    ensures { Reads (λ value. (is_of_kind tokenizer value ≡ true) × IsValue value) value_bytes bytes.now result }
{
    match tokenizer {
        Tokenizer::Exact | Tokenizer::Hash | Tokenizer::Term | Tokenizer::Trigram => {
            let text = read_text(bytes)?;
            Ok(Value::Text(Str::from_str(alloc, text)?))
        }
        Tokenizer::Int => Ok(Value::Int(read_int(bytes)?)),
        Tokenizer::Bool => Ok(Value::Bool(read_truth(bytes)?)),
        Tokenizer::Year | Tokenizer::Month | Tokenizer::Day | Tokenizer::Hour => {
            Ok(Value::Time(read_moment(bytes)?))
        }
    }
}

fn read_int(bytes: &[u8]) -> Result<i64, KeyFault>
    ensures { Finds (λ n. FitsSigned w64 n) (λ n. to_be_bytes w64 (flipped n)) bytes.now result }
{
    let bits = read_number(bytes)?;
    Ok((bits ^ HIGHEST).cast_signed())
}

fn read_truth(bytes: &[u8]) -> Result<bool, KeyFault>
    ensures { Finds (λ b. Unit {0}) (λ b. from_bool b ∷ []) bytes.now result }
{
    match *bytes {
        [0] => Ok(false),
        [1] => Ok(true),
        _ => Err(KeyFault::NoKey),
    }
}

fn read_moment(bytes: &[u8]) -> Result<Moment, KeyFault>
    ensures { Finds (λ m. IsInstant m) (λ m. value_bytes (Value.Time m)) bytes.now result }
{
    if bytes.len() != 12 {
        return Err(KeyFault::NoKey);
    }
    let (front, behind) = bytes.split_at(8);
    let secs = read_int(front)?;
    let nanos = read_nanos(behind)?;
    if !is_moment(secs, nanos) {
        return Err(KeyFault::NoKey);
    }
    Ok(Moment::new(secs, nanos))
}

fn is_moment(secs: i64, nanos: u32) -> bool
    ensures { IsTrue result ↔ IsInstant (record { secs = secs; nanos = nanos }) }
{
    FIRST_SECOND <= secs && secs <= LAST_SECOND && nanos < SECOND
}
