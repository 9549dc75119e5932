// Which keys of a predicate a question goes over.
ghost use Rattle.std.specs.Prelude.{◌≡◌, ℕ, true, List, Option, IfOk, IfSome};
ghost use Rattle.std.specs.Ordering.{is_le};
ghost use Rattle.std.specs.declared.cmp.Ordering.TheVariants.{Less};
ghost use Rattle.dg_tokens.specs.declared.tokens.IndexToken.{IndexToken};
ghost use Rattle.dg_keys.specs.Keys.{key_cmp, kind_rank};
ghost use Rattle.dg_keys.specs.declared.key.Key.TheVariants.{Index};
ghost use Rattle.dg_values.specs.Order.{tokenizer_cmp};
ghost use Rattle.dg_values.specs.declared.value.Value.{Value};
ghost use Rattle.dg_txn.specs.declared.span.Over.TheVariants.{Tokens};
ghost use Rattle.dg_txn.specs.Spans as spans;
ghost use Rattle.dg_txn.specs.Spans.{IsStart};

use dg_keys::Key;
use dg_sets::InOrder;
use dg_tokens::IndexToken;
use dg_values::{Mem, Moment, OutOfMemory, Str, Tokenizer, Value, cmp_value};
use std::alloc::Global;
use std::cmp::Ordering;

// The kind of the keys, and between which ends they lie.
#[derive(Drop)]
pub enum Over {
    // The keys of subjects.
    Subjects,
    // The keys of tokens by a tokenizer whose values lie between two, both included; without an end there is no bound there.
    Tokens {
        tokenizer: Tokenizer,
        low: Option<Value>,
        high: Option<Value>,
    },
    // The keys of numbers of objects between two, both included; without an upper end there is no bound there.
    Objects {
        low: u64,
        high: Option<u64>,
    },
    // The keys of numbers of subjects between two in the same way.
    Pointers {
        low: u64,
        high: Option<u64>,
    },
}

// Keys of a predicate, one after another.
#[derive(Drop)]
pub struct Span {
    pub pred: Str,
    pub over: Over,
}

// Where a value at or above the lower end lies.
fn below_end(high: &Option<Value>, v: &Value) -> Ordering
    ensures { result ≡ spans.below_end high.now v.now }
{
    match high {
        None => Ordering::Equal,
        Some(high) => {
            if cmp_value(v, high).is_le() {
                Ordering::Equal
            } else {
                Ordering::Greater
            }
        }
    }
}

// Where a value lies.
fn value_place(low: &Option<Value>, high: &Option<Value>, v: &Value) -> Ordering
    ensures { result ≡ spans.value_place low.now high.now v.now }
{
    match low {
        None => below_end(high, v),
        Some(low) => {
            if cmp_value(low, v).is_le() {
                below_end(high, v)
            } else {
                Ordering::Less
            }
        }
    }
}

// Where a number at or above the lower end lies.
fn number_end(high: Option<u64>, n: u64) -> Ordering
    ensures { result ≡ spans.number_end high n }
{
    match high {
        None => Ordering::Equal,
        Some(high) => {
            if n <= high {
                Ordering::Equal
            } else {
                Ordering::Greater
            }
        }
    }
}

// Where a number lies.
fn number_place(low: u64, high: Option<u64>, n: u64) -> Ordering
    ensures { result ≡ spans.number_place low high n }
{
    if low <= n {
        number_end(high, n)
    } else {
        Ordering::Less
    }
}

impl Over {
    // The place of the kind of the keys among the kinds.
    fn rank(&self) -> u8
        ensures { result ≡ spans.rank_over self.now }
    {
        match self {
            Over::Subjects => 1,
            Over::Tokens { .. } => 2,
            Over::Objects { .. } => 4,
            Over::Pointers { .. } => 5,
        }
    }

    // Where a key of the predicate and the kind lies.
    fn place(&self, key: &Key) -> Ordering
        ensures { result ≡ spans.field_place self.now key.now }
    {
        match (self, key) {
            (
                Over::Tokens {
                    tokenizer,
                    low,
                    high,
                },
                Key::Index { t, .. },
            ) => t
                .tokenizer
                .cmp(tokenizer)
                .then(value_place(low, high, &t.value)),
            (Over::Objects { low, high }, Key::Count { n, .. }) => number_place(*low, *high, *n),
            (Over::Pointers { low, high }, Key::RCount { n, .. }) => number_place(*low, *high, *n),
            (_, _) => Ordering::Equal,
        }
    }
}

// The place of a key's kind among the kinds.
fn rank_of(key: &Key) -> u8
    ensures { result ≡ kind_rank key.now }
{
    match key {
        Key::Data { .. } => 1,
        Key::Index { .. } => 2,
        Key::Reverse { .. } => 3,
        Key::Count { .. } => 4,
        Key::RCount { .. } => 5,
    }
}

// The tokenizer before this one in their order. None for the first.
fn tokenizer_before(tokenizer: Tokenizer) -> Option<Tokenizer>
    ensures { IfSome result (λ before. tokenizer_cmp before tokenizer ≡ Less) }
{
    match tokenizer {
        Tokenizer::Exact => None,
        Tokenizer::Hash => Some(Tokenizer::Exact),
        Tokenizer::Term => Some(Tokenizer::Hash),
        Tokenizer::Trigram => Some(Tokenizer::Term),
        Tokenizer::Int => Some(Tokenizer::Trigram),
        Tokenizer::Bool => Some(Tokenizer::Int),
        Tokenizer::Year => Some(Tokenizer::Bool),
        Tokenizer::Month => Some(Tokenizer::Year),
        Tokenizer::Day => Some(Tokenizer::Month),
        Tokenizer::Hour => Some(Tokenizer::Day),
    }
}

// A key below all that a predicate has by a tokenizer, and at or above all others below these: times are the last values,
// and this is the last of them.
fn before_tokens(pred: Str, tokenizer: Tokenizer) -> Key
    ensures { (p : List ℕ) (t : IndexToken) → p ≡ pred → t.tokenizer ≡ tokenizer → is_le (key_cmp result (Index p t)) ≡ true }
{
    match tokenizer_before(tokenizer) {
        None => Key::Data {
            p: pred,
            s: u64::MAX,
        },
        Some(before) => Key::Index {
            p: pred,
            t: IndexToken {
                tokenizer: before,
                value: Value::Time(Moment::new(253_402_300_799, 999_999_999)),
            },
        },
    }
}

// A key from which on all keys of a tokenizer lie that aren't below the lower end. The error is want of memory.
fn tokens_start(alloc: Global, pred: Str, tokenizer: Tokenizer, low: &Option<Value>) -> Mem<Key>
    ensures { IfOk result (λ start. (high : Option Value) → IsStart (record { pred = pred; over = Tokens tokenizer low.now high }) start) }
{
    match low {
        None => Ok(before_tokens(pred, tokenizer)),
        Some(low) => Ok(Key::Index {
            p: pred,
            t: IndexToken {
                tokenizer,
                value: low.copy(alloc)?,
            },
        }),
    }
}

impl Span {
    // Where a key lies: before the span, in it, or past it.
    pub fn place(&self, key: &Key) -> Ordering
        ensures { result ≡ spans.place self.now key.now }
    {
        key.pred()
            .compare(&self.pred)
            .then(rank_of(key).cmp(&self.over.rank()))
            .then(self.over.place(key))
    }

    // A key from which on all of the span lies. The error is want of memory.
    pub fn start(&self, alloc: Global) -> Mem<Key>
        ensures { IfOk result (λ start. IsStart self.now start) }
    {
        let p = self.pred.copy(alloc)?;
        match &self.over {
            Over::Subjects => Ok(Key::Data { p, s: 0 }),
            Over::Tokens { tokenizer, low, .. } => tokens_start(alloc, p, *tokenizer, low),
            Over::Objects { low, .. } => Ok(Key::Count { p, n: *low }),
            Over::Pointers { low, .. } => Ok(Key::RCount { p, n: *low }),
        }
    }
}
