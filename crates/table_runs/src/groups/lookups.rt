// Look-ups of nodes by what they point to, by tokens and by numbers.
ghost use Rattle.std.specs.Prelude.{◌≡◌};
ghost use Rattle.dg_values.specs.Ascending.{has};
ghost use Rattle.dg_values.specs.Order.{tokenizer_cmp};
ghost use Rattle.dg_graph.specs.Lookups.{has_reverse, has_count, has_numbers, is_indexed_by};
ghost use Rattle.table_runs.specs.Questions.{is_answered};

use crate::groups::counted;
use crate::groups::fault::{Answer, Fault};
use crate::groups::postings::{nodes_text, value};
use crate::groups::words::{number, text, words_of};
use dg_graph::Snapshot;
use dg_tokens::IndexToken;
use dg_values::{OutOfMemory, Str, Tokenizer, Value};
use std::alloc::Global;

// Which nodes are asked for.
#[derive(Drop)]
pub(crate) enum Lookup {
    // Those that point to a node.
    Subjects {
        p: Str,
        o: u64,
    },
    // Those that have an object with a token.
    Token {
        p: Str,
        t: IndexToken,
    },
    // Those that have an object with a token between two values, so far as these are there.
    Range {
        p: Str,
        tokenizer: Tokenizer,
        low: Option<Value>,
        high: Option<Value>,
    },
    // Those that have an object.
    Holders {
        p: Str,
    },
    // Those with so many objects, or to which so many subjects point.
    Count {
        p: Str,
        reverse: bool,
        low: u64,
        high: Option<u64>,
    },
}

// The answer to a look-up that a snapshot answers.
pub(crate) fn answer<S: Snapshot>(
    alloc: Global,
    snap: &S,
    command: &str,
    rest: &str,
) -> Answer<String> {
    let words = words_of(alloc, rest)?;
    let lookup = lookup_of(alloc, command, words.as_slice())?;
    if !is_answered(snap, &lookup) {
        return Err(Fault::Unfit);
    }
    let nodes = counted::nodes(alloc, snap, &lookup)?;
    Ok(nodes_text(alloc, nodes.as_slice())?)
}

// The look-up that a command and its words name.
fn lookup_of(alloc: Global, command: &str, words: &[&str]) -> Answer<Lookup> {
    match command {
        "subjects" => subjects(alloc, words),
        "token" => token(alloc, words),
        "range" => range(alloc, words),
        "holders" => holders(alloc, words),
        "count" => count(alloc, words),
        _ => Err(Fault::Unfit),
    }
}

// A node and a predicate.
fn subjects(alloc: Global, words: &[&str]) -> Answer<Lookup> {
    let [o, p] = *words else {
        return Err(Fault::Unfit);
    };
    let o = number(o)?;
    let p = text(alloc, p)?;
    Ok(Lookup::Subjects { p, o })
}

// A tokenizer, a predicate and what the token says.
fn token(alloc: Global, words: &[&str]) -> Answer<Lookup> {
    let [tokenizer, p, word] = *words else {
        return Err(Fault::Unfit);
    };
    let tokenizer = tokenizer_of(tokenizer)?;
    let value = value(alloc, word)?;
    let p = text(alloc, p)?;
    let t = IndexToken { tokenizer, value };
    Ok(Lookup::Token { p, t })
}

// A tokenizer, a predicate and two ends.
fn range(alloc: Global, words: &[&str]) -> Answer<Lookup> {
    let [tokenizer, p, low, high] = *words else {
        return Err(Fault::Unfit);
    };
    let tokenizer = tokenizer_of(tokenizer)?;
    let low = end_of(alloc, low)?;
    let high = end_of(alloc, high)?;
    let p = text(alloc, p)?;
    Ok(Lookup::Range {
        p,
        tokenizer,
        low,
        high,
    })
}

// A predicate.
fn holders(alloc: Global, words: &[&str]) -> Answer<Lookup> {
    let [p] = *words else {
        return Err(Fault::Unfit);
    };
    let p = text(alloc, p)?;
    Ok(Lookup::Holders { p })
}

// The upper end of numbers, or that there is none.
fn number_end(word: &str) -> Answer<Option<u64>> {
    match word {
        "-" => Ok(None),
        _ => Ok(Some(number(word)?)),
    }
}

// A predicate, after `~` for the subjects that point to a node, and two numbers, of which the second can be left out.
fn count(alloc: Global, words: &[&str]) -> Answer<Lookup> {
    let [p, low, high] = *words else {
        return Err(Fault::Unfit);
    };
    let low = number(low)?;
    let high = number_end(high)?;
    let (p, reverse) = match p.strip_prefix('~') {
        Some(p) => (p, true),
        None => (p, false),
    };
    let p = text(alloc, p)?;
    Ok(Lookup::Count {
        p,
        reverse,
        low,
        high,
    })
}

fn tokenizer_of(word: &str) -> Answer<Tokenizer> {
    match word {
        "exact" => Ok(Tokenizer::Exact),
        "hash" => Ok(Tokenizer::Hash),
        "term" => Ok(Tokenizer::Term),
        "trigram" => Ok(Tokenizer::Trigram),
        "int" => Ok(Tokenizer::Int),
        "bool" => Ok(Tokenizer::Bool),
        "year" => Ok(Tokenizer::Year),
        "month" => Ok(Tokenizer::Month),
        "day" => Ok(Tokenizer::Day),
        "hour" => Ok(Tokenizer::Hour),
        _ => Err(Fault::Unfit),
    }
}

// The end that a word says: `-` for none.
fn end_of(alloc: Global, word: &str) -> Answer<Option<Value>> {
    match word {
        "-" => Ok(None),
        _ => Ok(Some(value(alloc, word)?)),
    }
}

// Whether a tokenizer is one of these.
fn has_tokenizer(tokens: &[Tokenizer], tokenizer: Tokenizer) -> bool
    ensures { result ≡ has tokenizer_cmp tokens.now tokenizer }
{
    tokens.iter().any(|token| token.cmp(&tokenizer).is_eq())
}

// Whether a predicate is declared with an index by this tokenizer.
fn is_indexed<S: Snapshot>(snap: &S, p: &str, tokenizer: Tokenizer) -> bool
    ensures { result ≡ is_indexed_by (S.declared snap.now) p.now tokenizer }
{
    match snap.schema().lookup(p) {
        Some(definition) => has_tokenizer(definition.tokens.as_slice(), tokenizer),
        None => false,
    }
}

// Whether a predicate is declared with lists of the subjects that point to a node.
fn has_reverse<S: Snapshot>(snap: &S, p: &str) -> bool
    ensures { result ≡ has_reverse (S.declared snap.now) p.now }
{
    match snap.schema().lookup(p) {
        Some(definition) => definition.reverse,
        None => false,
    }
}

// Whether a predicate is declared with lists of nodes by their numbers.
fn has_count<S: Snapshot>(snap: &S, p: &str) -> bool
    ensures { result ≡ has_count (S.declared snap.now) p.now }
{
    match snap.schema().lookup(p) {
        Some(definition) => definition.count,
        None => false,
    }
}

// Whether there are lists of nodes by their numbers of objects, or of subjects where `reverse`.
fn has_numbers<S: Snapshot>(snap: &S, p: &str, reverse: bool) -> bool
    ensures { result ≡ has_numbers (S.declared snap.now) p.now reverse }
{
    if reverse {
        has_reverse(snap, p) && has_count(snap, p)
    } else {
        has_count(snap, p)
    }
}

// Whether the schema keeps the lists by which a look-up is answered.
fn is_answered<S: Snapshot>(snap: &S, lookup: &Lookup) -> bool
    ensures { result ≡ is_answered (S.declared snap.now) lookup.now }
{
    match lookup {
        Lookup::Subjects { p, .. } => has_reverse(snap, p.as_str()),
        Lookup::Token { p, t } => is_indexed(snap, p.as_str(), t.tokenizer),
        Lookup::Range { p, tokenizer, .. } => is_indexed(snap, p.as_str(), *tokenizer),
        Lookup::Holders { .. } => true,
        Lookup::Count { p, reverse, .. } => has_numbers(snap, p.as_str(), *reverse),
    }
}
