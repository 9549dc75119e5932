// The words of queries.
ghost use Rattle.std.specs.Prelude.{◌≡◌};
ghost use Rattle.std.specs.Str.{bytes_eq};
ghost use Rattle.dg_table.specs.Words.{named_in};
ghost use Rattle.dg_text.specs.Tokens.{tok};
ghost use Rattle.dg_parse.specs.Words.{function_words, directive_words, argument_words, aggregate_words, function_meant, comparison_meant, directive_meant, argument_meant, aggregate_meant};

use crate::{AggOp, CmpOp};
use dg_text::Piece;
use dg_text::kinds::{is_a_name, is_an_at};

/// The word of a function.
#[derive(Clone, Copy, Debug, PartialEq, Eq)]
pub enum FuncWord {
    /// `uid`.
    Uid,
    /// `eq`, `le`, `lt`, `ge` or `gt`.
    Cmp(CmpOp),
    /// `between`.
    Between,
    /// `has`.
    Has,
    /// `allofterms`, or else `anyofterms`.
    Terms(bool),
    /// `regexp`.
    Regexp,
    /// `uid_in`.
    UidIn,
}

/// The word of a directive.
#[derive(Clone, Copy, Debug, PartialEq, Eq)]
pub enum DirWord {
    /// `@filter`.
    Filter,
    /// `@cascade`.
    Cascade,
    /// `@normalize`.
    Normalize,
    /// `@recurse`.
    Recurse,
}

/// The word of an argument.
#[derive(Clone, Copy, Debug, PartialEq, Eq)]
pub enum ArgWord {
    /// `first`.
    First,
    /// `offset`.
    Offset,
    /// `after`.
    After,
    /// `orderasc`.
    Asc,
    /// `orderdesc`.
    Desc,
}

// Whether two words are the same.
fn is_word(word: &str, other: &str) -> bool
    ensures { result ≡ bytes_eq word.now other.now }
{
    word == other
}

// The function of a word.
fn function_named(word: &str) -> Option<FuncWord>
    ensures { result ≡ named_in function_words word.now }
{
    if is_word(word, "uid") {
        Some(FuncWord::Uid)
    } else if is_word(word, "eq") {
        Some(FuncWord::Cmp(CmpOp::Eq))
    } else if is_word(word, "le") {
        Some(FuncWord::Cmp(CmpOp::Le))
    } else if is_word(word, "lt") {
        Some(FuncWord::Cmp(CmpOp::Lt))
    } else if is_word(word, "ge") {
        Some(FuncWord::Cmp(CmpOp::Ge))
    } else if is_word(word, "gt") {
        Some(FuncWord::Cmp(CmpOp::Gt))
    } else if is_word(word, "between") {
        Some(FuncWord::Between)
    } else if is_word(word, "has") {
        Some(FuncWord::Has)
    } else if is_word(word, "anyofterms") {
        Some(FuncWord::Terms(false))
    } else if is_word(word, "allofterms") {
        Some(FuncWord::Terms(true))
    } else if is_word(word, "regexp") {
        Some(FuncWord::Regexp)
    } else if is_word(word, "uid_in") {
        Some(FuncWord::UidIn)
    } else {
        None
    }
}

// The directive of a word.
fn directive_named(word: &str) -> Option<DirWord>
    ensures { result ≡ named_in directive_words word.now }
{
    if is_word(word, "@filter") {
        Some(DirWord::Filter)
    } else if is_word(word, "@cascade") {
        Some(DirWord::Cascade)
    } else if is_word(word, "@normalize") {
        Some(DirWord::Normalize)
    } else if is_word(word, "@recurse") {
        Some(DirWord::Recurse)
    } else {
        None
    }
}

// The argument of a word.
fn argument_named(word: &str) -> Option<ArgWord>
    ensures { result ≡ named_in argument_words word.now }
{
    if is_word(word, "first") {
        Some(ArgWord::First)
    } else if is_word(word, "offset") {
        Some(ArgWord::Offset)
    } else if is_word(word, "after") {
        Some(ArgWord::After)
    } else if is_word(word, "orderasc") {
        Some(ArgWord::Asc)
    } else if is_word(word, "orderdesc") {
        Some(ArgWord::Desc)
    } else {
        None
    }
}

// The aggregate of a word.
fn aggregate_named(word: &str) -> Option<AggOp>
    ensures { result ≡ named_in aggregate_words word.now }
{
    if is_word(word, "min") {
        Some(AggOp::Min)
    } else if is_word(word, "max") {
        Some(AggOp::Max)
    } else if is_word(word, "sum") {
        Some(AggOp::Sum)
    } else {
        None
    }
}

/// The function that a token is the word of.
pub fn function_of(token: &Piece) -> Option<FuncWord>
    ensures { result ≡ function_meant (tok token.now) }
{
    if is_a_name(token) {
        function_named(token.text)
    } else {
        None
    }
}

/// The comparison that a token is the word of.
pub fn comparison_of(token: &Piece) -> Option<CmpOp>
    ensures { result ≡ comparison_meant (tok token.now) }
{
    match function_of(token) {
        Some(FuncWord::Cmp(op)) => Some(op),
        _ => None,
    }
}

/// The directive that a token is the word of.
pub fn directive_of(token: &Piece) -> Option<DirWord>
    ensures { result ≡ directive_meant (tok token.now) }
{
    if is_an_at(token) {
        directive_named(token.text)
    } else {
        None
    }
}

/// The argument that a token is the word of.
pub fn argument_of(token: &Piece) -> Option<ArgWord>
    ensures { result ≡ argument_meant (tok token.now) }
{
    if is_a_name(token) {
        argument_named(token.text)
    } else {
        None
    }
}

/// The aggregate that a token is the word of.
pub fn aggregate_of(token: &Piece) -> Option<AggOp>
    ensures { result ≡ aggregate_meant (tok token.now) }
{
    if is_a_name(token) {
        aggregate_named(token.text)
    } else {
        None
    }
}
