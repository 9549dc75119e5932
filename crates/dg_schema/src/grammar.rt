// The schema language, read from tokens. A place is the index of a token.
ghost use Rattle.std.specs.Prelude.{◌≡◌, false, drop, [], ◌∷◌, ◌++◌, IfOk, IfErr};
ghost use Rattle.dg_text.specs.declared.reading.ReadError.TheVariants as errors;
ghost use Rattle.dg_text.specs.Reading.{Gives, one_as, next, repeated, optional};
ghost use Rattle.dg_text.specs.Tokens.{toks, is_at, is_punct};
ghost use Rattle.dg_schema.specs.Words.{kind_meant, tokenizer_meant, directive_meant};
ghost use Rattle.dg_schema.specs.Definitions.{is_declared};
ghost use Rattle.dg_text.specs.Marks.{open_round, comma};
ghost use Rattle.dg_schema.specs.Grammar.{define, stated, statement, statements, begins_statement, unmarked, scalar, list_type, type_of, comma_tokenizer, tokenizers, index, directive};

use crate::checks::{definition_of, may_follow};
use crate::draft::Draft;
use crate::statement::{Marks, Shape, Statement};
use crate::words::{Directive, Words};
use dg_text::choices::{next_is_at, next_is_punct};
use dg_text::kinds::{is_a_name, is_an_iri};
use dg_text::reading::{left, one_at, peek};
use dg_text::single::{predicate_at, punct};
use dg_text::texts::owned;
use dg_text::{Piece, ReadError};
use dg_values::{Kind, List, OutOfMemory, Tokenizer};
use std::alloc::Global;

// The kind that the next token names, and the place behind it.
fn kind_at(words: &Words, tokens: &[Piece], at: usize) -> Result<(Kind, usize), ReadError>
    ensures { Gives (λ kind. kind) (toks tokens.now) result (one_as kind_meant (drop at (toks tokens.now))) }
{
    one_at(tokens, at, |t| words.kind_of(t))
}

// The tokenizer that the next token names, and the place behind it.
fn tokenizer_at(words: &Words, tokens: &[Piece], at: usize) -> Result<(Tokenizer, usize), ReadError>
    ensures { Gives (λ tokenizer. tokenizer) (toks tokens.now) result (one_as tokenizer_meant (drop at (toks tokens.now))) }
{
    one_at(tokens, at, |t| words.tokenizer_of(t))
}

// The directive that the next token is, and the place behind it.
fn directive_word_at(
    words: &Words,
    tokens: &[Piece],
    at: usize,
) -> Result<(Directive, usize), ReadError>
    ensures { Gives (λ word. word) (toks tokens.now) result (one_as directive_meant (drop at (toks tokens.now))) }
{
    one_at(tokens, at, |t| words.directive_of(t))
}

// A scalar, which may stand in a list.
fn scalar_at(
    list: bool,
    words: &Words,
    tokens: &[Piece],
    at: usize,
) -> Result<(Shape, usize), ReadError>
    ensures { Gives (λ shape. shape) (toks tokens.now) result (scalar list (drop at (toks tokens.now))) }
{
    let (kind, at) = kind_at(words, tokens, at)?;
    Ok((Shape { kind, list }, at))
}

// A scalar between `[` and `]`.
#[tactic(auto, unfolding(crate::specs::Grammar::list_type))]
fn list_type_at(words: &Words, tokens: &[Piece], at: usize) -> Result<(Shape, usize), ReadError>
    ensures { Gives (λ shape. shape) (toks tokens.now) result (list_type (drop at (toks tokens.now))) }
{
    let (_, at) = punct(tokens, at, b'[')?;
    let (shape, at) = scalar_at(true, words, tokens, at)?;
    let (_, at) = punct(tokens, at, b']')?;
    Ok((shape, at))
}

// A type, by whether `[` comes next.
#[tactic(auto, unfolding(crate::specs::Grammar::type_of))]
fn type_at(words: &Words, tokens: &[Piece], at: usize) -> Result<(Shape, usize), ReadError>
    ensures { Gives (λ shape. shape) (toks tokens.now) result (type_of (drop at (toks tokens.now))) }
{
    if next_is_punct(tokens, at, b'[') {
        list_type_at(words, tokens, at)
    } else {
        scalar_at(false, words, tokens, at)
    }
}

// The tokenizers before with the one behind a comma.
#[tactic(auto, unfolding(crate::specs::Grammar::comma_tokenizer))]
fn comma_tokenizer_at(
    mut before: List<Tokenizer>,
    words: &Words,
    tokens: &[Piece],
    at: usize,
) -> Result<(List<Tokenizer>, usize), ReadError>
    ensures { Gives (λ listed. listed) (toks tokens.now) result (comma_tokenizer before (drop at (toks tokens.now))) }
{
    let (_, at) = punct(tokens, at, b',')?;
    let (tokenizer, at) = tokenizer_at(words, tokens, at)?;
    before.push(tokenizer)?;
    Ok((before, at))
}

// The first tokenizer and those behind commas.
#[tactic(auto, using(dg_text::proofs::Turns::goes_on, dg_text::proofs::Turns::ends, dg_text::proofs::Turns::stops, dg_text::proofs::Turns::is_done))]
fn more_tokenizers_at(
    first: List<Tokenizer>,
    words: &Words,
    tokens: &[Piece],
    start: usize,
) -> Result<(List<Tokenizer>, usize), ReadError>
    ensures { Gives (λ listed. listed) (toks tokens.now) result (repeated (next (is_punct comma)) comma_tokenizer first (drop start (toks tokens.now))) }
{
    let most = left(tokens, start);
    let mut all = first;
    let mut at = start;
    for _ in 0..most {
        if !next_is_punct(tokens, at, b',') {
            return Ok((all, at));
        }
        let (more, after) = comma_tokenizer_at(all, words, tokens, at)?;
        all = more;
        at = after;
    }
    Ok((all, at))
}

// Tokenizers between `(` and `)`.
#[tactic(auto, unfolding(crate::specs::Grammar::tokenizers))]
fn tokenizers_at(
    alloc: Global,
    words: &Words,
    tokens: &[Piece],
    at: usize,
) -> Result<(List<Tokenizer>, usize), ReadError>
    ensures { Gives (λ listed. listed) (toks tokens.now) result (tokenizers (drop at (toks tokens.now))) }
{
    let (_, at) = punct(tokens, at, b'(')?;
    let (first, at) = tokenizer_at(words, tokens, at)?;
    let mut all = List::new(alloc);
    all.push(first)?;
    let (all, at) = more_tokenizers_at(all, words, tokens, at)?;
    let (_, at) = punct(tokens, at, b')')?;
    Ok((all, at))
}

// The list behind `@index`; none where there is no `(`.
fn listed_at(
    alloc: Global,
    words: &Words,
    tokens: &[Piece],
    at: usize,
) -> Result<(List<Tokenizer>, usize), ReadError>
    ensures { Gives (λ listed. listed) (toks tokens.now) result (optional (next (is_punct open_round)) tokenizers [] (drop at (toks tokens.now))) }
{
    if next_is_punct(tokens, at, b'(') {
        tokenizers_at(alloc, words, tokens, at)
    } else {
        Ok((List::new(alloc), at))
    }
}

// What the directives say with this `@index`.
#[tactic(auto, unfolding(crate::specs::Grammar::index))]
fn index_at(
    alloc: Global,
    mut marks: Marks,
    words: &Words,
    tokens: &[Piece],
    at: usize,
) -> Result<(Marks, usize), ReadError>
    ensures { Gives (λ marks. marks) (toks tokens.now) result (index marks (drop at (toks tokens.now))) }
{
    let (listed, at) = listed_at(alloc, words, tokens, at)?;
    marks.tokens = listed;
    marks.twice = marks.twice || marks.indexed;
    marks.indexed = true;
    Ok((marks, at))
}

// What the directives say with the next one.
#[tactic(auto, unfolding(crate::specs::Grammar::directive))]
fn directive_at(
    alloc: Global,
    mut marks: Marks,
    words: &Words,
    tokens: &[Piece],
    at: usize,
) -> Result<(Marks, usize), ReadError>
    ensures { Gives (λ marks. marks) (toks tokens.now) result (directive marks (drop at (toks tokens.now))) }
{
    let (word, at) = directive_word_at(words, tokens, at)?;
    match word {
        Directive::Index => return index_at(alloc, marks, words, tokens, at),
        Directive::Reverse => {
            marks.twice = marks.twice || marks.reverse;
            marks.reverse = true;
        }
        Directive::Count => {
            marks.twice = marks.twice || marks.count;
            marks.count = true;
        }
        Directive::Upsert => {
            marks.twice = marks.twice || marks.upsert;
            marks.upsert = true;
        }
    }
    Ok((marks, at))
}

// What all directives of a statement say.
#[tactic(auto, using(dg_text::proofs::Turns::goes_on, dg_text::proofs::Turns::ends, dg_text::proofs::Turns::stops, dg_text::proofs::Turns::is_done))]
fn directives_at(
    alloc: Global,
    words: &Words,
    tokens: &[Piece],
    start: usize,
) -> Result<(Marks, usize), ReadError>
    ensures { Gives (λ marks. marks) (toks tokens.now) result (repeated (next is_at) directive unmarked (drop start (toks tokens.now))) }
{
    let most = left(tokens, start);
    let mut marks = Marks {
        indexed: false,
        tokens: List::new(alloc),
        reverse: false,
        count: false,
        upsert: false,
        twice: false,
    };
    let mut at = start;
    for _ in 0..most {
        if !next_is_at(tokens, at) {
            return Ok((marks, at));
        }
        let (more, after) = directive_at(alloc, marks, words, tokens, at)?;
        marks = more;
        at = after;
    }
    Ok((marks, at))
}

// A statement up to its point.
#[tactic(auto, unfolding(crate::specs::Grammar::stated))]
fn stated_at(
    alloc: Global,
    words: &Words,
    tokens: &[Piece],
    start: usize,
) -> Result<(Statement, usize), ReadError>
    ensures { Gives (λ statement. statement) (toks tokens.now) result (stated (drop start (toks tokens.now))) }
{
    let place = left(tokens, start);
    let (name, at) = predicate_at(tokens, start)?;
    let (_, at) = punct(tokens, at, b':')?;
    let (shape, at) = type_at(words, tokens, at)?;
    let (marks, at) = directives_at(alloc, words, tokens, at)?;
    let (_, at) = punct(tokens, at, b'.')?;
    let name = owned(alloc, name)?;
    Ok((
        Statement {
            place,
            name,
            shape,
            marks,
        },
        at,
    ))
}

// The definitions with that of a statement whose name isn't declared.
fn declare(mut earlier: Draft, statement: Statement) -> Result<Draft, ReadError>
    requires missing { is_declared earlier statement.name ≡ false }
    ensures made { IfOk result (λ all. all ≡ earlier ++ define statement ∷ []) }
    ensures memory { IfErr result (λ e. e ≡ errors.OutOfMemory) }
{
    let definition = definition_of(statement)?;
    match earlier.add(definition) {
        Ok(()) => Ok(earlier),
        Err(OutOfMemory) => Err(ReadError::OutOfMemory),
    }
}

// The earlier statements with the next one.
#[tactic(auto, unfolding(crate::specs::Grammar::statement))]
fn statement_at(
    alloc: Global,
    earlier: Draft,
    words: &Words,
    tokens: &[Piece],
    start: usize,
) -> Result<(Draft, usize), ReadError>
    ensures { Gives (λ all. all) (toks tokens.now) result (statement earlier (drop start (toks tokens.now))) }
{
    let (next, at) = stated_at(alloc, words, tokens, start)?;
    if !may_follow(&earlier, &next) {
        return Err(ReadError::Fault { left: next.place });
    }
    let all = declare(earlier, next)?;
    Ok((all, at))
}

// Whether a statement begins at the place.
fn statement_begins(tokens: &[Piece], at: usize) -> bool
    ensures { result ≡ begins_statement (drop at (toks tokens.now)) }
{
    peek(tokens, at).is_some_and(|t| is_a_name(t) || is_an_iri(t))
}

/// The definitions that the statements from a place on make, up to the first token that begins none, and its place.
#[tactic(auto, using(dg_text::proofs::Turns::goes_on, dg_text::proofs::Turns::ends, dg_text::proofs::Turns::stops, dg_text::proofs::Turns::is_done))]
pub fn statements_at(
    alloc: Global,
    words: &Words,
    tokens: &[Piece],
    start: usize,
) -> Result<(Draft, usize), ReadError>
    ensures { Gives (λ all. all) (toks tokens.now) result (statements (drop start (toks tokens.now))) }
{
    let most = left(tokens, start);
    let mut all = Draft::new(alloc);
    let mut at = start;
    for _ in 0..most {
        if !statement_begins(tokens, at) {
            return Ok((all, at));
        }
        let (more, after) = statement_at(alloc, all, words, tokens, at)?;
        all = more;
        at = after;
    }
    Ok((all, at))
}
