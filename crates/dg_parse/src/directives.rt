// Directives, read from tokens.
ghost use Rattle.std.specs.Prelude.{◌≡◌, drop};
ghost use Rattle.dg_text.specs.Cases.{Gives, left_of};
ghost use Rattle.dg_text.specs.Tokens.{toks};
ghost use Rattle.dg_parse.specs.Directives as spec;
ghost use Rattle.dg_parse.specs.Sizes.{AreFew};

use crate::QDir;
use crate::filters::filter_at;
use crate::options::any_options_at;
use crate::tokens::directive_at;
use crate::words::{DirWord, directive_of};
use dg_text::passed::{Passed, mark_at, refuse};
use dg_text::reading::{left, peek};
use dg_text::{Piece, ReadError};
use dg_values::List;
use std::alloc::Global;

/// What is known of the list of nodes that a directive stands on.
#[derive(Clone, Copy, Debug)]
pub struct Owner {
    /// Whether it is a block's.
    pub block: bool,
    /// Whether its block has a function.
    pub has_func: bool,
    /// Whether it stands in the braces of a block with `@recurse`.
    pub recurse: bool,
    /// The place of the `as` in front of the block, or 0.
    pub as_place: usize,
}

/// The directives that were read, and the place of each, or 0.
#[derive(Debug, Drop)]
pub struct Marks {
    /// The directives.
    pub dirs: List<QDir>,
    /// The place of `@filter`.
    pub filtered: usize,
    /// The place of `@cascade`.
    pub cascaded: usize,
    /// The place of `@normalize`.
    pub normalized: usize,
    /// The place of `@recurse`.
    pub recursed: usize,
}

// `@filter`, behind its word.
#[tactic(auto, unfolding(crate::specs::Directives::filter_dir))]
fn filter_dir_at(
    alloc: Global,
    m: Marks,
    place: usize,
    tokens: &[Piece],
    p: Passed,
) -> Result<(Marks, Passed), ReadError>
    requires { AreFew (toks tokens.now) }
    ensures { Gives (λ x. x) (toks tokens.now) result (spec.filter_dir m place (left_of (toks tokens.now) p)) }
{
    let (_, p) = mark_at(tokens, p, b'(')?;
    let (filter, p) = filter_at(alloc, 33, tokens, p)?;
    let (_, p) = mark_at(tokens, p, b')')?;
    let mut dirs = m.dirs;
    dirs.push(QDir::Filter(filter))?;
    Ok((
        Marks {
            dirs,
            filtered: place,
            cascaded: m.cascaded,
            normalized: m.normalized,
            recursed: m.recursed,
        },
        p,
    ))
}

// `@cascade`, behind its word.
#[tactic(auto, unfolding(crate::specs::Directives::cascade_dir))]
fn cascade_dir_at(
    owner: Owner,
    m: Marks,
    place: usize,
    tokens: &[Piece],
    p: Passed,
) -> Result<(Marks, Passed), ReadError>
    ensures { Gives (λ x. x) (toks tokens.now) result (spec.cascade_dir owner m place (left_of (toks tokens.now) p)) }
{
    let p = refuse(p, place, owner.recurse || (m.recursed != 0 && owner.block));
    let mut dirs = m.dirs;
    dirs.push(QDir::Cascade)?;
    Ok((
        Marks {
            dirs,
            filtered: m.filtered,
            cascaded: place,
            normalized: m.normalized,
            recursed: m.recursed,
        },
        p,
    ))
}

// `@normalize`, behind its word.
#[tactic(auto, unfolding(crate::specs::Directives::normalize_dir))]
fn normalize_dir_at(
    owner: Owner,
    m: Marks,
    place: usize,
    tokens: &[Piece],
    p: Passed,
) -> Result<(Marks, Passed), ReadError>
    ensures { Gives (λ x. x) (toks tokens.now) result (spec.normalize_dir owner m place (left_of (toks tokens.now) p)) }
{
    let p = refuse(p, place, !owner.block || m.recursed != 0);
    let mut dirs = m.dirs;
    dirs.push(QDir::Normalize)?;
    Ok((
        Marks {
            dirs,
            filtered: m.filtered,
            cascaded: m.cascaded,
            normalized: place,
            recursed: m.recursed,
        },
        p,
    ))
}

// `@recurse`, behind its word.
#[tactic(auto, unfolding(crate::specs::Directives::recurse_dir))]
fn recurse_dir_at(
    alloc: Global,
    owner: Owner,
    m: Marks,
    place: usize,
    tokens: &[Piece],
    p: Passed,
) -> Result<(Marks, Passed), ReadError>
    ensures { Gives (λ x. x) (toks tokens.now) result (spec.recurse_dir owner m place (left_of (toks tokens.now) p)) }
{
    let p = refuse(p, place, !owner.block);
    let p = refuse(p, owner.as_place, owner.block);
    let p = refuse(p, m.cascaded, owner.block);
    let p = refuse(p, m.normalized, owner.block);
    let (all, p) = any_options_at(alloc, tokens, p)?;
    let mut dirs = m.dirs;
    dirs.push(QDir::Recurse(all))?;
    Ok((
        Marks {
            dirs,
            filtered: m.filtered,
            cascaded: m.cascaded,
            normalized: m.normalized,
            recursed: place,
        },
        p,
    ))
}

// What stands behind the word of a directive.
#[tactic(auto, unfolding(crate::specs::Directives::dir_of))]
fn dir_of_at(
    alloc: Global,
    owner: Owner,
    m: Marks,
    place: usize,
    word: DirWord,
    tokens: &[Piece],
    p: Passed,
) -> Result<(Marks, Passed), ReadError>
    requires { AreFew (toks tokens.now) }
    ensures { Gives (λ x. x) (toks tokens.now) result (spec.dir_of owner m place word (left_of (toks tokens.now) p)) }
{
    match word {
        DirWord::Filter => filter_dir_at(alloc, m, place, tokens, p),
        DirWord::Cascade => cascade_dir_at(owner, m, place, tokens, p),
        DirWord::Normalize => normalize_dir_at(owner, m, place, tokens, p),
        DirWord::Recurse => recurse_dir_at(alloc, owner, m, place, tokens, p),
    }
}

fn is_marked(m: &Marks, word: DirWord) -> bool
    ensures { result ≡ spec.is_marked m.now word }
{
    match word {
        DirWord::Filter => m.filtered != 0,
        DirWord::Cascade => m.cascaded != 0,
        DirWord::Normalize => m.normalized != 0,
        DirWord::Recurse => m.recursed != 0,
    }
}

// The directives before with the next one.
#[tactic(auto, unfolding(crate::specs::Directives::dir))]
fn dir_at(
    alloc: Global,
    owner: Owner,
    m: Marks,
    tokens: &[Piece],
    p: Passed,
) -> Result<(Marks, Passed), ReadError>
    requires { AreFew (toks tokens.now) }
    ensures { Gives (λ x. x) (toks tokens.now) result (spec.dir owner m (left_of (toks tokens.now) p)) }
{
    let place = left(tokens, p.at);
    let (word, p) = directive_at(tokens, p)?;
    let p = refuse(p, place, !owner.has_func || is_marked(&m, word));
    dir_of_at(alloc, owner, m, place, word, tokens, p)
}

// Whether a directive begins at the place.
fn dir_begins(tokens: &[Piece], at: usize) -> bool
    ensures { result ≡ spec.begins_dir (drop at (toks tokens.now)) }
{
    peek(tokens, at).is_some_and(|t| directive_of(t).is_some())
}

// No directive.
fn unmarked(alloc: Global) -> Marks
    ensures { result ≡ spec.unmarked }
{
    Marks {
        dirs: List::new(alloc),
        filtered: 0,
        cascaded: 0,
        normalized: 0,
        recursed: 0,
    }
}

/// All directives from a place on.
#[tactic(auto, using(dg_text::proofs::Turns::goes_on, dg_text::proofs::Turns::ends, dg_text::proofs::Turns::stops, dg_text::proofs::Turns::is_done))]
pub fn dirs_at(
    alloc: Global,
    owner: Owner,
    tokens: &[Piece],
    start: Passed,
) -> Result<(Marks, Passed), ReadError>
    requires { AreFew (toks tokens.now) }
    ensures { Gives (λ x. x) (toks tokens.now) result (spec.all_dirs owner (left_of (toks tokens.now) start)) }
{
    let most = left(tokens, start.at);
    let mut all = unmarked(alloc);
    let mut p = start;
    for _ in 0..most {
        if !dir_begins(tokens, p.at) {
            return Ok((all, p));
        }
        let (more, after) = dir_at(alloc, owner, all, tokens, p)?;
        all = more;
        p = after;
    }
    Ok((all, p))
}
