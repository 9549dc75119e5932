// Single words, with a blank behind each.
ghost use Rattle.std.specs.Prelude.{◌≡◌, ◌∷◌, [], ◌++◌, flat_map, IfOk, OnOk, codes, if◌then◌else◌, nat_eq, string_bytes};
ghost use Rattle.std.specs.Char.{encode_utf8};
ghost use Rattle.dg_text.specs.Quoting.{quoted_word};
ghost use Rattle.dg_text.specs.Spelling.{flag_text, int_word, name_word, regex_word, slashed, uid_word};
ghost use Rattle.dg_text.specs.Written.{written};
ghost use Rattle.dg_print.specs.Printed.{lit_words};

use dg_text::quoting::quoted;
use dg_values::{Mem, OutOfMemory, Str};
use std::alloc::Global;

/// Adds a Name.
#[tactic(auto, using(crate::proofs::WordsWritten::name_written))]
pub fn push_name(out: &mut Str, name: &str) -> Mem<()>
    ensures { OnOk result (out.new ≡ out.old ++ written (name_word name.now ∷ [])) }
{
    out.push_str(name)?;
    out.push_str(" ")
}

/// Adds a word and an opening bracket.
#[tactic(auto, using(crate::proofs::WordsWritten::opening_written))]
pub fn push_opening(out: &mut Str, word: &str) -> Mem<()>
    ensures { OnOk result (out.new ≡ out.old ++ (word.now ++ codes " ( ")) }
{
    out.push_str(word)?;
    out.push_str(" ( ")
}

/// Adds a word before the item at a place, unless it is the first.
pub fn push_joint(out: &mut Str, word: &str, place: usize) -> Mem<()>
    ensures { OnOk result (out.new ≡ out.old ++ written (if nat_eq place 0 then [] else name_word word.now ∷ [])) }
{
    if place == 0 {
        return Ok(());
    }
    push_name(out, word)
}

/// Adds a node.
#[tactic(auto, using(crate::proofs::WordsWritten::uid_written))]
pub fn push_uid(alloc: Global, out: &mut Str, n: u64) -> Mem<()>
    ensures { OnOk result (out.new ≡ out.old ++ written (uid_word n ∷ [])) }
{
    let text = format!(in alloc; "0x{n:x} ")?;
    out.push_str(text.as_str())
}

/// Adds a number.
#[tactic(auto, using(crate::proofs::WordsWritten::int_written))]
pub fn push_int(alloc: Global, out: &mut Str, n: i64) -> Mem<()>
    ensures { OnOk result (out.new ≡ out.old ++ written (int_word n ∷ [])) }
{
    let text = format!(in alloc; "{n} ")?;
    out.push_str(text.as_str())
}

/// Adds a text between quotes.
#[tactic(auto, using(crate::proofs::WordsWritten::quoted_written))]
pub fn push_quoted(alloc: Global, out: &mut Str, text: &str) -> Mem<()>
    ensures { OnOk result (out.new ≡ out.old ++ written (lit_words text.now)) }
{
    let text = quoted(alloc, text)?;
    out.push_str(text.as_str())?;
    out.push_str(" ")
}

// Adds a character of a pattern, a slash behind a backslash.
#[tactic(auto, using(crate::proofs::Slashed::slash_char, crate::proofs::Slashed::plain_char))]
fn push_slashed_char(out: &mut String, c: char) -> Mem<()>
    ensures { OnOk result (string_bytes out.new ≡ string_bytes out.old ++ slashed (encode_utf8 c)) }
{
    if c == '/' {
        Ok(out.push_str("\\/")?)
    } else {
        Ok(out.push(c)?)
    }
}

// A pattern with a backslash before each slash.
#[tactic(auto, using(crate::proofs::Slashed::one_more, std::proofs::lemmas::Grind::common_steps))]
fn slashed_text(alloc: Global, pattern: &str) -> Mem<Str>
    ensures { IfOk result (λ text. text ≡ slashed pattern.now) }
{
    let mut out = String::new(alloc);
    for c in pattern.chars() {
        push_slashed_char(&mut out, c)?;
    }
    Ok(Str::from_string(out))
}

// The flag of a pattern.
fn flag_text(fold: bool) -> &'static str
    ensures { result.now ≡ flag_text fold }
{
    if fold { "i" } else { "" }
}

/// Adds a pattern.
#[tactic(auto, using(crate::proofs::WordsWritten::regex_written))]
pub fn push_regex(alloc: Global, out: &mut Str, pattern: &str, fold: bool) -> Mem<()>
    ensures { OnOk result (out.new ≡ out.old ++ written (regex_word pattern.now fold ∷ [])) }
{
    let pattern = slashed_text(alloc, pattern)?;
    let flag = flag_text(fold);
    let text = format!(in alloc; "/{pattern}/{flag} ")?;
    out.push_str(text.as_str())
}
