// An answer while it is written, and the text of a whole one.
ghost use Rattle.std.specs.Prelude.{◌≡◌, ◌≤◌, ◌<◌, ◌++◌, [], length, map, string_bytes, IfOk, OnOk, IsErrOf};
ghost use Rattle.dg_tree.specs.Texts.{object_text, key_text, tree_text, field_text, answer_text};

use crate::text::{push, push_key, push_object, push_tree};
use crate::{Field, Tree, TreeFault};
use dg_values::{Mem, OutOfMemory, Str};
use std::alloc::Global;
use std::marker::Model;

// The bytes that an answer may have.
const MOST: usize = 16_777_216;

// The bytes for which there is room at first, so that a short answer doesn't grow in steps.
const FIRST: usize = 256;

/// The text of an answer while it is written, which contracts see as its bytes. It has at most 16,777,216 of them.
///
/// What is added stands at the end. `TooLarge` comes exactly where the text would have more bytes than that, and else
/// `OutOfMemory` for want of memory. After an error a front of what was to be added may stand there.
#[derive(Debug, Drop)]
pub struct AnswerText {
    alloc: Global,
    text: Str,
}

impl Model for AnswerText {
    ghost use Rattle.std.specs.Prelude.{ℕ, List, ◌≤◌, length};

    ghost Value = { List ℕ };

    ghost view = { λ answer. answer.text };

    ghost invariant = { λ answer. length answer.text ≤ 16777216 };
}

impl AnswerText {
    /// No text. The error is want of memory.
    pub fn new(alloc: Global) -> Mem<AnswerText>
        ensures { IfOk result (λ answer. answer ≡ []) }
    {
        let text = Str::from_string(String::with_capacity(alloc, FIRST)?);
        Ok(AnswerText { alloc, text })
    }

    /// Adds what stands between trees and fields: a bracket, a comma.
    pub fn mark(&mut self, mark: &str) -> Result<(), TreeFault>
        ensures ok { OnOk result (self.new ≡ self.old ++ mark.now) }
        ensures too_large { IsErrOf result TreeFault.TooLarge → 16777216 < length (self.old ++ mark.now) }
    {
        push(&mut self.text, MOST, mark)
    }

    /// Adds the key of a field, and its colon.
    pub fn key(&mut self, key: &str) -> Result<(), TreeFault>
        ensures ok { OnOk result (self.new ≡ self.old ++ key_text key.now) }
        ensures too_large { IsErrOf result TreeFault.TooLarge → 16777216 < length (self.old ++ key_text key.now) }
    {
        push_key(self.alloc, &mut self.text, MOST, key)
    }

    /// Adds a tree.
    pub fn tree(&mut self, tree: &Tree) -> Result<(), TreeFault>
        ensures ok { OnOk result (self.new ≡ self.old ++ tree_text tree.now) }
        ensures too_large { IsErrOf result TreeFault.TooLarge → 16777216 < length (self.old ++ tree_text tree.now) }
    {
        push_tree(self.alloc, &mut self.text, MOST, tree)
    }

    /// Adds an object of fields.
    pub fn object(&mut self, fields: &[Field]) -> Result<(), TreeFault>
        ensures ok { OnOk result (self.new ≡ self.old ++ object_text (map field_text fields.now)) }
        ensures too_large { IsErrOf result TreeFault.TooLarge → 16777216 < length (self.old ++ object_text (map field_text fields.now)) }
    {
        push_object(self.alloc, &mut self.text, MOST, fields)
    }

    /// The text. It takes no memory.
    pub fn into_string(self) -> String
        ensures text { string_bytes result ≡ self }
        ensures within { length (string_bytes result) ≤ 16777216 }
    {
        let AnswerText { text, .. } = self;
        text.into_string()
    }
}

/// The text of an answer: `{"data":`, the object of the blocks, and `}`.
///
/// An object is its fields and an array its trees, in order, with a comma between any two and no blanks. Keys and
/// texts are written as strings of JSON.
///
/// It is for trees of any depth, and each level costs stack, here and where the tree is let go: two calls for an array
/// and three for a node, less than 3 KiB in a plain build, so that 8 MiB hold 3,000 levels. Queries nest at most 32
/// brackets and recursion goes at most 32 levels, so their answers are far from that.
///
/// # Errors
///
/// `TooLarge` comes exactly where the text has more than 16,777,216 bytes, and else `OutOfMemory` for want of memory.
pub fn answer_text(alloc: Global, blocks: &[Field]) -> Result<String, TreeFault>
    ensures text { IfOk result (λ text. string_bytes text ≡ answer_text blocks.now) }
    ensures within { IfOk result (λ text. length (string_bytes text) ≤ 16777216) }
    ensures too_large { IsErrOf result TreeFault.TooLarge → 16777216 < length (answer_text blocks.now) }
{
    let mut answer = AnswerText::new(alloc)?;
    answer.mark("{\"data\":")?;
    answer.object(blocks)?;
    answer.mark("}")?;
    Ok(answer.into_string())
}
