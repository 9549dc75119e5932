// The texts of the nodes of a level.
ghost use Rattle.std.specs.Prelude.{◌≡◌, ◌↔◌, ◌+◌, ◌<◌, ◌≤◌, ◌++◌, ◌∷◌, [], length, take, slice_index_or, IfOk, OnOk, OnErr, IsErrOf, IsTrue};
ghost use Rattle.std.specs.Str.{IsUtf8};
ghost use Rattle.dg_tree.specs.Texts.{key_text, tree_text};
ghost use Rattle.dg_level.specs.Keeping.{last_end};
ghost use Rattle.dg_level.specs.Rows.{total};

use dg_tree::{Tree, TreeFault, push, push_key, push_tree};
use dg_values::{Mem, OutOfMemory, Str};
use std::alloc::Global;
use std::marker::Model;
use std::mem;

// The bytes of a row for which there is room at first, so that a short one doesn't grow in steps.
const ROOM: usize = 64;

/// Texts, one a row, in one buffer, and one more while it is written. All together never pass a limit.
///
/// What is added stands at the end of the row that is begun. `TooLarge` comes exactly where all texts would have more
/// bytes than the limit, and else `OutOfMemory` for want of memory. After an error a front of what was to be added may
/// stand there.
#[derive(Debug, Drop)]
pub struct Rows {
    alloc: Global,
    text: Str,
    ends: Vec<usize>,
    begun: Str,
    limit: usize,
}

impl Model for Rows {
    ghost use Rattle.dg_level.specs.Rows.{Written};
    ghost use Rattle.dg_level.specs.Keeping.{rows_in, AreKept};

    ghost Value = { Written };

    ghost view = { λ kept. record { rows = rows_in kept.text 0 kept.ends.items; begun = kept.begun; limit = kept.limit } };

    ghost invariant = { λ kept. AreKept kept.text kept.ends.items kept.begun kept.limit (rows_in kept.text 0 kept.ends.items) };
}

// Makes a text empty. It keeps its memory.
fn clear(alloc: Global, text: &mut Str)
    ensures { text.new ≡ [] }
{
    let mut string = mem::replace(text, Str::from_string(String::new(alloc))).into_string();
    string.clear();
    *text = Str::from_string(string);
}

// Moves a row behind others. Where there is none the text takes the row's memory, and nothing is copied.
fn move_row(alloc: Global, text: &mut Str, row: &mut Str) -> Mem<()>
    ensures text { OnOk result (text.new ≡ text.old ++ row.old) }
    ensures row { OnOk result (row.new ≡ []) }
    ensures utf8 { IsUtf8 row.old }
    ensures err_text { OnErr result (text.new ≡ text.old) }
    ensures err_row { OnErr result (row.new ≡ row.old) }
{
    if row.as_str().is_empty() {
        return Ok(());
    }
    if text.is_empty() {
        mem::swap(text, row);
        return Ok(());
    }
    text.push_str(row.as_str())?;
    clear(alloc, row);
    Ok(())
}

// Adds a row behind others, which is empty then.
fn end_row(alloc: Global, text: &mut Str, ends: &mut Vec<usize>, row: &mut Str) -> Mem<()>
    ensures text { OnOk result (text.new ≡ text.old ++ row.old) }
    ensures row { OnOk result (row.new ≡ []) }
    ensures utf8 { OnOk result (IsUtf8 row.old) }
    ensures ends { OnOk result (ends.new.items ≡ ends.old.items ++ length (text.old ++ row.old) ∷ []) }
    ensures err_text { OnErr result (text.new ≡ text.old) }
    ensures err_row { OnErr result (row.new ≡ row.old) }
    ensures err_ends { OnErr result (ends.new.items ≡ ends.old.items) }
{
    ends.reserve(1)?;
    move_row(alloc, text, row)?;
    ends.push_reserved(text.len());
    Ok(())
}

// Where the row at a place begins.
fn start_of(ends: &[usize], place: usize) -> usize
    requires { place ≤ length ends.now }
    ensures { result ≡ last_end 0 (take place ends.now) }
{
    if place == 0 { 0 } else { ends[place - 1] }
}

impl Rows {
    /// No row, and none begun. It takes no memory.
    pub fn within(alloc: Global, limit: usize) -> Rows
        ensures { result ≡ record { rows = []; begun = []; limit = limit } }
    {
        Rows {
            alloc,
            text: Str::from_string(String::new(alloc)),
            ends: Vec::new(alloc),
            begun: Str::from_string(String::new(alloc)),
            limit,
        }
    }

    /// The same with room for a short row. The error is want of memory.
    pub fn with_room(alloc: Global, limit: usize) -> Mem<Rows>
        ensures { IfOk result (λ rows. rows ≡ record { rows = []; begun = []; limit = limit }) }
    {
        Ok(Rows {
            alloc,
            text: Str::from_string(String::new(alloc)),
            ends: Vec::new(alloc),
            begun: Str::from_string(String::with_capacity(alloc, ROOM)?),
            limit,
        })
    }

    /// How many bytes all rows have, with the one that is begun.
    pub fn total(&self) -> usize
        ensures bytes { result ≡ total self.now.rows + length self.now.begun }
        ensures within { result ≤ self.now.limit }
    {
        self.text.len() + self.begun.len()
    }

    /// How many rows there are, without the one that is begun.
    pub fn len(&self) -> usize
        ensures { result ≡ length self.now.rows }
    {
        self.ends.len()
    }

    /// The row at a place, from 0 on, or an empty text behind the last.
    pub fn get(&self, place: usize) -> &str
        ensures { result.now ≡ slice_index_or self.now.rows place [] }
    {
        if place >= self.ends.len() {
            return "";
        }
        let from = start_of(self.ends.as_slice(), place);
        let end = start_of(self.ends.as_slice(), place + 1);
        &self.text.as_str()[from..end]
    }

    /// What is written of the row that is begun.
    pub fn begun_text(&self) -> &str
        ensures { result.now ≡ self.now.begun }
    {
        self.begun.as_str()
    }

    /// Whether nothing stands in the row that is begun.
    pub fn is_begun_empty(&self) -> bool
        ensures { IsTrue result ↔ (self.now.begun ≡ []) }
    {
        self.begun.is_empty()
    }

    /// How many bytes the row that is begun may have.
    pub fn room(&self) -> usize
        ensures { result + total self.now.rows ≡ self.now.limit }
    {
        self.limit - self.text.len()
    }

    /// Adds a text as it is.
    pub fn mark(&mut self, text: &str) -> Result<(), TreeFault>
        ensures ok { OnOk result (self.new.begun ≡ self.old.begun ++ text.now) }
        ensures rows { self.new.rows ≡ self.old.rows }
        ensures limit { self.new.limit ≡ self.old.limit }
        ensures too_large { IsErrOf result TreeFault.TooLarge → self.old.limit < total self.old.rows + length (self.old.begun ++ text.now) }
    {
        let room = self.room();
        push(&mut self.begun, room, text)
    }

    /// Adds the key of a field, and its colon.
    pub fn key(&mut self, key: &str) -> Result<(), TreeFault>
        ensures ok { OnOk result (self.new.begun ≡ self.old.begun ++ key_text key.now) }
        ensures rows { self.new.rows ≡ self.old.rows }
        ensures limit { self.new.limit ≡ self.old.limit }
        ensures too_large { IsErrOf result TreeFault.TooLarge → self.old.limit < total self.old.rows + length (self.old.begun ++ key_text key.now) }
    {
        let room = self.room();
        push_key(self.alloc, &mut self.begun, room, key)
    }

    /// Adds a tree.
    pub fn tree(&mut self, tree: &Tree) -> Result<(), TreeFault>
        ensures ok { OnOk result (self.new.begun ≡ self.old.begun ++ tree_text tree.now) }
        ensures rows { self.new.rows ≡ self.old.rows }
        ensures limit { self.new.limit ≡ self.old.limit }
        ensures too_large { IsErrOf result TreeFault.TooLarge → self.old.limit < total self.old.rows + length (self.old.begun ++ tree_text tree.now) }
    {
        let room = self.room();
        push_tree(self.alloc, &mut self.begun, room, tree)
    }

    /// Ends the row that is begun: it is the next one, and another begins. After an error, which is want of memory, all is
    /// as before.
    pub fn close(&mut self) -> Mem<()>
        ensures rows { OnOk result (self.new.rows ≡ self.old.rows ++ self.old.begun ∷ []) }
        ensures begun { OnOk result (self.new.begun ≡ []) }
        ensures limit { self.new.limit ≡ self.old.limit }
        ensures err { OnErr result (self.new ≡ self.old) }
    {
        end_row(self.alloc, &mut self.text, &mut self.ends, &mut self.begun)?;
        Ok(())
    }
}
