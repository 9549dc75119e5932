// Arrays of the nodes of a list, made of the rows that these have in a level.
ghost use Rattle.std.specs.Prelude.{◌≡◌, ℕ, ◌+◌, ◌<◌, ◌++◌, ◌∷◌, [], true, false, List, length, map, take, codes, IfOk, OnOk, IsErrOf};
ghost use Rattle.std.specs.Ordering.{nat_cmp};
ghost use Rattle.dg_values.specs.Ascending.{has};
ghost use Rattle.dg_tree.specs.Texts.{array_text, tree_text};
ghost use Rattle.dg_level.specs.Parts.{comma_behind, parts_text, has_parts};
ghost use Rattle.dg_level.specs.Rows.{total, objects_of, array_of, with_fields, AreOfLevel};

use crate::Rows;
use dg_sets::place_of;
use dg_tree::{Tree, TreeFault};
use dg_uids::Uids;
use dg_values::Str;

// The row of a node of this level.
fn row_of<'a>(level: &Uids, below: &'a Rows, node: u64) -> &'a str
    ensures { (f : ℕ → List ℕ) → below.now.rows ≡ map f level.now → has nat_cmp level.now node ≡ true → result.now ≡ f node }
{
    match place_of(level.as_slice(), &node) {
        Ok(place) => below.get(place),
        Err(_) => "",
    }
}

// Whether a row shows something.
fn shows(row: &str) -> bool
    ensures { result ≡ has_parts false (objects_of (row.now ∷ [])) }
{
    !row.is_empty()
}

// Whether any node of a list shows something.
fn shows_any(list: &[u64], level: &Uids, below: &Rows) -> bool
    ensures { (f : ℕ → List ℕ) → below.now.rows ≡ map f level.now → AreOfLevel level.now list.now → result ≡ has_parts false (objects_of (map f list.now)) }
{
    for node in list {
        if shows(row_of(level, below, *node)) {
            return true;
        }
    }
    false
}

// The row of the first node of a list that shows something, or an empty text.
fn first_shown<'a>(list: &[u64], level: &Uids, below: &'a Rows) -> &'a str
    ensures { (f : ℕ → List ℕ) → below.now.rows ≡ map f level.now → AreOfLevel level.now list.now → objects_of (result.now ∷ []) ≡ take 1 (objects_of (map f list.now)) }
{
    for node in list {
        let row = row_of(level, below, *node);
        if shows(row) {
            return row;
        }
    }
    ""
}

// Whether anything stands in an array.
fn has_items(front: &[Str], list: &[u64], level: &Uids, below: &Rows) -> bool
    ensures { (f : ℕ → List ℕ) → below.now.rows ≡ map f level.now → AreOfLevel level.now list.now → result ≡ has_parts false (front.now ++ objects_of (map f list.now)) }
{
    if front.is_empty() {
        return shows_any(list, level, below);
    }
    true
}

/// The comma before a part, where another part stands before it.
pub fn comma_behind(wrote: bool) -> &'static str
    ensures { result.now ≡ comma_behind wrote }
{
    if wrote { "," } else { "" }
}

/// The beginning of an object, where another part stands before it or none.
pub fn opening(wrote: bool) -> &'static str
    ensures { result.now ≡ comma_behind wrote ++ codes "{" }
{
    if wrote { ",{" } else { "{" }
}

impl Rows {
    // Adds a text behind other parts or none.
    fn part(&mut self, wrote: bool, text: &str) -> Result<(), TreeFault>
        ensures ok { OnOk result (self.new.begun ≡ self.old.begun ++ parts_text wrote (text.now ∷ [])) }
        ensures rows { self.new.rows ≡ self.old.rows }
        ensures limit { self.new.limit ≡ self.old.limit }
        ensures too_large { IsErrOf result TreeFault.TooLarge → self.old.limit < total self.old.rows + length (self.old.begun ++ parts_text wrote (text.now ∷ [])) }
    {
        self.mark(comma_behind(wrote))?;
        self.mark(text)
    }

    // Adds texts behind each other. It answers whether there is one.
    fn parts(&mut self, texts: &[Str]) -> Result<bool, TreeFault>
        ensures ok { OnOk result (self.new.begun ≡ self.old.begun ++ parts_text false texts.now) }
        ensures wrote { IfOk result (λ wrote. wrote ≡ has_parts false texts.now) }
        ensures rows { self.new.rows ≡ self.old.rows }
        ensures limit { self.new.limit ≡ self.old.limit }
        ensures too_large { IsErrOf result TreeFault.TooLarge → self.old.limit < total self.old.rows + length (self.old.begun ++ parts_text false texts.now) }
    {
        let mut wrote = false;
        for text in texts {
            self.part(wrote, text.as_str())?;
            wrote = true;
        }
        Ok(wrote)
    }

    // Adds the object of a row that shows something, behind other parts or none. It answers whether a part stands there then.
    fn object(&mut self, wrote: bool, row: &str) -> Result<bool, TreeFault>
        ensures ok { OnOk result (self.new.begun ≡ self.old.begun ++ parts_text wrote (objects_of (row.now ∷ []))) }
        ensures wrote { IfOk result (λ w. w ≡ has_parts wrote (objects_of (row.now ∷ []))) }
        ensures rows { self.new.rows ≡ self.old.rows }
        ensures limit { self.new.limit ≡ self.old.limit }
        ensures too_large { IsErrOf result TreeFault.TooLarge → self.old.limit < total self.old.rows + length (self.old.begun ++ parts_text wrote (objects_of (row.now ∷ []))) }
    {
        if row.is_empty() {
            return Ok(wrote);
        }
        self.mark(opening(wrote))?;
        self.mark(row)?;
        self.mark("}")?;
        Ok(true)
    }

    // Adds the objects of the nodes that show something, behind other parts or none. It answers whether a part stands there
    // then.
    fn objects(
        &mut self,
        before: bool,
        list: &[u64],
        level: &Uids,
        below: &Rows,
    ) -> Result<bool, TreeFault>
        ensures ok { (f : ℕ → List ℕ) → below.now.rows ≡ map f level.now → AreOfLevel level.now list.now → OnOk result (self.new.begun ≡ self.old.begun ++ parts_text before (objects_of (map f list.now))) }
        ensures rows { self.new.rows ≡ self.old.rows }
        ensures limit { self.new.limit ≡ self.old.limit }
        ensures too_large { (f : ℕ → List ℕ) → below.now.rows ≡ map f level.now → AreOfLevel level.now list.now
            → IsErrOf result TreeFault.TooLarge → self.old.limit < total self.old.rows + length (self.old.begun ++ parts_text before (objects_of (map f list.now))) }
    {
        let mut wrote = before;
        for node in list {
            wrote = self.object(wrote, row_of(level, below, *node))?;
        }
        Ok(wrote)
    }

    /// Adds an array: objects in front, and those of the nodes of a list that show something, in its order. The nodes'
    /// rows are found by their places in their level.
    pub fn array(
        &mut self,
        front: &[Str],
        list: &[u64],
        level: &Uids,
        below: &Rows,
    ) -> Result<(), TreeFault>
        ensures ok { (f : ℕ → List ℕ) → below.now.rows ≡ map f level.now → AreOfLevel level.now list.now → OnOk result (self.new.begun ≡ self.old.begun ++ array_text (front.now ++ objects_of (map f list.now))) }
        ensures rows { self.new.rows ≡ self.old.rows }
        ensures limit { self.new.limit ≡ self.old.limit }
        ensures too_large { (f : ℕ → List ℕ) → below.now.rows ≡ map f level.now → AreOfLevel level.now list.now
            → IsErrOf result TreeFault.TooLarge → self.old.limit < total self.old.rows + length (self.old.begun ++ array_text (front.now ++ objects_of (map f list.now))) }
    {
        self.mark("[")?;
        let wrote = self.parts(front)?;
        self.objects(wrote, list, level, below)?;
        self.mark("]")
    }

    /// Adds a field, a tree behind the text of its key.
    pub fn tree_field(&mut self, key: &str, tree: &Tree) -> Result<(), TreeFault>
        ensures ok { OnOk result (self.new.begun ≡ with_fields self.old.begun ((key.now ++ tree_text tree.now) ∷ [])) }
        ensures rows { self.new.rows ≡ self.old.rows }
        ensures limit { self.new.limit ≡ self.old.limit }
        ensures too_large { IsErrOf result TreeFault.TooLarge → self.old.limit < total self.old.rows + length (with_fields self.old.begun ((key.now ++ tree_text tree.now) ∷ [])) }
    {
        self.begin_field(key)?;
        self.tree(tree)
    }

    // Adds the text of a field's key, behind a comma where another field stands before it.
    fn begin_field(&mut self, key: &str) -> Result<(), TreeFault>
        ensures ok { (text : List ℕ) → OnOk result (self.new.begun ++ text ≡ with_fields self.old.begun ((key.now ++ text) ∷ [])) }
        ensures rows { self.new.rows ≡ self.old.rows }
        ensures limit { self.new.limit ≡ self.old.limit }
        ensures too_large { (text : List ℕ) → IsErrOf result TreeFault.TooLarge → self.old.limit < total self.old.rows + length (with_fields self.old.begun ((key.now ++ text) ∷ [])) }
    {
        let comma = comma_behind(!self.is_begun_empty());
        self.mark(comma)?;
        self.mark(key)
    }

    /// Adds a field, an array as `array` makes it behind the text of its key, or nothing where nothing stands in the array.
    pub fn array_field(
        &mut self,
        key: &str,
        front: &[Str],
        list: &[u64],
        level: &Uids,
        below: &Rows,
    ) -> Result<(), TreeFault>
        ensures ok { (f : ℕ → List ℕ) → below.now.rows ≡ map f level.now → AreOfLevel level.now list.now
            → OnOk result (self.new.begun ≡ with_fields self.old.begun (map (λ array. key.now ++ array) (array_of front.now (map f list.now)))) }
        ensures rows { self.new.rows ≡ self.old.rows }
        ensures limit { self.new.limit ≡ self.old.limit }
        ensures too_large { (f : ℕ → List ℕ) → below.now.rows ≡ map f level.now → AreOfLevel level.now list.now
            → IsErrOf result TreeFault.TooLarge → self.old.limit < total self.old.rows + length (with_fields self.old.begun (map (λ array. key.now ++ array) (array_of front.now (map f list.now)))) }
    {
        if !has_items(front, list, level, below) {
            return Ok(());
        }
        self.begin_field(key)?;
        self.array(front, list, level, below)
    }

    /// Adds a field, the object of the first node of a list that shows something behind the text of its key, or nothing
    /// where no node does. The nodes' rows are found as those of an array.
    pub fn object_field(
        &mut self,
        key: &str,
        list: &[u64],
        level: &Uids,
        below: &Rows,
    ) -> Result<(), TreeFault>
        ensures ok { (f : ℕ → List ℕ) → below.now.rows ≡ map f level.now → AreOfLevel level.now list.now
            → OnOk result (self.new.begun ≡ with_fields self.old.begun (map (λ object. key.now ++ object) (take 1 (objects_of (map f list.now))))) }
        ensures rows { self.new.rows ≡ self.old.rows }
        ensures limit { self.new.limit ≡ self.old.limit }
        ensures too_large { (f : ℕ → List ℕ) → below.now.rows ≡ map f level.now → AreOfLevel level.now list.now
            → IsErrOf result TreeFault.TooLarge → self.old.limit < total self.old.rows + length (with_fields self.old.begun (map (λ object. key.now ++ object) (take 1 (objects_of (map f list.now))))) }
    {
        let row = first_shown(list, level, below);
        self.row_field(key, row)
    }

    // Adds a field, the object of a row that shows something behind the text of its key, or nothing.
    fn row_field(&mut self, key: &str, row: &str) -> Result<(), TreeFault>
        ensures ok { OnOk result (self.new.begun ≡ with_fields self.old.begun (map (λ object. key.now ++ object) (objects_of (row.now ∷ [])))) }
        ensures rows { self.new.rows ≡ self.old.rows }
        ensures limit { self.new.limit ≡ self.old.limit }
        ensures too_large { IsErrOf result TreeFault.TooLarge
            → self.old.limit < total self.old.rows + length (with_fields self.old.begun (map (λ object. key.now ++ object) (objects_of (row.now ∷ [])))) }
    {
        if !shows(row) {
            return Ok(());
        }
        self.begin_field(key)?;
        self.object(false, row)?;
        Ok(())
    }
}
