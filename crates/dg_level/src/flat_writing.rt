// Arrays of the flat objects of the nodes of a list.
ghost use Rattle.std.specs.Prelude.{◌≡◌, ℕ, ◌+◌, ◌<◌, ◌++◌, ◌∷◌, [], false, List as Items, length, map, flat_map, IfOk, OnOk, IsErrOf};
ghost use Rattle.std.specs.Arc.{arc_value};
ghost use Rattle.dg_tree.specs.declared.tree.Field.{Field as Pair};
ghost use Rattle.dg_tree.specs.declared.tree.Tree.TheVariants as trees;
ghost use Rattle.dg_tree.specs.Texts.{array_text, tree_text, field_text};
ghost use Rattle.dg_level.specs.Parts.{parts_text, has_parts};
ghost use Rattle.dg_level.specs.Rows.{total, row_text, AreOfLevel};
ghost use Rattle.dg_level.specs.Flats.{flat_texts};

use crate::Rows;
use crate::arrays::{comma_behind, opening};
use crate::flat_rows::{Flats, objects_of};
use crate::flats::Flat;
use dg_tree::{Field, TreeFault};
use dg_uids::Uids;
use std::sync::Arc;

impl Rows {
    // Adds a field behind other parts or none.
    fn field(&mut self, wrote: bool, field: &Field) -> Result<(), TreeFault>
        ensures ok { OnOk result (self.new.begun ≡ self.old.begun ++ parts_text wrote (field_text field.now ∷ [])) }
        ensures rows { self.new.rows ≡ self.old.rows }
        ensures limit { self.new.limit ≡ self.old.limit }
        ensures too_large { IsErrOf result TreeFault.TooLarge → self.old.limit < total self.old.rows + length (self.old.begun ++ parts_text wrote (field_text field.now ∷ [])) }
    {
        self.mark(comma_behind(wrote))?;
        self.key(field.key.as_str())?;
        self.tree(&field.tree)
    }

    // Adds fields behind each other.
    fn fields(&mut self, pairs: &[Arc<Field>]) -> Result<(), TreeFault>
        ensures ok { OnOk result (self.new.begun ≡ self.old.begun ++ row_text (map arc_value pairs.now)) }
        ensures rows { self.new.rows ≡ self.old.rows }
        ensures limit { self.new.limit ≡ self.old.limit }
        ensures too_large { IsErrOf result TreeFault.TooLarge → self.old.limit < total self.old.rows + length (self.old.begun ++ row_text (map arc_value pairs.now)) }
    {
        let mut wrote = false;
        for pair in pairs {
            self.field(wrote, pair)?;
            wrote = true;
        }
        Ok(())
    }

    // Adds a flat object behind other parts or none.
    fn flat(&mut self, wrote: bool, object: &Flat) -> Result<(), TreeFault>
        ensures ok { OnOk result (self.new.begun ≡ self.old.begun ++ parts_text wrote (flat_texts (object.now ∷ []))) }
        ensures rows { self.new.rows ≡ self.old.rows }
        ensures limit { self.new.limit ≡ self.old.limit }
        ensures too_large { IsErrOf result TreeFault.TooLarge → self.old.limit < total self.old.rows + length (self.old.begun ++ parts_text wrote (flat_texts (object.now ∷ []))) }
    {
        self.mark(opening(wrote))?;
        self.fields(object.pairs())?;
        self.mark("}")
    }

    // Adds flat objects behind other parts or none. It answers whether a part stands there then.
    fn flats(&mut self, before: bool, objects: &[Flat]) -> Result<bool, TreeFault>
        ensures ok { OnOk result (self.new.begun ≡ self.old.begun ++ parts_text before (flat_texts objects.now)) }
        ensures wrote { IfOk result (λ wrote. wrote ≡ has_parts before (flat_texts objects.now)) }
        ensures rows { self.new.rows ≡ self.old.rows }
        ensures limit { self.new.limit ≡ self.old.limit }
        ensures too_large { IsErrOf result TreeFault.TooLarge → self.old.limit < total self.old.rows + length (self.old.begun ++ parts_text before (flat_texts objects.now)) }
    {
        let mut wrote = before;
        for object in objects {
            self.flat(wrote, object)?;
            wrote = true;
        }
        Ok(wrote)
    }

    // Adds the flat objects of the nodes of a list behind each other.
    fn flats_of(&mut self, list: &[u64], level: &Uids, below: &[Flats]) -> Result<(), TreeFault>
        ensures ok { (f : ℕ → Items (Items Pair)) → below.now ≡ map f level.now → AreOfLevel level.now list.now
            → OnOk result (self.new.begun ≡ self.old.begun ++ parts_text false (flat_texts (flat_map f list.now))) }
        ensures rows { self.new.rows ≡ self.old.rows }
        ensures limit { self.new.limit ≡ self.old.limit }
        ensures too_large { (f : ℕ → Items (Items Pair)) → below.now ≡ map f level.now → AreOfLevel level.now list.now
            → IsErrOf result TreeFault.TooLarge → self.old.limit < total self.old.rows + length (self.old.begun ++ parts_text false (flat_texts (flat_map f list.now))) }
    {
        let mut wrote = false;
        for node in list {
            wrote = self.flats(wrote, objects_of(level, below, *node))?;
        }
        Ok(())
    }

    /// Adds the array of the flat objects of a list's nodes, in its order. They are found by the nodes' places in their
    /// level.
    pub fn flat_array(
        &mut self,
        list: &[u64],
        level: &Uids,
        below: &[Flats],
    ) -> Result<(), TreeFault>
        ensures ok { (f : ℕ → Items (Items Pair)) → below.now ≡ map f level.now → AreOfLevel level.now list.now
            → OnOk result (self.new.begun ≡ self.old.begun ++ array_text (map tree_text (map trees.Node (flat_map f list.now)))) }
        ensures rows { self.new.rows ≡ self.old.rows }
        ensures limit { self.new.limit ≡ self.old.limit }
        ensures too_large { (f : ℕ → Items (Items Pair)) → below.now ≡ map f level.now → AreOfLevel level.now list.now
            → IsErrOf result TreeFault.TooLarge → self.old.limit < total self.old.rows + length (self.old.begun ++ array_text (map tree_text (map trees.Node (flat_map f list.now)))) }
    {
        self.mark("[")?;
        self.flats_of(list, level, below)?;
        self.mark("]")
    }
}
