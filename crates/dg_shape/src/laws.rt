// What cascade and strip do with a node of a whole tree, field by field.
ghost use Rattle.dg_shape.specs.Whole.{IsShownByField, IsCutByField};

/// Of a node of a whole tree, what is left of each field is shown under its key, whatever the others have.
pub fn nodes_are_shown_by_field()
    ensures { IsShownByField }
{}

/// A node of a whole tree remains in a cascade with what remains of each field, exactly where something does of each but
/// the numbers of nodes.
pub fn nodes_are_cut_by_field()
    ensures { IsCutByField }
{}
