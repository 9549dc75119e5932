// Trees put in their places.
ghost use Rattle.std.specs.Prelude.{◌≡◌, ◌<◌, ◌+◌, if◌then◌else◌, Some, None, length, option_to_list};
ghost use Rattle.dg_shape.specs.Moves.{kept_at};

use dg_tree::Tree;

/// Puts a tree that stays behind those that do, and says how many stay then.
pub fn keep(items: &mut [Tree], kept: usize, tree: Option<Tree>) -> usize
    requires { kept < length items.old }
    ensures count { result ≡ kept + length (option_to_list tree) }
    ensures items { items.new ≡ kept_at items.old kept tree }
{
    match tree {
        Some(tree) => {
            items[kept] = tree;
            kept + 1
        }
        None => kept,
    }
}

/// Puts a tree in its place, if there is one, and says whether there is.
pub fn put_back(place: &mut Tree, tree: Option<Tree>) -> bool
    ensures { tree ≡ (if result then Some place.new else None) }
{
    match tree {
        Some(tree) => {
            *place = tree;
            true
        }
        None => false,
    }
}
