// Which parts of a plan define variables.
ghost use Rattle.std.specs.Prelude.{◌≡◌, ◌||◌, false, is_some, None};
ghost use Rattle.std.specs.List.{list_any};
ghost use Rattle.dg_level.specs.Defining.{field_defines, item_defines, FieldGivesNothing, InsideGivesNothing, FieldsGiveNothing};

use dg_check::{Field, Item};

/// Whether a variable stands for the whole, or one of the fields defines one, or one in their braces at any depth. Where it is
/// none, nothing is made known.
pub fn defines(var: Option<usize>, fields: &[Field]) -> bool
    ensures exact { result ≡ (is_some var || list_any field_defines fields.now) }
    ensures unset { result ≡ false → var ≡ None }
    ensures nothing { result ≡ false → FieldsGiveNothing fields.now }
{
    var.is_some() || any_defines(fields)
}

// Whether one of the fields does, or one in their braces.
#[cycle(defining)]
fn any_defines(fields: &[Field]) -> bool
    ensures exact { result ≡ list_any field_defines fields.now }
    ensures nothing { result ≡ false → FieldsGiveNothing fields.now }
{
    for field in fields {
        if field_defines(field) {
            return true;
        }
    }
    false
}

// Whether a field or one in its braces does.
#[cycle(defining)]
fn field_defines(field: &Field) -> bool
    ensures exact { result ≡ field_defines field.now }
    ensures nothing { result ≡ false → FieldGivesNothing field.now }
{
    if field.var.is_some() {
        return true;
    }
    item_defines(&field.item)
}

// Whether a field in the braces of an item does.
#[cycle(defining)]
fn item_defines(item: &Item) -> bool
    ensures exact { result ≡ item_defines item.now }
    ensures nothing { result ≡ false → InsideGivesNothing item.now }
{
    match item {
        Item::Plain | Item::Val(_) => false,
        Item::Edge { fields, .. } => any_defines(fields.as_slice()),
    }
}
