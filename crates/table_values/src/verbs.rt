// A rule that is proved over a whole table: how many arguments each verb takes.
ghost use Rattle.std.specs.Prelude.{◌≡◌, IfSome};
ghost use Rattle.std.specs.List.{AllPass};
ghost use Rattle.table_values.specs.Verbs.{argument_count, is_counted};

use dg_table::{Table, rows};

// How many arguments each verb takes, by its code.
const COUNTS: [u8; 17] = [1, 1, 2, 2, 2, 1, 1, 0, 1, 1, 1, 2, 1, 1, 1, 1, 0];

// The verbs, each with the place of its count.
fn verbs() -> Table<17>
    ensures counted { AllPass (is_counted COUNTS) result }
{
    Table::new(rows! {
        "alter" => 0,
        "begin" => 1,
        "mutate" => 2,
        "upsert" => 3,
        "query" => 4,
        "commit" => 5,
        "discard" => 6,
        "line" => 7,
        "roll" => 8,
        "rollplan" => 9,
        "rollinstall" => 10,
        "movestart" => 11,
        "movecopy" => 12,
        "movehold" => 13,
        "moveflip" => 14,
        "moveoff" => 15,
        "state" => 16,
    })
    .unwrap()
}

// How many arguments the verb of that name takes.
pub(crate) fn arguments(name: &str) -> Option<u8>
    ensures { IfSome result (λ count. count ≡ argument_count name.now) }
{
    let code = verbs().find(name)?;
    Some(COUNTS[code as usize])
}
