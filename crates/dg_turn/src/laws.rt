// Laws of the lock.
ghost use Rattle.std.specs.Prelude.{◌≡◌};
ghost use Rattle.dg_turn.specs.Laws.{PlacesAreExact, PlacesAscend};

use crate::held::Held;
use crate::lock::{TICKET, Turn};
use crate::logged::Logged;
use crate::steps::{BothInTurn, HandOver, Never};

/// A law: among the places of a number stands each place of an entry that it made, once, and no other, and they
/// ascend.
pub fn own_places<S: Logged>()
    ensures exact { PlacesAreExact S.author }
    ensures ascend { PlacesAscend S.author }
{}

/// A law: a lock's state is held once at a time. There are no two held states of one lock, so this is never called.
pub fn never_two_held<S: Logged>(turn: &Turn<S>, one: Held<S>, other: Held<S>)
    requires one { one.turn ≡ turn.now.id }
    requires other { other.turn ≡ turn.now.id }
    ensures never { ⊥ }
{
    let Held {
        number: _,
        seat: mut mine,
        state: _mine,
    } = one;
    let Held {
        number: _,
        seat: mut theirs,
        state: _theirs,
    } = other;
    let whole = turn.table.shared.split_seat::<HandOver>(&mut theirs);
    turn.table.shared.join_seat::<BothInTurn>(&mut mine, whole);
    turn.table.shared.load::<Never>(&mut mine, TICKET);
    unreachable!()
}
