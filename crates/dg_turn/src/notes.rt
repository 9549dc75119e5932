// What one caller has seen reaches another.
ghost use Rattle.std.specs.Prelude.{◌≡◌};
ghost use mathlib.Core.List.{IsPrefix};
ghost use Rattle.dg_turn.specs.History.{places_of, longer, Ascend};
ghost use Rattle.dg_turn.specs.Seats.{IsIdle, Merged};

use crate::caller::{Caller, Note};
use crate::lock::{TICKET, Turn};
use crate::logged::Logged;
use crate::steps::{Learn, SeenAlone, TellAll};
use crate::view::View;
use atomic_table::Seat;

impl<S: Logged> Turn<S> {
    /// A note of what the caller has seen. The caller stays as it was.
    pub fn note(&self, caller: Caller<S>) -> (Caller<S>, Note<S>)
        requires { caller.turn ≡ self.now.id }
        ensures caller { result.0 ≡ caller }
        ensures turn { result.1.turn ≡ caller.turn }
        ensures seen { result.1.seen ≡ caller.seen }
    {
        let Caller { number, mut seat } = caller;
        let other = self.table.shared.split_seat::<SeenAlone>(&mut seat);
        (Caller { number, seat }, Note { seat: other })
    }

    /// The caller has then seen the longer of what it had seen and what the note tells. Both begin it, since both
    /// begin the history. It doesn't wait.
    pub fn meet(&self, caller: Caller<S>, note: Note<S>) -> Caller<S>
        requires caller { caller.turn ≡ self.now.id }
        requires note { note.turn ≡ self.now.id }
        ensures turn { result.turn ≡ caller.turn }
        ensures number { result.number ≡ caller.number }
        ensures longer { result.seen ≡ longer caller.seen note.seen }
        ensures caller { IsPrefix caller.seen result.seen }
        ensures note { IsPrefix note.seen result.seen }
        ensures same { result.mine ≡ caller.mine }
        ensures mine { result.mine ≡ places_of S.author result.seen result.number }
        ensures ascend { Ascend result.mine }
    {
        let Caller { number, mut seat } = caller;
        let Note { seat: other } = note;
        self.merge(&mut seat, other);
        Caller { number, seat }
    }

    // The seat has then seen the longer of both, and has the numbers of both. The join tells nothing by itself, so a
    // load follows.
    pub(crate) fn merge(
        &self,
        seat: &mut Seat<Option<S>, View<S::Entry>>,
        other: Seat<Option<S>, View<S::Entry>>,
    )
        requires turn { (seat.old.table_id ≡ self.now.id) × (other.table_id ≡ self.now.id) }
        requires idle { IsIdle seat.old.me × IsIdle other.me }
        ensures turn { seat.new.table_id ≡ seat.old.table_id }
        ensures merged { Merged S.author seat.old.me other.me seat.new.me }
    {
        self.table.shared.join_seat::<TellAll>(seat, other);
        self.table.shared.load::<Learn>(seat, TICKET);
    }
}
