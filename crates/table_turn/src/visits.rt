// A state that keeps who came, and turns on it. The places of a caller's entries are kept here at run time too, and the
// clauses of `visit_often` say that they are those that contracts see.
ghost use Rattle.std.specs.Prelude.{◌≡◌, ◌<◌, ◌++◌, ◌∷◌, [], length, IfOk};
ghost use Rattle.dg_turn.specs.Values.{new_callers};

use dg_turn::{Caller, Logged, Turn};
use std::alloc::{AllocError, Global};
use std::collections::LinkedList;
use std::sync::Wait;

/// The numbers of the callers that came, in the order in which they came.
#[derive(Drop)]
pub struct Visits {
    pub numbers: LinkedList<u32>,
}

impl Logged for Visits {
    type Entry = u32;

    ghost history = { λ s. s.numbers };

    ghost author = { λ e. e };
}

/// A lock round a state with no entry.
pub fn open(alloc: Global, callers: u32) -> Result<(Turn<Visits>, Vec<Caller<Visits>>), AllocError>
    requires { 0 < callers }
    ensures callers { IfOk result (λ made. made.0.callers ≡ callers) }
    ensures numbered { IfOk result (λ made. made.1.items ≡ new_callers made.0.id 0 callers) }
{
    let visits = Visits {
        numbers: LinkedList::new(alloc),
    };
    match Turn::new(alloc, visits, callers) {
        Ok(made) => Ok(made),
        Err((error, _)) => Err(error),
    }
}

/// One turn, and the place of its entry. The memory for the entry is taken before the turn comes.
pub fn visit<R: Wait>(
    rt: &R,
    alloc: Global,
    turn: &Turn<Visits>,
    caller: Caller<Visits>,
) -> Result<(Caller<Visits>, usize), AllocError>
    requires { caller.turn ≡ turn.now.id }
    ensures turn { IfOk result (λ made. made.0.turn ≡ caller.turn) }
    ensures number { IfOk result (λ made. made.0.number ≡ caller.number) }
    ensures place { IfOk result (λ made. made.0.mine ≡ caller.mine ++ made.1 ∷ []) }
{
    let number = caller.number();
    let mut entry = LinkedList::new(alloc);
    entry.push_back(number)?;
    let mut held = turn.take(rt, caller);
    let place = held.state().numbers.len();
    enter(rt, &mut held.state().numbers, &mut entry);
    Ok((turn.finish(held), place))
}

// Adds an entry, without memory. A list of 2^63 entries has no room for one more, and then this never returns.
fn enter<R: Wait>(rt: &R, numbers: &mut LinkedList<u32>, entry: &mut LinkedList<u32>)
    ensures { numbers.new ≡ numbers.old ++ entry.old }
{
    if numbers.append(entry).is_err() {
        for _ in rt.forever() {}
        unreachable!()
    }
}

/// So many turns, and the places of their entries.
pub fn visit_often<R: Wait>(
    rt: &R,
    alloc: Global,
    turn: &Turn<Visits>,
    caller: Caller<Visits>,
    times: u32,
) -> Result<(Caller<Visits>, Vec<usize>), AllocError>
    requires { caller.turn ≡ turn.now.id }
    ensures turn { IfOk result (λ made. made.0.turn ≡ caller.turn) }
    ensures number { IfOk result (λ made. made.0.number ≡ caller.number) }
    ensures places { IfOk result (λ made. made.0.mine ≡ caller.mine ++ made.1.items) }
    ensures more { IfOk result (λ made. length made.1.items ≡ times) }
{
    let mut caller = caller;
    let mut places = Vec::new(alloc);
    for _ in 0..times {
        let (later, place) = visit(rt, alloc, turn, caller)?;
        caller = later;
        places.push(place)?;
    }
    Ok((caller, places))
}
