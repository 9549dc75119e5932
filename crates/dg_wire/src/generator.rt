// Scripts made from a seed and a number of nodes.
ghost use Rattle.std.specs.Prelude.{◌≡◌, ◌<◌, ◌≤◌, ◌+◌, ◌*◌, [], ◌∷◌, ◌++◌, IfOk, OnOk, OnErr, IfSome, IfNone};
ghost use Rattle.dg_wire.specs.Frames.{frame, frames, IsRequest, IsBody};
ghost use Rattle.dg_wire.specs.Generator.{generated, batch_len, batch_body};

use crate::draws::Draws;
use crate::node::nodes_text;
use crate::{Request, write_frame};
use dg_values::{List, Mem, OutOfMemory, Str};
use std::alloc::Global;
use std::marker::Model;

// The session of all requests.
const SID: u32 = 1;

// The most nodes of a batch.
const BATCH: u32 = 100;

const SCHEMA: &[u8] =
    b"name: string @index(exact) .\nage: int @index(int) .\nfriend: [uid] @reverse @count .";

const QUERY: &[u8] = b"{ q(func: eq(age, 7), first: 5) { uid name count(friend) } }";

// What comes next.
#[derive(Clone, Copy, Debug, PartialEq, Eq)]
enum Step {
    Alter,
    /// The begin of a batch, or of the query behind all batches.
    Begin,
    Mutate,
    Commit,
    Roll,
    Query,
    Discard,
    End,
}

/// A script that is made request by request.
///
/// It defines three predicates, adds nodes in batches of 100, each with a name, an age and a friend, and asks
/// one query. The same seed and number of nodes give the same requests.
#[derive(Debug, Drop)]
pub struct Generator {
    draws: Draws,
    size: u32,
    done: u32,
    left: u32,
    step: Step,
}

impl Model for Generator {
    ghost use Rattle.std.specs.Prelude.{◌≡◌, ◌≤◌, ◌*◌, List};
    ghost use Rattle.dg_wire.specs.declared.request.Request.{Request};
    ghost use Rattle.dg_wire.specs.Coming.{to_come};

    ghost Value = { List Request };

    ghost view = { λ g. to_come g.step g.draws.seed g.size g.done g.left };

    ghost invariant = { λ g. (g.size ≤ 10000) × (g.done ≤ g.size) × (g.draws.made ≡ 3 * g.done) };
}

impl Generator {
    /// The script of a seed, with so many nodes.
    pub fn new(seed: u32, size: u32) -> Self
        requires seed { seed < 2147483648 }
        requires some { 1 ≤ size }
        requires few { size ≤ 10000 }
        ensures { result ≡ generated seed size }
    {
        Generator {
            draws: Draws::new(seed),
            size,
            done: 0,
            left: (size + 99) / BATCH,
            step: Step::Alter,
        }
    }

    /// The next request, or none at the end. An `Err` takes nothing.
    pub fn next(&mut self, alloc: Global) -> Mem<Option<Request>>
        ensures some { IfOk result (λ next. IfSome next (λ request. self.old ≡ request ∷ self.new)) }
        ensures none { IfOk result (λ next. IfNone next ((self.old ≡ []) × (self.new ≡ []))) }
        ensures valid { IfOk result (λ next. IfSome next IsRequest) }
        ensures err { OnErr result (self.new ≡ self.old) }
    {
        match self.step {
            Step::Alter => {
                let body = copied(alloc, SCHEMA)?;
                self.step = Step::Begin;
                Ok(Some(Request::Alter { body }))
            }
            Step::Begin => {
                self.step = behind_begin(&mut self.left);
                Ok(Some(Request::Begin { sid: SID }))
            }
            Step::Mutate => {
                let body = next_body(alloc, &mut self.draws, self.size, &mut self.done)?;
                self.step = Step::Commit;
                Ok(Some(Request::Mutate { sid: SID, body }))
            }
            Step::Commit => {
                self.step = Step::Roll;
                Ok(Some(Request::Commit { sid: SID }))
            }
            Step::Roll => {
                let pred = Str::from_str(alloc, "name")?;
                self.step = Step::Begin;
                Ok(Some(Request::Roll { pred }))
            }
            Step::Query => {
                let body = copied(alloc, QUERY)?;
                self.step = Step::Discard;
                Ok(Some(Request::Query { sid: SID, body }))
            }
            Step::Discard => {
                self.step = Step::End;
                Ok(Some(Request::Discard { sid: SID }))
            }
            Step::End => Ok(None),
        }
    }
}

// The step behind a begin: the next batch, if one is left, or the query.
fn behind_begin(left: &mut u32) -> Step
    ensures some { 0 < left.old → (result ≡ Step.Mutate) × (left.old ≡ left.new + 1) }
    ensures none { left.old ≡ 0 → (result ≡ Step.Query) × (left.new ≡ 0) }
{
    if *left == 0 {
        return Step::Query;
    }
    *left -= 1;
    Step::Mutate
}

// The body of the next batch, and how many nodes are done with it. An `Err` changes nothing.
fn next_body(alloc: Global, draws: &mut Draws, size: u32, done: &mut u32) -> Mem<List<u8>>
    requires made { draws.old.made ≡ 3 * done.old }
    requires within { done.old ≤ size }
    requires few { size ≤ 10000 }
    ensures body { IfOk result (λ body. body ≡ batch_body draws.old.seed size done.old) }
    ensures short { IfOk result IsBody }
    ensures done { OnOk result (done.new ≡ done.old + batch_len size done.old) }
    ensures seed { draws.new.seed ≡ draws.old.seed }
    ensures made { draws.new.made ≡ 3 * done.new }
    ensures within { done.new ≤ size }
    ensures err { OnErr result ((draws.new ≡ draws.old) × (done.new ≡ done.old)) }
{
    let count = BATCH.min(size - *done);
    let mut later = draws.copy();
    let body = nodes_text(alloc, &mut later, size, *done, count)?;
    *draws = later;
    *done += count;
    Ok(body)
}

// A body of these bytes.
fn copied(alloc: Global, bytes: &[u8]) -> Mem<List<u8>>
    ensures { IfOk result (λ body. body ≡ bytes.now) }
{
    Ok(List::from_vec(Vec::from_slice(alloc, bytes)?))
}

/// The bytes of the script of a seed, with so many nodes.
pub fn gen_script(alloc: Global, seed: u32, size: u32) -> Mem<Vec<u8>>
    requires seed { seed < 2147483648 }
    requires some { 1 ≤ size }
    requires few { size ≤ 10000 }
    ensures { IfOk result (λ text. text.items ≡ frames (generated seed size)) }
{
    let mut text = Vec::new(alloc);
    let mut generator = Generator::new(seed, size);
    while let Some(request) = generator.next(alloc)? {
        write_one(alloc, &mut text, request)?;
    }
    Ok(text)
}

// Appends the frame of a request.
fn write_one(alloc: Global, text: &mut Vec<u8>, request: Request) -> Mem<()>
    ensures { OnOk result (text.new.items ≡ text.old.items ++ frame request) }
{
    write_frame(alloc, text, &request)
}
