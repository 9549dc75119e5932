// Answers the script that is generated of a seed, and writes what the replies came to.
ghost use Rattle.std.specs.Prelude.{◌≡◌, ◌≤◌, ◌<◌, ◌^◌, IfOk, length, string_bytes};
ghost use Rattle.dg_check.specs.Patterns.{IsFrontOf};
ghost use Rattle.dg_io.specs.Causes.{Rose};
ghost use Rattle.dg_wire.specs.Frames.{IsRequest};
ghost use Rattle.dg_wire.specs.Generator.{generated};
ghost use Rattle.dg_wire.specs.Replies.{reply_text};
ghost use Rattle.dg_node.specs.Loading as spec;
ghost use Rattle.dg_node.specs.Loading.{ComesTo, Counts, IsLoadLine, IsSound, Loads};
ghost use Rattle.dg_node.specs.State.{Leads};

use crate::engine::Engine;
use crate::status::Status;
use dg_check::{Patterns, RegexPatterns};
use dg_io::{Sink, write_whole};
use dg_values::{Mem, OutOfMemory};
use dg_wire::{Generator, Reply, Request, write_reply};
use std::alloc::Global;
use std::fmt;

/// What the replies to requests came to.
#[derive(Clone, Copy, Debug, PartialEq, Eq)]
pub struct Totals {
    /// How many requests were answered.
    pub requests: u64,
    /// How many of the replies are no refusals.
    pub ok: u64,
    /// How many are.
    pub errors: u64,
    /// How many bytes all replies have, each of which has less than 2^64.
    pub bytes: u128,
}

impl fmt::Display for Totals {
    ghost use Rattle.std.specs.Prelude.{Some};
    ghost use Rattle.dg_node.specs.Loading.{totals_text};

    ghost output = { λ t. Some (totals_text t) };

    fn fmt<W: fmt::Write>(&self, f: &mut fmt::Formatter<W>) -> fmt::Result {
        let Totals {
            requests,
            ok,
            errors,
            bytes,
        } = *self;
        write!(
            f,
            "requests {requests} ok {ok} errors {errors} bytes {bytes}"
        )
    }
}

/// Answers the generated script with an engine of so many groups, and writes one line of what the replies came to: how
/// many requests, answers and refusals there were, and how many bytes the replies have.
///
/// After `Done` the line is written, after `WriteFault` a front of it, after `OutOfMemory` nothing. It answers no other
/// status.
pub fn load<K: Sink>(alloc: Global, seed: u32, size: u32, groups: u32, sink: &mut K) -> Status
    requires seed { seed < 2 ^ 31 }
    requires some { 1 ≤ size }
    requires few { size ≤ 10000 }
    requires least { 1 ≤ groups }
    requires most { groups ≤ 16 }
    ensures loaded { Loads groups seed size (K.held sink.old) (K.held sink.new) result }
    ensures write_fault { result ≡ Status.WriteFault → Rose (K.faults sink.old) (K.faults sink.new) }
{
    let Ok(line) = line_of(alloc, seed, size, groups) else {
        return Status::OutOfMemory;
    };
    match write_whole(sink, line.as_bytes()) {
        Ok(()) => Status::Done,
        Err(_) => Status::WriteFault,
    }
}

// The line. The script has no pattern, so its maker is one of its own.
fn line_of(alloc: Global, seed: u32, size: u32, groups: u32) -> Mem<String>
    requires seed { seed < 2 ^ 31 }
    requires some { 1 ≤ size }
    requires few { size ≤ 10000 }
    requires least { 1 ≤ groups }
    requires most { groups ≤ 16 }
    ensures { IfOk result (λ line. IsLoadLine groups seed size (string_bytes line)) }
{
    let mut patterns = RegexPatterns::new(alloc);
    let totals = totals_of(alloc, seed, size, groups, &mut patterns)?;
    Ok(format!(in alloc; "{totals}\n")?)
}

// Answers the script, and counts the replies.
fn totals_of<P: Patterns>(
    alloc: Global,
    seed: u32,
    size: u32,
    groups: u32,
    patterns: &mut P,
) -> Mem<Totals>
    requires seed { seed < 2 ^ 31 }
    requires some { 1 ≤ size }
    requires few { size ≤ 10000 }
    requires least { 1 ≤ groups }
    requires most { groups ≤ 16 }
    ensures { IfOk result (ComesTo (P.refused patterns.new) groups (generated seed size)) }
{
    let mut engine = Engine::new(alloc, groups)?;
    let mut script = Generator::new(seed, size);
    let mut totals = nothing();
    'requests: while let Some(request) = script.next(alloc)? {
        totals = count_one(alloc, &mut engine, request, totals, patterns)?;
    }
    Ok(totals)
}

// No reply is counted yet.
fn nothing() -> Totals
    ensures { result ≡ record { requests = 0; ok = 0; errors = 0; bytes = 0 } }
{
    Totals {
        requests: 0,
        ok: 0,
        errors: 0,
        bytes: 0,
    }
}

// Answers one request and counts its reply, and lets both go.
fn count_one<P: Patterns>(
    alloc: Global,
    engine: &mut Engine,
    request: Request,
    totals: Totals,
    patterns: &mut P,
) -> Mem<Totals>
    requires request { IsRequest request }
    requires few { totals.requests < 2 ^ 32 }
    requires sound { IsSound totals }
    ensures counts { IfOk result (λ after. Leads engine.old (λ m n. Counts (P.refused patterns.new) m n request totals after) engine.new) }
    ensures sound { IfOk result IsSound }
    ensures grows { IsFrontOf (P.refused patterns.old) (P.refused patterns.new) }
{
    let reply = engine.answer(alloc, &request, patterns);
    with_reply(alloc, totals, &reply)
}

// The totals with one more reply.
fn with_reply(alloc: Global, totals: Totals, reply: &Reply) -> Mem<Totals>
    requires few { totals.requests < 2 ^ 32 }
    requires sound { IsSound totals }
    ensures value { IfOk result (λ after. after ≡ spec.with_one totals (spec.is_refused reply.now) (length (reply_text reply.now))) }
    ensures sound { IfOk result IsSound }
{
    let mut text = Vec::new(alloc);
    write_reply(alloc, &mut text, reply)?;
    Ok(with_one(totals, is_refused(reply), text.len()))
}

// Whether the request was refused.
fn is_refused(reply: &Reply) -> bool
    ensures { result ≡ spec.is_refused reply.now }
{
    matches!(reply, Reply::Refused(_))
}

// The totals with one more reply, of so many bytes.
fn with_one(totals: Totals, refused: bool, bytes: usize) -> Totals
    requires few { totals.requests < 2 ^ 32 }
    requires sound { IsSound totals }
    ensures value { result ≡ spec.with_one totals refused bytes }
    ensures sound { IsSound result }
{
    let requests = totals.requests + 1;
    let bytes = totals.bytes + bytes as u128;
    if refused {
        let errors = totals.errors + 1;
        Totals {
            requests,
            errors,
            bytes,
            ..totals
        }
    } else {
        let ok = totals.ok + 1;
        Totals {
            requests,
            ok,
            bytes,
            ..totals
        }
    }
}
