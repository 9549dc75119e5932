// Writes the script that is generated of a seed.
ghost use Rattle.std.specs.Prelude.{◌≡◌, ◌≤◌, ◌<◌, ◌^◌, IsErrOf, OnOk, OnErr};
ghost use Rattle.std.specs.Io.KnownBytes.{Appends};
ghost use Rattle.dg_io.specs.Causes.{Rose};
ghost use Rattle.dg_io.specs.Pieces.{AppendsPart};
ghost use Rattle.dg_wire.specs.Frames.{frame, frames};
ghost use Rattle.dg_wire.specs.Generator.{generated};
ghost use Rattle.dg_node.specs.Outputs.{Writes};

use crate::run::{Unwritten, status_of_unwritten};
use crate::status::Status;
use dg_io::{Sink, write_whole};
use dg_wire::{Generator, Request, write_frame};
use std::alloc::Global;

/// Writes the frames of the generated script to the sink.
///
/// After `Done` all are written, after `WriteFault` and `OutOfMemory` a front of them. It answers no other status.
pub fn write_gen<K: Sink>(alloc: Global, seed: u32, size: u32, sink: &mut K) -> Status
    requires seed { seed < 2 ^ 31 }
    requires some { 1 ≤ size }
    requires few { size ≤ 10000 }
    ensures written { Writes (frames (generated seed size)) (K.held sink.old) (K.held sink.new) result }
    ensures write_fault { result ≡ Status.WriteFault → Rose (K.faults sink.old) (K.faults sink.new) }
{
    match write_script(alloc, seed, size, sink) {
        Ok(()) => Status::Done,
        Err(unwritten) => status_of_unwritten(unwritten),
    }
}

// Writes the frames one after another.
fn write_script<K: Sink>(alloc: Global, seed: u32, size: u32, sink: &mut K) -> Result<(), Unwritten>
    requires seed { seed < 2 ^ 31 }
    requires some { 1 ≤ size }
    requires few { size ≤ 10000 }
    ensures whole { OnOk result (Appends (K.held sink.old) (K.held sink.new) (frames (generated seed size))) }
    ensures part { OnErr result (AppendsPart (K.held sink.old) (K.held sink.new) (frames (generated seed size))) }
    ensures failed { IsErrOf result Unwritten.Failed → Rose (K.faults sink.old) (K.faults sink.new) }
{
    let mut script = Generator::new(seed, size);
    let mut text = Vec::new(alloc);
    'requests: while let Some(request) = script.next(alloc)? {
        send_frame(alloc, &mut text, sink, request)?;
    }
    Ok(())
}

// Writes the frame of a request, and lets the request go.
fn send_frame<K: Sink>(
    alloc: Global,
    text: &mut Vec<u8>,
    sink: &mut K,
    request: Request,
) -> Result<(), Unwritten>
    ensures whole { OnOk result (Appends (K.held sink.old) (K.held sink.new) (frame request)) }
    ensures part { OnErr result (AppendsPart (K.held sink.old) (K.held sink.new) (frame request)) }
    ensures later { K.faults sink.old ≤ K.faults sink.new }
    ensures failed { IsErrOf result Unwritten.Failed → Rose (K.faults sink.old) (K.faults sink.new) }
{
    send(alloc, text, sink, &request)
}

// Writes the frame of a request by a buffer, of which only the room is used.
fn send<K: Sink>(
    alloc: Global,
    text: &mut Vec<u8>,
    sink: &mut K,
    request: &Request,
) -> Result<(), Unwritten>
    ensures whole { OnOk result (Appends (K.held sink.old) (K.held sink.new) (frame request.now)) }
    ensures part { OnErr result (AppendsPart (K.held sink.old) (K.held sink.new) (frame request.now)) }
    ensures later { K.faults sink.old ≤ K.faults sink.new }
    ensures failed { IsErrOf result Unwritten.Failed → Rose (K.faults sink.old) (K.faults sink.new) }
{
    text.clear();
    write_frame(alloc, text, request)?;
    write_whole(sink, text)?;
    Ok(())
}
