// A sink that keeps the replies apart.
use dg_io::{Failed, Sink};
use std::alloc::{AllocError, Global};

/// Each piece that is written, by itself. A run writes a reply in one piece where the sink takes it whole. The bytes that
/// it holds aren't told to contracts.
#[derive(Drop)]
pub struct Replies {
    alloc: Global,
    pieces: Vec<Vec<u8>>,
    faults: u64,
}

impl Replies {
    pub fn new(alloc: Global) -> Self {
        Replies {
            alloc,
            pieces: Vec::new(alloc),
            faults: 0,
        }
    }

    pub fn pieces(&self) -> &[Vec<u8>] {
        self.pieces.as_slice()
    }
}

impl Sink for Replies {
    ghost use Rattle.std.specs.Prelude.{None};

    ghost held = { λ s. None };

    ghost faults = { λ s. s.faults };

    fn write(&mut self, piece: &[u8]) -> Result<usize, Failed> {
        match keep(self.alloc, &mut self.pieces, piece) {
            Ok(()) => Ok(piece.len()),
            Err(_) => {
                self.faults = self.faults.saturating_add(1);
                Err(Failed)
            }
        }
    }
}

fn keep(alloc: Global, pieces: &mut Vec<Vec<u8>>, piece: &[u8]) -> Result<(), AllocError> {
    pieces.push(Vec::from_slice(alloc, piece)?)?;
    Ok(())
}
