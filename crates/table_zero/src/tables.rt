// The tables by their names.
use crate::colors::Color;
use crate::fault::{Answer, Fault};
use crate::ground::Ground;
use crate::kept_oracle::KeptOracle;
use crate::kept_zero::KeptZero;
use crate::words::halved;
use crate::{edges, oracles, triples, zeros};
use std::alloc::Global;

// What rows made, for the rows below them.
#[derive(Drop)]
pub(crate) struct Tables {
    // Whether no row can be read any more.
    closed: bool,
    oracle: Option<KeptOracle<Color>>,
    ground: Option<Ground>,
    zero: Option<KeptZero>,
}

impl Tables {
    pub(crate) fn new() -> Self {
        Tables {
            closed: false,
            oracle: None,
            ground: None,
            zero: None,
        }
    }

    // From now on no row can be read. Answers whether rows could be until now.
    pub(crate) fn close(&mut self) -> bool {
        let open = !self.closed;
        self.closed = true;
        open
    }

    // The answer of a row.
    pub(crate) fn answer(&mut self, alloc: Global, row: &str) -> Answer<String> {
        if self.closed {
            return Err(Fault::Unfit);
        }
        let (table, rest) = halved(row);
        let (command, rest) = halved(rest);
        match table {
            "oracle" => oracles::answer(alloc, &mut self.oracle, command, rest),
            "graph" => triples::answer(alloc, &mut self.ground, command, rest),
            "edges" => edges::answer(alloc, &self.ground, command, rest),
            "zero" => zeros::answer(alloc, &mut self.zero, command, rest),
            _ => Err(Fault::Unfit),
        }
    }
}
