// An oracle with what may be asked of it.
ghost use Rattle.std.specs.Prelude.{◌≡◌, IfOk};
ghost use Rattle.dg_oracle.specs.Commits.{is_active as active_of, without};

use crate::fault::{Answer, Fault};
use dg_oracle::{Oracle, OracleFault, Verdict};
use std::alloc::Global;
use std::marker::Model;

// The least number that is no timestamp.
const SPENT: u64 = 1 << 62;

// An oracle, its active starts and its purge line, which no call tells.
#[derive(Drop)]
pub(crate) struct KeptOracle<K: Ord> {
    oracle: Oracle<K>,
    starts: Vec<u64>,
    line: u64,
}

impl<K: Ord> Model for KeptOracle<K> {
    ghost use Rattle.dg_oracle.specs.Commits.{OracleState};
    ghost use Rattle.table_zero.specs.Kept.{AreTold};

    ghost Value = { OracleState K };

    ghost view = { λ kept. kept.oracle };

    ghost invariant = { λ kept. AreTold kept.starts.items kept.line kept.oracle };
}

// Whether the start is one of these.
fn is_active(active: &[u64], start: u64) -> bool
    ensures { result ≡ active_of active.now start }
{
    active.contains(&start)
}

// Leaves the starts but this one.
fn drop_start(active: &mut Vec<u64>, start: u64)
    ensures { active.new.items ≡ without active.old.items start }
{
    active.retain(|s| *s != start);
}

impl<K: Ord + Drop> KeptOracle<K> {
    pub(crate) fn new(alloc: Global, next: u64) -> Answer<KeptOracle<K>> {
        if next < 1 || SPENT < next {
            return Err(Fault::Unfit);
        }
        Ok(KeptOracle {
            oracle: Oracle::starting_at(alloc, next)?,
            starts: Vec::new(alloc),
            line: 0,
        })
    }

    // Draws a start.
    pub(crate) fn begin(&mut self) -> Answer<Result<u64, OracleFault>> {
        self.starts.reserve(1)?;
        match self.oracle.begin() {
            Ok(start) => {
                self.starts.push_reserved(start);
                Ok(Ok(start))
            }
            Err(fault) => Ok(Err(fault)),
        }
    }

    // The verdict on keys.
    pub(crate) fn judge(&self, start: u64, mut keys: Vec<K>) -> Answer<Verdict> {
        keys.sort()?;
        if start < self.line {
            return Err(Fault::Unfit);
        }
        Ok(self.oracle.judge(start, keys.as_slice()))
    }

    // Commits keys, where the start is active and they are clear.
    pub(crate) fn commit(
        &mut self,
        start: u64,
        mut keys: Vec<K>,
    ) -> Answer<Result<u64, (OracleFault, Vec<K>)>> {
        keys.sort()?;
        if start < self.line || !is_active(self.starts.as_slice(), start) {
            return Err(Fault::Unfit);
        }
        match self.oracle.judge(start, keys.as_slice()) {
            Verdict::Conflict { .. } => Err(Fault::Unfit),
            Verdict::Clear => match self.oracle.commit(start, keys) {
                Ok(ts) => {
                    drop_start(&mut self.starts, start);
                    Ok(Ok(ts))
                }
                Err(refused) => Ok(Err(refused)),
            },
        }
    }

    // Ends a transaction, and says whether it was active.
    pub(crate) fn end(&mut self, start: u64) -> bool {
        drop_start(&mut self.starts, start);
        self.oracle.end(start)
    }

    pub(crate) fn draw_two(&mut self) -> Option<(u64, u64)> {
        self.oracle.draw_two()
    }

    pub(crate) fn oracle(&self) -> &Oracle<K> {
        &self.oracle
    }

    // Raises the purge line, where it may be.
    pub(crate) fn purge(&mut self, line: u64) -> Answer<u64> {
        if self.oracle.line() < line {
            return Err(Fault::Unfit);
        }
        self.oracle.purge(line);
        self.line = self.line.max(line);
        Ok(self.line)
    }
}
