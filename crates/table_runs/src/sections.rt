// Sections of rows.
use crate::bench;
use crate::groups::kept::Kept;
use crate::script::Script;
use anyhow::Result;
use std::alloc::Global;
use std::io;

/// What rows are, with what those before made in the same section.
#[derive(Drop)]
pub(crate) enum Section {
    /// They add to scripts and run them.
    Runs { script: Script },
    /// They name calls on a state with its groups.
    Groups { kept: Option<Kept> },
    /// What small scripts are answered is printed, and there are no rows.
    Bench,
}

impl Section {
    /// The section that rows without a head are of.
    pub(crate) fn new(alloc: Global) -> Self {
        Section::Runs {
            script: Script::new(alloc),
        }
    }

    /// The section that a row begins, if it is a head.
    pub(crate) fn begun_by(alloc: Global, row: &str) -> Option<Self> {
        match row {
            "section runs" => Some(Section::new(alloc)),
            "section groups" => Some(Section::Groups { kept: None }),
            "section bench" => Some(Section::Bench),
            _ => None,
        }
    }

    /// Prints what stands before its rows.
    pub(crate) fn print_front(&self, rt: &impl Print, alloc: Global) -> Result<()> {
        match self {
            Section::Runs { .. } | Section::Groups { .. } => Ok(()),
            Section::Bench => bench::print_all_counts(rt, alloc),
        }
    }

    /// Prints what stands behind its rows: those that were added to a script and never run.
    pub(crate) fn print_end(&self, rt: &impl Print) -> io::Result<()> {
        if let Section::Runs { script } = self {
            for row in script.rows() {
                println!(rt; "? {row}")?;
            }
        }
        Ok(())
    }
}
