// The tables by their names.
use crate::fault::{Answer, Fault};
use crate::kept_list::KeptList;
use crate::kept_store::KeptStore;
use crate::words::{first, number};
use crate::{bases, changes, conflicts, keys, lists, maps, spelled_keys, stores, tablets};
use dg_base::Base;
use dg_keys::ConflictKey;
use dg_pages::Pages;
use std::alloc::Global;

// What rows made, for the rows below them.
#[derive(Drop)]
pub(crate) struct Tables {
    // Whether no row can be read any more.
    closed: bool,
    base: Option<Base>,
    maps: Vec<Pages<u64, u64>>,
    lists: Vec<KeptList>,
    stores: Vec<KeptStore>,
    conflicts: Vec<ConflictKey>,
}

impl Tables {
    pub(crate) fn new(alloc: Global) -> Self {
        Tables {
            closed: false,
            base: None,
            maps: Vec::new(alloc),
            lists: Vec::new(alloc),
            stores: Vec::new(alloc),
            conflicts: Vec::new(alloc),
        }
    }

    // From now on no row can be read. Answers whether rows could be until now.
    pub(crate) fn close(&mut self) -> bool {
        let open = !self.closed;
        self.closed = true;
        open
    }

    // The answer of a row.
    pub(crate) fn answer(&mut self, alloc: Global, row: &str) -> Answer<String> {
        if self.closed {
            return Err(Fault::Unfit);
        }
        let words: Vec<&str> = row.split_whitespace().collect(alloc)?;
        let (table, rest) = first(words.as_slice())?;
        let (command, rest) = first(rest)?;
        let (table, version) = table_and_version(table)?;
        match table {
            "base" => bases::answer(alloc, &mut self.base, command, rest),
            "ops" => changes::answer(alloc, command, rest),
            "map" => maps::answer(alloc, &mut self.maps, version, command, rest),
            "list" => lists::answer(alloc, &mut self.lists, version, command, rest),
            "store" => stores::answer(alloc, &mut self.stores, version, command, rest),
            "key" => keys::answer(alloc, command, rest),
            "keybytes" => spelled_keys::answer(alloc, command, rest),
            "tablet" => tablets::answer(alloc, command, rest),
            "conflict" => conflicts::answer(alloc, &mut self.conflicts, command, rest),
            _ => Err(Fault::Unfit),
        }
    }
}

// The name of a table, and the version that is behind it.
fn table_and_version(word: &str) -> Answer<(&str, Option<u64>)> {
    match word.split_once('@') {
        Some((table, version)) => Ok((table, Some(number(version)?))),
        None => Ok((word, None)),
    }
}
