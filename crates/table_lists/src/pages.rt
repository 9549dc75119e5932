// Pages of maps, gone through one after the other, and maps that many changes by a rule make.
use crate::fault::{Answer, Fault};
use crate::words::{listed, number};
use dg_pages::Pages;
use dg_values::Mem;
use std::alloc::Global;
use std::sync::Arc;

// How many pairs a page may have.
const PAGE: usize = 64;

// How many pages are gone through.
const MOST_PAGES: usize = 1 << 20;

// The pairs of the page at a place.
pub(crate) fn page_text(alloc: Global, map: &Pages<u64, u64>, at: u64) -> Answer<String> {
    let Ok(at) = usize::try_from(at) else {
        return Err(Fault::Unfit);
    };
    match map.page(at) {
        Some(pairs) => Ok(pairs_text(alloc, pairs)?),
        None => Ok(String::from_str(alloc, "none")?),
    }
}

// The first pairs above a key, where they are of one page.
pub(crate) fn run_text(alloc: Global, map: &Pages<u64, u64>, key: u64) -> Answer<String> {
    Ok(pairs_text(alloc, map.run_above(&key))?)
}

fn pairs_text(alloc: Global, pairs: &[(Arc<u64>, Arc<u64>)]) -> Mem<String> {
    let mut texts = Vec::new(alloc);
    for pair in pairs {
        texts.push(format!(in alloc; "{}={}", *pair.0, *pair.1)?)?;
    }
    listed(alloc, texts.as_slice())
}

// What pages have, one after the other.
#[derive(Drop)]
struct Walk {
    pairs: u64,
    keys: u64,
    values: u64,
    last: Option<u64>,
    in_order: bool,
}

// How many pairs the pages have, the sums of their keys and values, and whether each page has 1 to 64 pairs and the keys
// ascend.
pub(crate) fn walked(alloc: Global, map: &Pages<u64, u64>) -> Answer<String> {
    let mut walk = Walk::new();
    for at in 0..MOST_PAGES {
        match map.page(at) {
            Some(pairs) => walk.go_through(pairs),
            None => return Ok(walk.text(alloc)?),
        }
    }
    Err(Fault::Unfit)
}

// The same of the pairs above a key, which are gone through by the first of them at a time.
pub(crate) fn walked_above(alloc: Global, map: &Pages<u64, u64>, key: u64) -> Answer<String> {
    let mut walk = Walk::new();
    let mut after = key;
    for _ in 0..MOST_PAGES {
        let run = map.run_above(&after);
        match run.last() {
            Some(pair) => {
                walk.go_through(run);
                after = *pair.0;
            }
            None => return Ok(walk.text(alloc)?),
        }
    }
    Err(Fault::Unfit)
}

impl Walk {
    fn new() -> Walk {
        Walk {
            pairs: 0,
            keys: 0,
            values: 0,
            last: None,
            in_order: true,
        }
    }

    fn go_through(&mut self, pairs: &[(Arc<u64>, Arc<u64>)]) {
        if pairs.is_empty() || PAGE < pairs.len() {
            self.in_order = false;
        }
        for pair in pairs {
            self.add(*pair.0, *pair.1);
        }
    }

    fn add(&mut self, key: u64, value: u64) {
        if let Some(last) = self.last {
            if key <= last {
                self.in_order = false;
            }
        }
        self.pairs = self.pairs.wrapping_add(1);
        self.keys = self.keys.wrapping_add(key);
        self.values = self.values.wrapping_add(value);
        self.last = Some(key);
    }

    fn text(&self, alloc: Global) -> Mem<String> {
        let order = if self.in_order {
            "in order"
        } else {
            "out of order"
        };
        Ok(format!(in alloc;
            "{} pairs, keys {}, values {}, {order}",
            self.pairs, self.keys, self.values
        )?)
    }
}

// Keys at some of so many places, ten apart: that of the first place, and those at steps from it, which begin anew behind
// the last place.
#[derive(Drop)]
struct Rule {
    places: u64,
    first: u64,
    step: u64,
    count: u64,
}

// The map after changes by a rule, all at once or one by one.
pub(crate) fn made(
    alloc: Global,
    map: &Pages<u64, u64>,
    command: &str,
    words: &[&str],
) -> Answer<Pages<u64, u64>> {
    let rule = rule_of(words)?;
    match command {
        "fill" => Ok(at_once(alloc, map, &rule, true)?),
        "drop" => Ok(at_once(alloc, map, &rule, false)?),
        "put" => Ok(one_by_one(alloc, map, &rule, true)?),
        "take" => Ok(one_by_one(alloc, map, &rule, false)?),
        "set" => Ok(in_place(alloc, map, &rule)?),
        _ => Err(Fault::Unfit),
    }
}

// How many places there are, the first, the step, and how many changes.
fn rule_of(words: &[&str]) -> Answer<Rule> {
    let [places, first, step, count] = *words else {
        return Err(Fault::Unfit);
    };
    Ok(Rule {
        places: number(places)?,
        first: number(first)?,
        step: number(step)?,
        count: number(count)?,
    })
}

fn at_once(alloc: Global, map: &Pages<u64, u64>, rule: &Rule, puts: bool) -> Mem<Pages<u64, u64>> {
    let mut changes = Vec::new(alloc);
    for turn in 0..rule.count {
        changes.push(rule.change(alloc, turn, puts)?)?;
    }
    map.with_changes(alloc, changes)
}

fn one_by_one(
    alloc: Global,
    map: &Pages<u64, u64>,
    rule: &Rule,
    puts: bool,
) -> Mem<Pages<u64, u64>> {
    let mut made = map.share()?;
    for turn in 0..rule.count {
        let mut changes = Vec::new(alloc);
        changes.push(rule.change(alloc, turn, puts)?)?;
        made = made.with_changes(alloc, changes)?;
    }
    Ok(made)
}

// The same puts, in place in a map that begins as an equal one.
fn in_place(alloc: Global, map: &Pages<u64, u64>, rule: &Rule) -> Mem<Pages<u64, u64>> {
    let mut made = map.share()?;
    for turn in 0..rule.count {
        let value = Arc::new(alloc, turn.wrapping_add(1))?;
        made.put(alloc, rule.key(alloc, turn)?, value)?;
    }
    Ok(made)
}

impl Rule {
    // The key of a turn.
    fn key(&self, alloc: Global, turn: u64) -> Mem<Arc<u64>> {
        let place = self.first.wrapping_add(turn.wrapping_mul(self.step));
        let place = place.checked_rem(self.places).unwrap_or(0);
        Ok(Arc::new(alloc, place.wrapping_add(1).wrapping_mul(10))?)
    }

    // The change of a turn: a key gets the number of its turn, from 1 on, or is taken out.
    fn change(&self, alloc: Global, turn: u64, puts: bool) -> Mem<(Arc<u64>, Option<Arc<u64>>)> {
        let key = self.key(alloc, turn)?;
        let value = if puts {
            Some(Arc::new(alloc, turn.wrapping_add(1))?)
        } else {
            None
        };
        Ok((key, value))
    }
}
