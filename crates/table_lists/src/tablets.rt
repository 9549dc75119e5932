// The table of tablets: a predicate and its group.
use crate::fault::{Answer, Fault};
use crate::words::{halves, number, order, shown, text};
use dg_keys::Tablet;
use dg_sets::InOrder;
use std::alloc::Global;

pub(crate) fn answer(alloc: Global, command: &str, words: &[&str]) -> Answer<String> {
    match command {
        "copy" => {
            let copied = tablet(alloc, words)?.copy(alloc)?;
            let pred = shown(alloc, &copied.pred)?;
            Ok(format!(in alloc; "{pred} {}", copied.group)?)
        }
        "order" => {
            let (before, behind) = halves(words, "|")?;
            let found = tablet(alloc, before)?.compare(&tablet(alloc, behind)?);
            Ok(order(alloc, found)?)
        }
        _ => Err(Fault::Unfit),
    }
}

fn tablet(alloc: Global, words: &[&str]) -> Answer<Tablet> {
    let [pred, group] = words else {
        return Err(Fault::Unfit);
    };
    let Ok(group) = u32::try_from(number(group)?) else {
        return Err(Fault::Unfit);
    };
    let pred = text(alloc, pred)?;
    Ok(Tablet { pred, group })
}
