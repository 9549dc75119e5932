// The texts of refusals.
use crate::fields::{Answer, RowFault};
use crate::said::{Said, small};
use dg_values::Str;
use dg_wire::Refusal;
use std::alloc::Global;

/// `refusal | NUMBER | PARTS`
pub fn row(alloc: Global, said: &[&str]) -> Answer {
    let [number, parts @ ..] = said else {
        return Err(RowFault::Unreadable);
    };
    match refusal_of(number.parse::<u32>()?, Said::of(alloc, parts)?) {
        Some(refusal) => Ok(format!(in alloc; "{refusal}")?),
        None => Err(RowFault::Unreadable),
    }
}

fn refusal_of(number: u32, said: Said) -> Option<Refusal> {
    let Said {
        first,
        second,
        name,
        other,
    } = said;
    match number {
        1 | 2 | 3 | 4 | 5 | 15 | 20 | 23 | 24 | 27 | 28 | 29 => of_number(number, first),
        6 | 7 | 8 | 10 | 11 | 13 | 14 | 16 | 18 | 22 | 25 | 31 => of_name(number, name),
        9 | 26 => of_names(number, name, other),
        19 | 30 | 32 => of_both(number, name, first, second),
        12 => Some(Refusal::BadDepth {
            n: depth_of(name.as_str(), first)?,
        }),
        17 => Some(Refusal::AnswerTooLarge),
        98 => Some(Refusal::Unbuilt),
        99 => Some(Refusal::Memory),
        _ => None,
    }
}

fn of_number(number: u32, part: u64) -> Option<Refusal> {
    match number {
        1 => Some(Refusal::NoSession { sid: small(part) }),
        2 => Some(Refusal::SessionOpen { sid: small(part) }),
        3 => Some(Refusal::BadToken { offset: part }),
        4 => Some(Refusal::BadSyntax { offset: part }),
        5 => Some(Refusal::TooDeep { offset: part }),
        15 => Some(Refusal::UidsSpent { next: part }),
        20 => Some(Refusal::Pending { start: part }),
        23 => Some(Refusal::NoGroup { group: small(part) }),
        24 => Some(Refusal::SameGroup { group: small(part) }),
        27 => Some(Refusal::SchemaSyntax { line: part }),
        28 => Some(Refusal::TimestampsSpent { next: part }),
        29 => Some(Refusal::Stale { rolled: part }),
        _ => None,
    }
}

fn of_name(number: u32, name: Str) -> Option<Refusal> {
    match number {
        6 => Some(Refusal::UnknownVariable { name }),
        7 => Some(Refusal::VariableTwice { name }),
        8 => Some(Refusal::VariableCycle { name }),
        10 => Some(Refusal::BadLiteral { name }),
        11 => Some(Refusal::BadPage { argument: name }),
        13 => Some(Refusal::NoPredicate { pred: name }),
        14 => Some(Refusal::WrongObject { pred: name }),
        16 => Some(Refusal::SumOverflow { name }),
        18 => Some(Refusal::Moving { pred: name }),
        22 => Some(Refusal::HasData { pred: name }),
        25 => Some(Refusal::AlreadyMoving { pred: name }),
        31 => Some(Refusal::NoWork { pred: name }),
        _ => None,
    }
}

// A number that stands as a text below zero, and else as a number.
fn depth_of(text: &str, number: u64) -> Option<i64> {
    match text.parse::<i64>() {
        Ok(depth) => Some(depth),
        Err(_) => i64::try_from(number).ok(),
    }
}

fn of_names(number: u32, pred: Str, other: Str) -> Option<Refusal> {
    match number {
        9 => Some(Refusal::NotIndexed { pred, func: other }),
        26 => Some(Refusal::NotMoving { pred, phase: other }),
        _ => None,
    }
}

fn of_both(number: u32, name: Str, first: u64, second: u64) -> Option<Refusal> {
    let group = small(first);
    match number {
        19 => Some(Refusal::Conflict {
            ts: first,
            key: name,
        }),
        30 => Some(Refusal::NotHere { pred: name, group }),
        32 => Some(Refusal::OldCopy {
            pred: name,
            group,
            until: second,
        }),
        _ => None,
    }
}
