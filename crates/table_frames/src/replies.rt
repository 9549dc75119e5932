// The bytes of replies.
use crate::fields::{Answer, RowFault, shown};
use crate::said::{Said, small};
use dg_values::{List, Str};
use dg_wire::{Refusal, Reply, write_reply};
use std::alloc::Global;
use std::fmt::Write;

/// `reply | VERB | PARTS`: its bytes, and its body
pub fn row(alloc: Global, said: &[&str]) -> Answer {
    let [verb, parts @ ..] = said else {
        return Err(RowFault::Unreadable);
    };
    match reply_of(verb, Said::of(alloc, parts)?) {
        Some(reply) => told(alloc, &reply),
        None => Err(RowFault::Unreadable),
    }
}

fn told(alloc: Global, reply: &Reply) -> Answer {
    let mut bytes = Vec::new(alloc);
    write_reply(alloc, &mut bytes, reply)?;
    let mut text = shown(alloc, &bytes)?;
    match reply.body() {
        Some(body) => write!(text, " body [{}]", shown(alloc, body)?)?,
        None => text.push_str(" no body")?,
    }
    Ok(text)
}

// The reply to a verb, or a refusal.
fn reply_of(verb: &str, said: Said) -> Option<Reply> {
    let Said {
        first,
        second,
        name,
        other: _,
    } = said;
    match verb {
        "alter" | "begin" | "commit" | "discard" | "line" | "refused" => {
            of_numbers(verb, first, second)
        }
        "mutate" | "upsert" | "query" | "state" => {
            let body = List::from_vec(name.into_string().into_bytes());
            with_body(verb, small(first), body)
        }
        "roll" | "rollplan" | "rollinstall" => of_roll(verb, name, first, second),
        _ => of_move(verb, name, small(first)),
    }
}

fn of_numbers(verb: &str, first: u64, second: u64) -> Option<Reply> {
    let sid = small(first);
    match verb {
        "alter" => Some(Reply::Alter {
            start: first,
            commit: second,
        }),
        "begin" => Some(Reply::Begin { sid, start: second }),
        "commit" => Some(Reply::Commit { sid, ts: second }),
        "discard" => Some(Reply::Discard { sid }),
        "line" => Some(Reply::Line { line: first }),
        "refused" => Some(Reply::Refused(Refusal::NoSession { sid })),
        _ => None,
    }
}

fn with_body(verb: &str, sid: u32, body: List<u8>) -> Option<Reply> {
    match verb {
        "mutate" => Some(Reply::Mutate { sid, body }),
        "upsert" => Some(Reply::Upsert { sid, body }),
        "query" => Some(Reply::Query { sid, body }),
        "state" => Some(Reply::State { body }),
        _ => None,
    }
}

fn of_roll(verb: &str, pred: Str, lists: u64, upto: u64) -> Option<Reply> {
    match verb {
        "roll" => Some(Reply::Roll { pred, lists, upto }),
        "rollplan" => Some(Reply::RollPlan { pred, lists, upto }),
        "rollinstall" => Some(Reply::RollInstall { pred, lists, upto }),
        _ => None,
    }
}

fn of_move(verb: &str, pred: Str, group: u32) -> Option<Reply> {
    match verb {
        "movestart" => Some(Reply::MoveStart { pred, group }),
        "movecopy" => Some(Reply::MoveCopy { pred }),
        "movehold" => Some(Reply::MoveHold { pred }),
        "moveflip" => Some(Reply::MoveFlip { pred, group }),
        "moveoff" => Some(Reply::MoveOff { pred }),
        _ => None,
    }
}
