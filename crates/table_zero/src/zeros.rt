// The table of the state that coordinates all.
ghost use Rattle.std.specs.Prelude.{◌≡◌};

use crate::edges::offer_text;
use crate::fault::{Answer, Fault};
use crate::ground::{schema_of, schema_text};
use crate::kept_zero::KeptZero;
use crate::listing::{record_text, tablets_text};
use crate::postings::{changes, posting, postings_text};
use crate::triples::subject;
use crate::words::{halved, maybe, number, small, text, told, truth, words_of};
use dg_keys::ConflictKey;
use dg_oracle::{OracleFault, Verdict};
use dg_sets::ascend;
use dg_values::{List, OutOfMemory, Str};
use dg_zero::{
    Begun, CommitFault, Phase, ZeroFault, each_history, longer_histories, schemas_of_starts,
};
use std::alloc::Global;

pub(crate) fn answer(
    alloc: Global,
    kept: &mut Option<KeptZero>,
    command: &str,
    rest: &str,
) -> Answer<String> {
    match command {
        "new" => {
            *kept = Some(KeptZero::new(alloc, small(rest)?)?);
            told(alloc, "made")
        }
        "laws" => {
            each_history();
            longer_histories();
            schemas_of_starts();
            told(alloc, "hold")
        }
        "phase" => phase(alloc, rest),
        "fault" => fault_from(alloc, rest),
        _ => match kept {
            Some(kept) => changed(alloc, kept, command, rest),
            None => Err(Fault::Unfit),
        },
    }
}

// How a phase prints.
fn phase(alloc: Global, word: &str) -> Answer<String> {
    let phase = match word {
        "idle" => Phase::Idle,
        "started" => Phase::Started,
        "copied" => Phase::Copied,
        "held" => Phase::Held,
        _ => return Err(Fault::Unfit),
    };
    Ok(format!(in alloc; "{phase}")?)
}

// What becomes of a fault of memory, or of the oracle.
fn fault_from(alloc: Global, word: &str) -> Answer<String> {
    let fault = match word {
        "memory" => ZeroFault::from(OutOfMemory),
        "draw" => ZeroFault::from(OracleFault::OutOfMemory),
        _ => ZeroFault::from(OracleFault::TimestampsSpent {
            next: number(word)?,
        }),
    };
    fault_text(alloc, &fault)
}

// Why a call is refused.
fn fault_text(alloc: Global, fault: &ZeroFault) -> Answer<String> {
    match fault {
        ZeroFault::OutOfMemory => told(alloc, "out of memory"),
        ZeroFault::TimestampsSpent { next } => Ok(format!(in alloc; "timestamps spent at {next}")?),
        ZeroFault::UidsSpent { next } => Ok(format!(in alloc; "nodes spent at {next}")?),
        ZeroFault::Pending { start } => Ok(format!(in alloc; "pending {start}")?),
        _ => Err(Fault::Unfit),
    }
}

// The calls that append an entry.
fn changed(alloc: Global, kept: &mut KeptZero, command: &str, rest: &str) -> Answer<String> {
    match command {
        "begin" => match kept.begin(alloc, small(rest)?)? {
            Ok(begun) => begun_text(alloc, &begun),
            Err(fault) => fault_text(alloc, &fault),
        },
        "look" => {
            kept.look(alloc, small(rest)?)?;
            told(alloc, "looked")
        }
        "end" => {
            let (author, start) = halved(rest);
            truth(alloc, kept.end(alloc, small(author)?, number(start)?)?)
        }
        "lease" => leased(alloc, kept, rest),
        "alter" => altered(alloc, kept, rest),
        "commit" => committed(alloc, kept, rest),
        _ => asked(alloc, kept, command, rest),
    }
}

// A start, the schema there and the owners of its tablets.
fn begun_text(alloc: Global, begun: &Begun) -> Answer<String> {
    let schema = schema_text(alloc, &begun.schema)?;
    let owners = tablets_text(alloc, begun.owners.tablets())?;
    Ok(format!(in alloc; "{}; {schema}; {owners}", begun.start)?)
}

fn leased(alloc: Global, kept: &mut KeptZero, rest: &str) -> Answer<String> {
    let (author, rest) = halved(rest);
    let (top, count) = halved(rest);
    let (author, top, count) = (small(author)?, number(top)?, number(count)?);
    match kept.lease(alloc, author, top, count)? {
        Ok(first) => Ok(first.to_string(alloc)?),
        Err(fault) => fault_text(alloc, &fault),
    }
}

fn altered(alloc: Global, kept: &mut KeptZero, rest: &str) -> Answer<String> {
    let newer = schema_of(alloc, rest)?;
    match kept.alter(alloc, newer)? {
        Ok((start, ts)) => Ok(format!(in alloc; "{start} {ts}")?),
        Err(fault) => fault_text(alloc, &fault),
    }
}

fn committed(alloc: Global, kept: &mut KeptZero, rest: &str) -> Answer<String> {
    let (author, rest) = halved(rest);
    let (start, rest) = halved(rest);
    let words = words_of(alloc, rest)?;
    let changes = List::from_vec(changes(alloc, words.as_slice())?);
    match kept.commit(alloc, small(author)?, number(start)?, changes)? {
        Ok(ts) => Ok(ts.to_string(alloc)?),
        Err(fault) => refused_text(alloc, &fault),
    }
}

// Why a commit is refused.
fn refused_text(alloc: Global, fault: &CommitFault) -> Answer<String> {
    match fault {
        CommitFault::OutOfMemory { .. } => told(alloc, "out of memory"),
        CommitFault::Moving { pred } => Ok(format!(in alloc; "moving {pred}")?),
        CommitFault::Conflict { text, ts, .. } => Ok(format!(in alloc; "{text} at {ts}")?),
        CommitFault::TimestampsSpent { next, offer } => {
            let offer = offer_text(alloc, offer)?;
            Ok(format!(in alloc; "timestamps spent at {next}: {offer}")?)
        }
    }
}

// The calls that append nothing.
fn asked(alloc: Global, kept: &KeptZero, command: &str, rest: &str) -> Answer<String> {
    match command {
        "schema" => schema_text(alloc, kept.zero().schema()),
        "lookup" => truth(alloc, kept.zero().schema().lookup(rest).is_some()),
        "first" => maybe(alloc, kept.zero().first_active()),
        "has" => truth(alloc, kept.has_triple(alloc, rest)?),
        "node" => Ok(kept.zero().next_uid().to_string(alloc)?),
        "next" => next(alloc, kept, number(rest)?),
        "objects" => objects(alloc, kept, rest),
        "judge" => judged(alloc, kept, rest),
        "offer" => offered(alloc, kept, rest),
        _ => Err(Fault::Unfit),
    }
}

// The first record above a timestamp.
fn next(alloc: Global, kept: &KeptZero, after: u64) -> Answer<String> {
    match kept.zero().next_record(after) {
        Some(written) => Ok(record_text(alloc, written)?),
        None => told(alloc, "none"),
    }
}

// The objects of a subject at a timestamp.
fn objects(alloc: Global, kept: &KeptZero, rest: &str) -> Answer<String> {
    let (at, rest) = halved(rest);
    let words = words_of(alloc, rest)?;
    let (s, p) = subject(words.as_slice())?;
    let p = text(alloc, p)?;
    let objects = kept.objects(alloc, number(at)?, &p, s)?;
    Ok(postings_text(alloc, objects.as_slice())?)
}

// The offer of changes over the graph at a start.
fn offered(alloc: Global, kept: &KeptZero, rest: &str) -> Answer<String> {
    let (start, rest) = halved(rest);
    let words = words_of(alloc, rest)?;
    let changes = changes(alloc, words.as_slice())?;
    let offer = kept.offer(alloc, number(start)?, changes.as_slice())?;
    offer_text(alloc, &offer)
}

// The verdict on the keys of an active start. A bar stands behind each.
fn judged(alloc: Global, kept: &KeptZero, rest: &str) -> Answer<String> {
    let (start, rest) = halved(rest);
    let words = words_of(alloc, rest)?;
    let mut keys = Vec::new(alloc);
    for words in words.as_slice().split(|word| *word == "|") {
        keys.push(key(alloc, words)?)?;
    }
    if !ascend(keys.as_slice()) {
        return Err(Fault::Unfit);
    }
    match kept.judge(number(start)?, keys.as_slice())? {
        Verdict::Clear => told(alloc, "clear"),
        Verdict::Conflict { at, ts } => Ok(format!(in alloc; "place {at} at {ts}")?),
    }
}

// The key of a subject and a predicate, and maybe of an object.
fn key(alloc: Global, words: &[&str]) -> Answer<ConflictKey> {
    let (s, p, o) = match *words {
        [s, p] => (s, p, None),
        [s, p, o] => (s, p, Some(posting(alloc, o)?)),
        _ => return Err(Fault::Unfit),
    };
    let p = Str::from_str(alloc, p)?;
    let s = number(s)?;
    Ok(ConflictKey::Data { p, s, o })
}
