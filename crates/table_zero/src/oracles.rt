// The table of oracles.
use crate::colors::{Color, colors};
use crate::fault::{Answer, Fault};
use crate::kept_oracle::KeptOracle;
use crate::words::{maybe, number, told, truth, words_of};
use dg_oracle::{OracleFault, Verdict};
use std::alloc::Global;
use std::fmt::Write;

pub(crate) fn answer(
    alloc: Global,
    kept: &mut Option<KeptOracle<Color>>,
    command: &str,
    rest: &str,
) -> Answer<String> {
    match command {
        "new" => {
            *kept = Some(KeptOracle::new(alloc, number(rest)?)?);
            told(alloc, "made")
        }
        "fault" => told_fault(alloc, rest),
        _ => match kept {
            Some(oracle) => asked(alloc, oracle, command, rest),
            None => Err(Fault::Unfit),
        },
    }
}

fn told_fault(alloc: Global, word: &str) -> Answer<String> {
    let fault = match word {
        "memory" => OracleFault::OutOfMemory,
        _ => OracleFault::TimestampsSpent {
            next: number(word)?,
        },
    };
    Ok(format!(in alloc; "{fault}")?)
}

fn asked(alloc: Global, kept: &mut KeptOracle<Color>, command: &str, rest: &str) -> Answer<String> {
    match command {
        "next" => Ok(kept.oracle().next().to_string(alloc)?),
        "first" => maybe(alloc, kept.oracle().first_active()),
        "line" => Ok(kept.oracle().line().to_string(alloc)?),
        "judge" => judged(alloc, kept, rest),
        _ => changed(alloc, kept, command, rest),
    }
}

fn changed(
    alloc: Global,
    kept: &mut KeptOracle<Color>,
    command: &str,
    rest: &str,
) -> Answer<String> {
    match command {
        "begin" => match kept.begin()? {
            Ok(start) => Ok(start.to_string(alloc)?),
            Err(fault) => Ok(format!(in alloc; "{fault}")?),
        },
        "end" => truth(alloc, kept.end(number(rest)?)),
        "two" => match kept.draw_two() {
            Some((first, second)) => Ok(format!(in alloc; "{first} {second}")?),
            None => told(alloc, "none"),
        },
        "purge" => Ok(kept.purge(number(rest)?)?.to_string(alloc)?),
        "commit" => committed(alloc, kept, rest),
        _ => Err(Fault::Unfit),
    }
}

// A start and keys, of which some may be none.
fn start_and_keys(alloc: Global, rest: &str) -> Answer<(u64, Vec<Color>)> {
    let words = words_of(alloc, rest)?;
    let Some((start, words)) = words.as_slice().split_first() else {
        return Err(Fault::Unfit);
    };
    Ok((number(start)?, colors(alloc, words)?))
}

fn judged(alloc: Global, kept: &KeptOracle<Color>, rest: &str) -> Answer<String> {
    let (start, keys) = start_and_keys(alloc, rest)?;
    match kept.judge(start, keys)? {
        Verdict::Clear => told(alloc, "clear"),
        Verdict::Conflict { at, ts } => Ok(format!(in alloc; "place {at} at {ts}")?),
    }
}

fn committed(alloc: Global, kept: &mut KeptOracle<Color>, rest: &str) -> Answer<String> {
    let (start, keys) = start_and_keys(alloc, rest)?;
    match kept.commit(start, keys)? {
        Ok(ts) => Ok(ts.to_string(alloc)?),
        Err((fault, keys)) => {
            let mut text = format!(in alloc; "{fault}, with")?;
            for key in &keys {
                write!(text, " {key:?}")?;
            }
            Ok(text)
        }
    }
}
