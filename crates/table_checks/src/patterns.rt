// What a maker of patterns builds.
use dg_check::{PatternFault, Patterns, RegexPatterns};
use dg_values::{Mem, OutOfMemory};
use std::alloc::Global;

// Whether a pattern, with the flag `i` or another word for none, is found in a text, by these three fields; or that it is
// refused.
pub(crate) fn pattern(alloc: Global, fields: &str) -> Mem<Option<String>> {
    let Some((pattern, rest)) = fields.split_once('\t') else {
        return Ok(None);
    };
    let Some((flag, text)) = rest.split_once('\t') else {
        return Ok(None);
    };
    let word = outcome(alloc, pattern, flag == "i", text)?;
    Ok(Some(String::from_str(alloc, word)?))
}

// What becomes of a pattern over a text, in a word.
fn outcome(alloc: Global, pattern: &str, fold: bool, text: &str) -> Mem<&'static str> {
    let mut maker = RegexPatterns::new(alloc);
    match maker.build(alloc, pattern, fold) {
        Ok(regex) => {
            let mut matcher = regex.matcher(alloc)?;
            Ok(if matcher.is_match(text) {
                "found"
            } else {
                "absent"
            })
        }
        Err(PatternFault::Refused) => Ok("refused"),
        Err(PatternFault::OutOfMemory) => Err(OutOfMemory),
    }
}
