// Things kept in versions.
use crate::fault::{Answer, Fault};
use std::alloc::Global;

// The version of a number, or else the newest.
pub(crate) fn at<T>(versions: &[T], number: Option<u64>) -> Answer<&T> {
    let Some(number) = number else {
        return versions.last().ok_or(Fault::Unfit);
    };
    let Ok(place) = usize::try_from(number) else {
        return Err(Fault::Unfit);
    };
    versions.get(place).ok_or(Fault::Unfit)
}

// Adds a version, and says its number.
pub(crate) fn add<T: Drop>(alloc: Global, versions: &mut Vec<T>, made: T) -> Answer<String> {
    let number = versions.len();
    versions.push(made)?;
    Ok(format!(in alloc; "version {number}")?)
}
