// The parts of a reply or a refusal that a row names.
use crate::fields::{RowFault, text_of};
use dg_values::Str;
use std::alloc::{AllocError, Global};

/// The numbers and the texts of a row, each kind in its order: 0 and the empty text stand for what isn't there.
#[derive(Debug, Drop)]
pub struct Said {
    pub first: u64,
    pub second: u64,
    pub name: Str,
    pub other: Str,
}

impl Said {
    /// What fields say. Digits are a number, and all else is a text.
    pub fn of(alloc: Global, fields: &[&str]) -> Result<Said, RowFault> {
        let mut numbers = Vec::new(alloc);
        let mut texts = Vec::new(alloc);
        for field in fields {
            match field.parse::<u64>() {
                Ok(number) => numbers.push(number)?,
                Err(_) => texts.push(*field)?,
            }
        }
        Ok(Said {
            first: numbers.first().copied().unwrap_or(0),
            second: numbers.get(1).copied().unwrap_or(0),
            name: part_of(alloc, texts.first().copied())?,
            other: part_of(alloc, texts.get(1).copied())?,
        })
    }
}

fn part_of(alloc: Global, field: Option<&str>) -> Result<Str, AllocError> {
    Ok(Str::from_string(text_of(alloc, field.unwrap_or(""))?))
}

/// A number of a session or a group: 0 for one that is too large.
pub fn small(number: u64) -> u32 {
    u32::try_from(number).unwrap_or(0)
}
