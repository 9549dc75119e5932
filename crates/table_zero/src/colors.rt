// The keys of the oracle's rows: colors, of which some are numbered.
use crate::fault::Answer;
use crate::words::number;
use std::alloc::Global;

// A key. Red is below green, and green below all numbers.
#[derive(Clone, Copy, Debug, PartialEq, Eq, PartialOrd, Ord)]
pub(crate) enum Color {
    Red,
    Green,
    Blue(u64),
}

// The key that a word stands for.
fn color_of(word: &str) -> Answer<Color> {
    match word {
        "red" => Ok(Color::Red),
        "green" => Ok(Color::Green),
        _ => Ok(Color::Blue(number(word)?)),
    }
}

pub(crate) fn colors(alloc: Global, words: &[&str]) -> Answer<Vec<Color>> {
    let mut colors = Vec::new(alloc);
    for word in words {
        colors.push(color_of(word)?)?;
    }
    Ok(colors)
}
