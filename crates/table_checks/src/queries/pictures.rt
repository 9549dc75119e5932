// Control characters, which stand in rows and answers as their pictures.
use dg_values::Mem;
use std::alloc::Global;

// The text of a field, whose pictures are made plain.
pub(crate) fn plain(alloc: Global, field: &str) -> Mem<String> {
    Ok(field.chars().map(plain_char).collect(alloc)?)
}

// A text with pictures for its control characters.
pub(crate) fn pictured(alloc: Global, text: &str) -> Mem<String> {
    Ok(text.chars().map(picture).collect(alloc)?)
}

// The pictures are in the order of the characters. There is one for the blank too, which shows it at an end.
fn plain_char(c: char) -> char {
    match c {
        '␀'..='␠' => char::from_u32(c as u32 - '␀' as u32).unwrap_or(c),
        '␡' => '\u{7f}',
        _ => c,
    }
}

fn picture(c: char) -> char {
    match c {
        '\0'..='\u{1f}' => char::from_u32('␀' as u32 + c as u32).unwrap_or(c),
        '\u{7f}' => '␡',
        _ => c,
    }
}
