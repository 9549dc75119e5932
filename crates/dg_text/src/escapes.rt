// Escapes in a Quoted token.
ghost use Rattle.std.specs.Prelude.{◌≡◌, ◌≢◌, ℕ, ◌+◌, ◌++◌, ◌-◌, ◌≤◌, ◌<◌, ◌*◌, ◌^◌, ◌⊎◌, length, drop, slice_index, slice_range, string_bytes, IsTrue, IfSome, IfOk, OnOk};
ghost use Rattle.std.specs.Char.{is_ascii_hexdigit};
ghost use Rattle.std.specs.Str.{IsCharBoundary};
ghost use Rattle.dg_text.specs.Escapes as spec;
ghost use Rattle.dg_text.specs.Escapes.{HasLowEnd};
ghost use Rattle.dg_text.specs.Tokens.{IsCut, between};

use crate::forms::{Class, run};
use crate::pieces::between;
use crate::token::Token;
use dg_values::Mem;
use std::alloc::Global;

fn hex_digit(b: u8) -> u32
    requires { IsTrue (is_ascii_hexdigit b) }
    ensures value { result ≡ spec.hex_digit b }
    ensures bound { result < 16 }
{
    (if b < 58 {
        b - 48
    } else if b < 71 {
        b - 55
    } else {
        b - 87
    }) as u32
}

fn hex_more(so_far: u32, b: u8) -> u32
    requires digit { IsTrue (is_ascii_hexdigit b) }
    requires bound { so_far ≤ 0x110000 }
    ensures value { result ≡ spec.hex_more so_far b }
    ensures bound { result ≤ 0x110000 }
{
    (16 * so_far + hex_digit(b)).min(0x110000)
}

/// The number that so many hexadecimal digits write.
#[tactic(auto, using(crate::proofs::HexLemmas::hex_goes, crate::proofs::HexLemmas::hex_no, crate::proofs::HexLemmas::hex_end, crate::proofs::HexLemmas::hex_done))]
fn hex_number(count: usize, bytes: &[u8], start: usize) -> Option<u32>
    requires { start + count < 2 ^ 64 }
    ensures value { result ≡ spec.hex_number count 0 (drop start bytes.now) }
    ensures bound { IfSome result (λ n. start + count ≤ length bytes.now ⊎ (count ≡ 0)) }
    ensures last { IfSome result (λ n. HasLowEnd bytes.now start count) }
{
    let mut so_far: u32 = 0;
    for i in 0..count {
        match bytes.get(start + i) {
            None => return None,
            Some(b) => {
                if !b.is_ascii_hexdigit() {
                    return None;
                }
                so_far = hex_more(so_far, *b);
            }
        }
    }
    Some(so_far)
}

fn is_scalar(c: u32) -> bool
    ensures { result ≡ spec.is_scalar c }
{
    c < 0xD800 || (0xE000 <= c && c < 0x110000)
}

fn hex_len(count: usize, bytes: &[u8], start: usize) -> usize
    requires some { 0 < count }
    requires fits { start + count < 2 ^ 64 }
    ensures len { result ≡ spec.hex_len count (drop start bytes.now) }
    ensures bound { result ≤ length bytes.now - start }
    ensures last { HasLowEnd bytes.now start result }
{
    match hex_number(count, bytes, start) {
        None => 0,
        Some(c) => { if is_scalar(c) { count } else { 0 } }
    }
}

fn is_simple(b: u8) -> bool
    ensures { result ≡ spec.is_simple b }
{
    b == b't'
        || b == b'b'
        || b == b'n'
        || b == b'r'
        || b == b'f'
        || b == b'"'
        || b == b'\''
        || b == b'\\'
        || b == b'/'
}

/// How many bytes after a `\` make an escape, or 0 where none stands there.
pub fn escape_len(bytes: &[u8], start: usize) -> usize
    requires { start + 9 < 2 ^ 64 }
    ensures len { result ≡ spec.escape_len (drop start bytes.now) }
    ensures bound { result ≤ length bytes.now - start }
    ensures last { HasLowEnd bytes.now start result }
{
    match bytes.get(start) {
        None => 0,
        Some(b) => {
            if is_simple(*b) {
                1
            } else if *b == b'u' {
                let n = hex_len(4, bytes, start + 1);
                if n == 0 { 0 } else { 1 + n }
            } else if *b == b'U' {
                let n = hex_len(8, bytes, start + 1);
                if n == 0 { 0 } else { 1 + n }
            } else {
                0
            }
        }
    }
}

/// The byte that a letter or a sign after `\` stands for.
fn simple_byte(b: u8) -> u8
    ensures { result ≡ spec.simple b }
{
    match b {
        b't' => b'\t',
        b'b' => 8,
        b'n' => b'\n',
        b'r' => b'\r',
        b'f' => 12,
        _ => b,
    }
}

/// The character that so many hexadecimal digits name.
fn hex_char(count: usize, bytes: &[u8], start: usize) -> Option<char>
    requires fits { start + count < 2 ^ 64 }
    ensures { result ≡ spec.hex_char count (drop start bytes.now) }
{
    match hex_number(count, bytes, start) {
        None => None,
        Some(code) => char_of(code),
    }
}

fn char_of(code: u32) -> Option<char>
    ensures { result ≡ spec.char_of code }
{
    char::from_u32(code)
}

/// The character of the escape that stands at a place, after its `\`.
fn escape_char(bytes: &[u8], start: usize) -> Option<char>
    requires { start + 9 < 2 ^ 64 }
    ensures { result ≡ spec.escape_char (drop start bytes.now) }
{
    match bytes.get(start) {
        None => None,
        Some(b) => {
            if is_simple(*b) {
                Some(simple_byte(*b) as char)
            } else if *b == b'u' {
                hex_char(4, bytes, start + 1)
            } else if *b == b'U' {
                hex_char(8, bytes, start + 1)
            } else {
                None
            }
        }
    }
}

/// Adds the character of the escape that stands after a `\`.
fn push_escaped(out: &mut String, bytes: &[u8], start: usize) -> Mem<()>
    requires { start + 9 < 2 ^ 64 }
    ensures { OnOk result (string_bytes out.new ≡ string_bytes out.old ++ spec.escape_bytes (drop start bytes.now)) }
{
    match escape_char(bytes, start) {
        None => Ok(()),
        Some(c) => Ok(out.push(c)?),
    }
}

/// Adds the character of the escape at a place, and gives the place after it.
#[tactic(auto, using(crate::proofs::EscapeLemmas::escape_says, crate::proofs::EscapeLemmas::escape_ends))]
fn push_escape(out: &mut String, text: &str, at: usize) -> Mem<usize>
    requires place { at < length text.now }
    requires size { length text.now + 10 < 2 ^ 64 }
    requires escape { slice_index text.now at ≡ 92 }
    ensures says { IfOk result (λ after. string_bytes out.new ++ spec.unescaped (drop after text.now) ≡ string_bytes out.old ++ spec.unescaped (drop at text.now)) }
    ensures forward { IfOk result (λ after. at < after) }
    ensures cut { IfOk result (λ after. IsCharBoundary text.now after) }
{
    let bytes = text.as_bytes();
    push_escaped(out, bytes, at + 1)?;
    Ok(at + 1 + escape_len(bytes, at + 1))
}

/// Adds the characters from a place up to the next escape or the end, and gives the place after them.
#[tactic(auto, using(crate::proofs::EscapeLemmas::plain_says, crate::proofs::EscapeLemmas::plain_ends, crate::proofs::EscapeLemmas::plain_some))]
fn push_plain(out: &mut String, text: &str, at: usize) -> Mem<usize>
    requires place { at < length text.now }
    requires size { length text.now + 10 < 2 ^ 64 }
    requires cut { IsCharBoundary text.now at }
    requires plain { slice_index text.now at ≢ 92 }
    ensures says { IfOk result (λ after. string_bytes out.new ++ spec.unescaped (drop after text.now) ≡ string_bytes out.old ++ spec.unescaped (drop at text.now)) }
    ensures forward { IfOk result (λ after. at < after) }
    ensures cut { IfOk result (λ after. IsCharBoundary text.now after) }
{
    let end = at + run(Class::Plain, text.as_bytes(), at);
    out.push_str(&text[at..end])?;
    Ok(end)
}

/// Adds what the escape at a place says, or the characters up to the next one, and gives the place after them.
fn push_part(out: &mut String, text: &str, at: usize) -> Mem<usize>
    requires place { at < length text.now }
    requires size { length text.now + 10 < 2 ^ 64 }
    requires cut { IsCharBoundary text.now at }
    ensures says { IfOk result (λ after. string_bytes out.new ++ spec.unescaped (drop after text.now) ≡ string_bytes out.old ++ spec.unescaped (drop at text.now)) }
    ensures forward { IfOk result (λ after. at < after) }
    ensures cut { IfOk result (λ after. IsCharBoundary text.now after) }
{
    if text.as_bytes()[at] == b'\\' {
        push_escape(out, text, at)
    } else {
        push_plain(out, text, at)
    }
}

/// What the characters between the quotes of a Quoted token say: each escape is the character that it names.
#[tactic(auto, using(crate::proofs::EscapeLemmas::all_said))]
pub fn unquoted(alloc: Global, text: &str) -> Mem<String>
    requires { length text.now ≤ 1048576 }
    ensures { IfOk result (λ s. string_bytes s ≡ spec.unescaped text.now) }
{
    let mut out = String::new(alloc);
    let mut at = 0;
    for _ in 0..text.len() {
        if at >= text.len() {
            return Ok(out);
        }
        at = push_part(&mut out, text, at)?;
    }
    Ok(out)
}

/// The text that a Quoted token of `text` says: the characters between its quotes, with each escape read as the character
/// that it names.
pub fn unescape(alloc: Global, text: &str, token: Token) -> Mem<String>
    requires size { length text.now ≤ 1048576 }
    requires cut { IsCut text.now token }
    ensures { IfOk result (λ s. string_bytes s ≡ spec.unescaped (between text.now token)) }
{
    unquoted(
        alloc,
        between(text, token.start as usize, token.end as usize),
    )
}
