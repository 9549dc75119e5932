// The nodes and numbers that tokens name.
ghost use Rattle.std.specs.Prelude.{◌≡◌, ◌<◌, ◌^◌, nat_lt};
ghost use Rattle.std.specs.Option.{option_copied};
ghost use Rattle.std.specs.List.{list_all};
ghost use Rattle.std.specs.Str.Parse.{AllDigits, digits_value};
ghost use Rattle.std.specs.Char.{digit_value};
ghost use Rattle.dg_values.specs.Scanning.{int_of_text};
ghost use Rattle.dg_text.specs.Tokens.{tok};
ghost use Rattle.dg_text.specs.Said as spec;

use crate::kinds::{is_a_uid, is_an_int};
use crate::token::Piece;

/// What stands behind a text at the front.
pub fn behind<'a>(front: &[u8], bytes: &'a [u8]) -> Option<&'a [u8]>
    ensures { option_copied result ≡ spec.behind front.now bytes.now }
{
    bytes.strip_prefix(front)
}

fn is_hex(byte: u8) -> bool
    ensures { result ≡ nat_lt (digit_value byte) 16 }
{
    char::from(byte).is_ascii_hexdigit()
}

fn are_hex(digits: &[u8]) -> bool
    ensures { result ≡ list_all (λ d. nat_lt (digit_value d) 16) digits.now }
{
    digits.iter().all(|d| is_hex(*d))
}

fn hex_digit(byte: u8) -> u64
    requires { digit_value byte < 16 }
    ensures { result ≡ digit_value byte }
{
    u64::from(char::from(byte).to_digit(16).unwrap())
}

// The value of hexadecimal digits.
fn hex_value(digits: &[u8]) -> u64
    requires each { AllDigits 16 digits.now }
    requires small { digits_value 16 digits.now < 2 ^ 64 }
    ensures { result ≡ digits_value 16 digits.now }
{
    let mut value = 0u64;
    for digit in digits {
        value = value * 16 + hex_digit(*digit);
    }
    value
}

// The node that 1 to 16 hexadecimal digits name, which aren't all zero.
#[tactic(auto, unfolding(crate::specs::Said::uid_of))]
fn uid_of_digits(digits: &[u8]) -> Option<u64>
    ensures { result ≡ spec.uid_of digits.now }
{
    if digits.is_empty() || digits.len() > 16 || !are_hex(digits) {
        return None;
    }
    let value = hex_value(digits);
    if value > 0 { Some(value) } else { None }
}

/// The node that all of a text names, by `0x` and its digits.
pub fn uid_said(text: &str) -> Option<u64>
    ensures { result ≡ spec.uid_said text.now }
{
    match behind(b"0x", text.as_bytes()) {
        None => None,
        Some(digits) => uid_of_digits(digits),
    }
}

/// The node that a Uid names.
pub fn uid_of(token: &Piece) -> Option<u64>
    ensures { result ≡ spec.uid_meant (tok token.now) }
{
    if is_a_uid(token) {
        uid_said(token.text)
    } else {
        None
    }
}

// The number of 64 bits that all of a text is.
fn number(text: &str) -> Option<i64>
    ensures { result ≡ int_of_text text.now }
{
    text.parse::<i64>().ok()
}

/// The number of an Int; none where it is no number of 64 bits.
pub fn int_of(token: &Piece) -> Option<i64>
    ensures { result ≡ spec.int_meant (tok token.now) }
{
    if is_an_int(token) {
        number(token.text)
    } else {
        None
    }
}

/// Whether a token is an Int that is no number of 64 bits.
pub fn is_a_wide_int(token: &Piece) -> bool
    ensures { result ≡ spec.is_wide (tok token.now) }
{
    is_an_int(token) && number(token.text).is_none()
}
