//! Numbers.
ghost use Rattle.std.specs.Prelude.{◌≡◌, ◌≤◌, length};
ghost use Rattle.expr_token.specs.Tokens.{digits_go_on, digits_of, value_with, value_of, fitting, number};

use crate::byte::begins_with_digit;
use crate::token::{Cut, Token, sized};

/// The greatest number that can be written.
const MOST: u64 = 9223372036854775807;

// Whether the digits go on with the first of these bytes.
fn go_on(rest: &[u8]) -> bool
    ensures { result ≡ digits_go_on rest.now }
{
    match rest {
        [first, behind @ ..] => {
            if first.is_ascii_digit() {
                true
            } else if *first == b'_' {
                begins_with_digit(behind)
            } else {
                false
            }
        }
        [] => false,
    }
}

// How many bytes the digits have that these bytes begin with.
fn digits_length(rest: &[u8]) -> usize
    ensures { result ≡ length (digits_of rest.now) }
{
    let mut end = 0;
    'more: while end < rest.len() && go_on(rest.split_at(end).1) {
        end += 1;
    }
    end
}

// A number with one more character, unless it is too large.
fn with_character(value: u64, byte: u8) -> Option<u64>
    requires { value ≤ 9223372036854775807 }
    ensures { result ≡ fitting (value_with value byte) }
{
    if !byte.is_ascii_digit() {
        return Some(value);
    }
    let digit = (byte - b'0') as u64;
    if value > (MOST - digit) / 10 {
        return None;
    }
    Some(value * 10 + digit)
}

// The number that these digits spell, unless it is too large.
fn value_of(digits: &[u8]) -> Option<u64>
    ensures { result ≡ fitting (value_of 0 digits.now) }
{
    let mut value = 0;
    'each: for byte in digits {
        value = with_character(value, *byte)?;
    }
    Some(value)
}

/// The number that these bytes begin with.
pub(crate) fn number(rest: &[u8]) -> Cut
    ensures { result ≡ number rest.now }
{
    let size = digits_length(rest);
    let token = match value_of(rest.split_at(size).0) {
        Some(value) => Token::Number(value as i64),
        None => Token::BadNumber,
    };
    sized(token, size)
}
