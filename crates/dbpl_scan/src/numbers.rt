//! Numbers, and characters by their codes.
ghost use Rattle.std.specs.Prelude.{◌≡◌, ◌≤◌, length, take_while};
ghost use Rattle.std.specs.List.{prefix_len};
ghost use Rattle.dbpl_base.specs.Spelling as spelling;
ghost use Rattle.dbpl_base.specs.Words as bytes;
ghost use Rattle.dbpl_scan.specs.Fronts as fronts;
ghost use Rattle.dbpl_scan.specs.Fronts.{BeginsBy, StandsFirst};

use crate::bytes::{is_digit, is_hexadecimal, is_octal, past};
use dbpl_base::Lexeme;
use dbpl_base::limits::GREATEST_LITERAL;

fn digit_count(text: &[u8]) -> usize
    ensures count { result ≡ prefix_len bytes.is_digit text.now }
    ensures within { result ≤ length text.now }
{
    text.iter().take_while(|byte| is_digit(**byte)).count()
}

fn octal_count(text: &[u8]) -> usize
    ensures count { result ≡ prefix_len bytes.is_octal text.now }
    ensures within { result ≤ length text.now }
{
    text.iter().take_while(|byte| is_octal(**byte)).count()
}

fn hexadecimal_count(text: &[u8]) -> usize
    ensures count { result ≡ prefix_len bytes.is_hexadecimal text.now }
    ensures within { result ≤ length text.now }
{
    text.iter()
        .take_while(|byte| is_hexadecimal(**byte))
        .count()
}

/// The hexadecimal digits at the front, and what follows them.
fn hexadecimal_digits(text: &[u8]) -> (&[u8], &[u8])
    ensures digits { result.0.now ≡ take_while bytes.is_hexadecimal text.now }
    ensures rest { result.1.now ≡ fronts.drop_while bytes.is_hexadecimal text.now }
{
    text.split_at(hexadecimal_count(text))
}

/// The octal digits at the front, and what follows them.
fn octal_digits(text: &[u8]) -> (&[u8], &[u8])
    ensures digits { result.0.now ≡ take_while bytes.is_octal text.now }
    ensures rest { result.1.now ≡ fronts.drop_while bytes.is_octal text.now }
{
    text.split_at(octal_count(text))
}

/// The decimal digits at the front, and what follows them.
fn decimal_digits(text: &[u8]) -> (&[u8], &[u8])
    ensures digits { result.0.now ≡ take_while bytes.is_digit text.now }
    ensures rest { result.1.now ≡ fronts.drop_while bytes.is_digit text.now }
{
    text.split_at(digit_count(text))
}

fn begins_with(text: &[u8], byte: u8) -> bool
    ensures { result ≡ fronts.begins_with byte text.now }
{
    text.first().is_some_and(|first| *first == byte)
}

/// What a digit counts, A to F as ten to fifteen.
fn digit_worth(digit: u8) -> u8
    ensures { result ≡ spelling.digit_worth digit }
{
    if digit < b'A' {
        digit.saturating_sub(b'0')
    } else {
        digit - 55
    }
}

/// The number that the digits are in this base, as a token keeps it.
fn number_in(base: u8, digits: &[u8]) -> u64
    requires { 1 ≤ base }
    ensures { result ≡ spelling.number_kept (spelling.number_in base digits.now) }
{
    let mut number: u64 = 0;
    for digit in digits {
        number = (number * base as u64 + digit_worth(*digit) as u64).min(GREATEST_LITERAL);
    }
    number
}

/// The longest of the spellings of numbers and of characters by their codes.
pub fn number_token(text: &[u8]) -> (Lexeme, &[u8])
    requires { BeginsBy bytes.is_digit text.now }
    ensures { StandsFirst text.now result.0 result.1.now }
{
    let (digits, rest) = hexadecimal_digits(text);
    if begins_with(rest, b'H') {
        return (Lexeme::Number(number_in(16, digits)), past(rest, 1));
    }
    let (digits, rest) = octal_digits(text);
    if begins_with(rest, b'B') {
        return (Lexeme::Number(number_in(8, digits)), past(rest, 1));
    }
    if begins_with(rest, b'C') {
        return (Lexeme::CharCode(number_in(8, digits)), past(rest, 1));
    }
    let (digits, rest) = decimal_digits(text);
    (Lexeme::Number(number_in(10, digits)), rest)
}
