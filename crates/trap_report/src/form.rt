//! The forms of the fields of a line that is read.
ghost use Rattle.std.specs.Prelude.{◌≡◌, ◌+◌, ◌-◌, ◌*◌, ◌^◌, ◌<◌, ◌≤◌, ◌&&◌, nat_le, true, length};
ghost use Rattle.std.specs.List.{list_all};
ghost use Rattle.trap_report.specs.Forms.{has_form, has_leading_zero, is_digit, is_hex_digit, is_in_range, number, word_text};

use crate::report_line::{HeaderLine, Section};
use crate::spelling::{header_name, section_name};

/// A word of a report that is no name of a meeting or of a verdict.
#[derive(Clone, Copy, Debug, PartialEq, Eq)]
pub enum ReportWord {
    TaintReport,
    One,
    NameOf(HeaderLine),
    CountOf(Section),
    Exit,
    Trapped,
    Fault,
    Budget,
    Spent,
    End,
}

/// What a field of a line has to be.
#[derive(Clone, Copy, Debug, PartialEq, Eq)]
pub enum Field {
    Exactly(ReportWord),
    /// `call` or `sink`.
    Meeting,
    /// `go` or `stop`.
    Verdict,
    /// A decimal from the first number to the second.
    Decimal(u32, u32),
    /// So many digits in hexadecimal.
    Hex(u8),
}

fn word_text(word: ReportWord) -> &'static [u8]
    ensures { result.now ≡ word_text word }
{
    match word {
        ReportWord::TaintReport => b"taint-report",
        ReportWord::One => b"1",
        ReportWord::NameOf(name) => header_name(name),
        ReportWord::CountOf(section) => section_name(section),
        ReportWord::Exit => b"exit",
        ReportWord::Trapped => b"trapped",
        ReportWord::Fault => b"fault",
        ReportWord::Budget => b"budget",
        ReportWord::Spent => b"spent",
        ReportWord::End => b"end",
    }
}

/// Whether a text has the form of a field. A decimal has 1 to 10 digits; its range is not looked at.
pub fn has_form(field: Field, text: &[u8]) -> bool
    ensures { result ≡ has_form field text.now }
{
    match field {
        Field::Exactly(word) => text == word_text(word),
        Field::Meeting => text == b"call".as_slice() || text == b"sink".as_slice(),
        Field::Verdict => text == b"go".as_slice() || text == b"stop".as_slice(),
        Field::Decimal(_, _) => !text.is_empty() && text.len() <= 10 && are_digits(text),
        Field::Hex(count) => text.len() == usize::from(count) && are_hex_digits(text),
    }
}

fn are_digits(text: &[u8]) -> bool
    ensures { result ≡ list_all is_digit text.now }
{
    text.iter().all(|c| is_digit(*c))
}

fn are_hex_digits(text: &[u8]) -> bool
    ensures { result ≡ list_all is_hex_digit text.now }
{
    text.iter().all(|c| is_hex_digit(*c))
}

fn is_digit(c: u8) -> bool
    ensures { result ≡ is_digit c }
{
    48 <= c && c <= 57
}

fn is_hex_digit(c: u8) -> bool
    ensures { result ≡ is_hex_digit c }
{
    is_digit(c) || (97 <= c && c <= 102)
}

/// Whether a field that is a decimal has no leading zero and is in its range.
pub fn is_in_range(field: Field, text: &[u8]) -> bool
    requires { has_form field text.now ≡ true }
    ensures { result ≡ is_in_range field text.now }
{
    match field {
        Field::Decimal(low, high) => !has_leading_zero(text) && is_within(number(text), low, high),
        _ => true,
    }
}

fn has_leading_zero(text: &[u8]) -> bool
    requires { 1 ≤ length text.now }
    ensures { result ≡ has_leading_zero text.now }
{
    text[0] == b'0' && text.len() != 1
}

fn is_within(number: u64, low: u32, high: u32) -> bool
    ensures { result ≡ (nat_le low number && nat_le number high) }
{
    u64::from(low) <= number && number <= u64::from(high)
}

/// The number that 1 to 10 digits tell.
pub fn number(text: &[u8]) -> u64
    requires few { length text.now ≤ 10 }
    requires digits { list_all is_digit text.now ≡ true }
    ensures number { result ≡ number text.now }
    ensures small { result < 10 ^ 10 }
{
    let mut number = 0;
    for c in text {
        number = 10 * number + u64::from(*c - b'0');
    }
    number
}
