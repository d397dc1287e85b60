//! A line of fields against a form.
ghost use Rattle.std.specs.Prelude.{◌≡◌, ◌+◌, ◌<◌, ◌≤◌, ◌∷◌, [], true, ◌==◌, length, ◌&&◌, IfSome, IfOk, position};
ghost use Rattle.std.specs.List.{slice_split};
ghost use Rattle.std.specs.Option.{option_map};
ghost use Rattle.trap_report.specs.Forms.{has_form, is_in_range};
ghost use Rattle.trap_report.specs.Matching.{ReadsWithin, form_read, greatest, number_or, parts_left};
ghost use Rattle.trap_report.specs.Reading.{fields_of};

use crate::form::{Field, has_form, is_in_range, number};
use crate::saved::ReportKind;

/// A text up to the first place of a byte, and what stands behind that byte, where it has one.
pub fn cut_at(text: &[u8], byte: u8) -> (&[u8], Option<&[u8]>)
    ensures parts { slice_split (λ b. b == byte) text.now
        ≡ result.0.now ∷ parts_left byte (option_map (λ rest. rest.now) result.1) }
    ensures shorter { IfSome result.1 (λ rest. length rest.now < length text.now) }
{
    match place_of(byte, text) {
        Some(place) => (&text[..place], Some(&text[place + 1..])),
        None => (text, None),
    }
}

// The first place of a byte in a text.
fn place_of(byte: u8, text: &[u8]) -> Option<usize>
    ensures { result ≡ position (λ b. b == byte) text.now }
{
    text.iter().position(|b| *b == byte)
}

/// What a line of a form tells, or `None` where it has another form: its first decimal, or a fault
/// where a decimal has a leading zero or is out of its range.
pub fn form_read(line: &[u8], form: &[Field]) -> Option<Result<u64, ReportKind>>
    ensures read { result ≡ form_read form.now (fields_of line.now) }
    ensures small { IfSome result (λ read. IfOk read (λ number. number ≤ greatest form.now)) }
    ensures within { IfSome result (λ read. IfOk read (ReadsWithin form.now)) }
{
    let mut rest = Some(line);
    let mut good = true;
    let mut first = None;
    for field in form {
        let Some(fields) = rest else {
            return None;
        };
        let (text, behind) = cut_at(fields, b' ');
        if !has_form(*field, text) {
            return None;
        }
        good = is_good_too(good, *field, text);
        first = number_or(first, *field, text);
        rest = behind;
    }
    if rest.is_some() {
        return None;
    }
    if good {
        Some(Ok(first.unwrap_or(0)))
    } else {
        Some(Err(ReportKind::Number))
    }
}

// Whether the numbers before were in their ranges, and that of a field too.
fn is_good_too(good: bool, field: Field, text: &[u8]) -> bool
    requires { has_form field text.now ≡ true }
    ensures { result ≡ (good && is_in_range field text.now) }
{
    good && is_in_range(field, text)
}

// The number before, or else that of a field that is a decimal.
fn number_or(first: Option<u64>, field: Field, text: &[u8]) -> Option<u64>
    requires { has_form field text.now ≡ true }
    ensures { result ≡ number_or first field text.now }
{
    match (first, field) {
        (Some(number), _) => Some(number),
        (None, Field::Decimal(_, _)) => Some(number(text)),
        (None, _) => None,
    }
}
