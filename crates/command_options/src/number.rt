//! Decimal numbers.
ghost use Rattle.std.specs.Prelude.{◌≡◌, ◌-◌, ◌^◌};
ghost use Rattle.command_options.specs.Numbers.{NumberIn, is_plain};

/// Whether the text has no plus sign and no leading zero, both of which `parse` takes.
fn is_plain(text: &[u8]) -> bool
    ensures { result ≡ is_plain text.now }
{
    match text {
        [b'+', ..] | [b'0', _, ..] => false,
        _ => true,
    }
}

fn decimal_number(text: &str) -> Option<u32>
    ensures { NumberIn text.now 0 (2 ^ 32 - 1) result }
{
    if !is_plain(text.as_bytes()) {
        return None;
    }
    match text.parse() {
        Ok(number) => Some(number),
        Err(_) => None,
    }
}

/// The number that the text tells, if it is one from `low` to `high`.
pub fn number_in(text: &str, low: u32, high: u32) -> Option<u32>
    ensures { NumberIn text.now low high result }
{
    let number = decimal_number(text)?;
    if number < low || high < number {
        return None;
    }
    Some(number)
}
