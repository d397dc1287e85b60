//! Numbers among the words.

ghost use Rattle.std.specs.Prelude.{◌≤◌, IfOk};

use anyhow::{Context, Result, ensure};

/// The number in the word at a place.
pub fn number(words: &[String], place: usize) -> Result<u32> {
    let word = words.get(place).context("a number is missing")?;
    word.as_str().parse::<u32>().context("this is no number")
}

/// The number in the word at a place, from 1 on.
pub fn number_up_to(words: &[String], place: usize, most: u32) -> Result<u32>
    ensures { IfOk result (λ n. (1 ≤ n) × (n ≤ most)) }
{
    let n = number(words, place)?;
    ensure!(1 <= n && n <= most, "a number is out of its range");
    Ok(n)
}
