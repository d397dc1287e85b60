//! What a single word looks like.
ghost use Rattle.std.specs.Prelude.{◌≡◌, option_map, string_bytes};
ghost use Rattle.std.specs.List.{list_all};
ghost use Rattle.clap.specs.Lexer.{long_of, long_of_rest, strip_byte};
ghost use Rattle.command_options.specs.Given.{is_value};
ghost use Rattle.command_options.specs.Words.{has_good_value, is_tame};

/// Whether the text may be a value: it is not empty, and does not begin with `-`.
fn is_value(text: &str) -> bool
    ensures { result ≡ is_value text.now }
{
    match text.as_bytes() {
        [] => false,
        [first, ..] => *first != b'-',
    }
}

/// What follows a first `-`.
fn after_dash(text: &str) -> Option<&str>
    ensures { option_map (λ rest. rest.now) result ≡ strip_byte 45 text.now }
{
    text.strip_prefix('-')
}

/// Whether what follows `--` is a name, or a name, `=` and what may be a value.
fn has_good_value(long: &str) -> bool
    ensures { result ≡ has_good_value (long_of_rest long.now) }
{
    match long.split_once('=') {
        Some((_, value)) => is_value(value),
        None => !long.is_empty(),
    }
}

fn is_long(word: &str) -> bool
    ensures { result ≡ has_good_value (long_of word.now) }
{
    match after_dash(word).and_then(after_dash) {
        Some(long) => has_good_value(long),
        None => false,
    }
}

/// Whether the word may stand where options are spelled: it may be a value, or it is `--name` or `--name=value`.
fn is_tame(word: &str) -> bool
    ensures { result ≡ is_tame word.now }
{
    is_value(word) || is_long(word)
}

/// Whether each word may stand where options are spelled.
pub fn are_tame(words: &[String]) -> bool
    ensures { result ≡ list_all (λ word. is_tame (string_bytes word)) words.now }
{
    words.iter().all(|word| is_tame(word))
}
