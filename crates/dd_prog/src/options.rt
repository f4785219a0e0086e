//! An option of a command: its name, and the number that it is given.

ghost use Rattle.std.specs.Prelude.{◌≡◌, map, option_map, string_bytes};
ghost use Rattle.dd_prog.specs.Options.{behind, value_given, number_given};
ghost use Rattle.dd_prog.specs.Options.{has_no_leading_0, numeral, within};

/// What stands in a word behind a front, where it begins so.
fn behind<'w>(front: &str, word: &'w str) -> Option<&'w str>
    ensures { option_map (λ rest. rest.now) result ≡ behind front.now word.now }
{
    word.strip_prefix(front)
}

/// The value that the words give to an option: what stands in one word behind its name and `=`, or
/// the word behind its name.
fn value_given<'w>(name: &str, words: &'w [String]) -> Option<&'w str>
    ensures { option_map (λ value. value.now) result ≡ value_given name.now (map string_bytes words.now) }
{
    match words {
        [word] => behind("=", behind(name, word.as_str())?),
        [word, value] if word.as_str() == name => Some(value.as_str()),
        _ => None,
    }
}

/// Whether a word is `0`, or begins with a digit from 1 to 9.
fn has_no_leading_0(word: &str) -> bool
    ensures { result ≡ has_no_leading_0 word.now }
{
    word == "0" || matches!(word.as_bytes(), [b'1'..=b'9', ..])
}

/// A number, where it is from `least` to `most`.
fn within(least: u32, most: u32, number: Option<u32>) -> Option<u32>
    ensures { result ≡ within least most number }
{
    match number {
        Some(n) if least <= n && n <= most => Some(n),
        _ => None,
    }
}

/// The number that a word writes, where it is from `least` to `most`.
pub(crate) fn numeral(least: u32, most: u32, word: &str) -> Option<u32>
    ensures { result ≡ within least most (numeral word.now) }
{
    if !has_no_leading_0(word) {
        return None;
    }
    within(least, most, word.parse::<u32>().ok())
}

/// The number, from `least` to `most`, that the words give to an option.
pub(crate) fn number_given(name: &str, least: u32, most: u32, words: &[String]) -> Option<u32>
    ensures { result ≡ number_given name.now least most (map string_bytes words.now) }
{
    numeral(least, most, value_given(name, words)?)
}
