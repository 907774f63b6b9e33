//! Labels: words joined by hyphens.
//!
//! Component model, explainer: `label`.

ghost use Rattle.std.specs.Prelude.{◌≡◌, ◌↔◌, IsTrue, slice_index, ◌==◌};
ghost use Rattle.std.specs.List.{list_all, slice_split, AllByRecursion};
ghost use Rattle.std.specs.Char.{is_ascii_alphabetic};
ghost use Rattle.comp_names.specs.NameForm.{IsWord, IsLabel, Joined, in_lower_word, in_upper_word, hyphen};
ghost use Rattle.comp_names.specs.Splits.{is_mark};

use comp_lists::split_once;

fn is_lower(bytes: &[u8]) -> bool
    ensures { result ≡ list_all in_lower_word bytes.now }
{
    bytes
        .iter()
        .all(|byte| byte.is_ascii_lowercase() || byte.is_ascii_digit())
}

fn is_upper(bytes: &[u8]) -> bool
    ensures { result ≡ list_all in_upper_word bytes.now }
{
    bytes
        .iter()
        .all(|byte| byte.is_ascii_uppercase() || byte.is_ascii_digit())
}

fn is_word(word: &str) -> bool
    ensures { IsTrue result ↔ IsWord word.now }
{
    let bytes = word.as_bytes();
    !bytes.is_empty() && (is_lower(bytes) || is_upper(bytes))
}

fn begins_with_letter(text: &str) -> bool
    ensures { result ≡ is_ascii_alphabetic (slice_index text.now 0) }
{
    match text.as_bytes().first() {
        Some(byte) => byte.is_ascii_alphabetic(),
        None => false,
    }
}

/// Whether the parts between hyphens are words.
fn are_words(text: &str) -> bool
    ensures { IsTrue result
        ↔ AllByRecursion IsWord (slice_split (λ byte. byte == hyphen) text.now) }
{
    let mut rest = text;
    while let Some((word, after)) = split_once(rest, '-') {
        if !is_word(word) {
            return false;
        }
        rest = after;
    }
    is_word(rest)
}

/// Whether a text is a label.
pub(crate) fn is_label(text: &str) -> bool
    ensures { IsTrue result ↔ IsLabel text.now }
{
    begins_with_letter(text) && are_words(text)
}

/// Whether a text is two labels with this character between them.
pub(crate) fn is_pair(mark: char, pair: &str) -> bool
    requires { IsTrue (is_mark mark) }
    ensures { IsTrue result ↔ Joined IsLabel mark IsLabel pair.now }
{
    match split_once(pair, mark) {
        Some((left, right)) => is_label(left) && is_label(right),
        None => false,
    }
}
