//! The flags of `new`.

ghost use Rattle.std.specs.Prelude.{◌≡◌, map, string_bytes};
ghost use Rattle.command_line.specs.Adapters.{flag_words};
ghost use Rattle.command_line.specs.Flags.{has, is_flag, are_flags, flags_of, are_unset};

use crate::adapters::is_adapt;

/// What the flags of a run of `new` ask for.
#[derive(Clone, Copy, Debug, PartialEq, Eq)]
pub(crate) struct Flags {
    /// Names have the canonical part of their version, and the rest as a suffix.
    pub(crate) canonical: bool,
    /// Imports of compatible versions are not merged.
    pub(crate) no_merge: bool,
    /// The functions of the core modules that are generated have no names.
    pub(crate) no_names: bool,
    /// The component is checked.
    pub(crate) validate: bool,
}

/// Whether a flag is among these words.
fn has(words: &[String], flag: &str) -> bool
    ensures { result ≡ has (flag_words (map string_bytes words.now)) flag.now }
{
    let mut rest = words;
    loop {
        match rest {
            [] => return false,
            [option, _, behind @ ..] if is_adapt(option.as_str()) => rest = behind,
            [word, behind @ ..] => {
                if word.as_str() == flag {
                    return true;
                }
                rest = behind;
            }
        }
    }
}

fn is_flag(word: &str) -> bool
    ensures { result ≡ is_flag word.now }
{
    word == "--canonical" || word == "--no-merge" || word == "--no-names" || word == "--validate"
}

/// Whether all words but those of adapters are flags, each at most once.
fn are_flags(words: &[String]) -> bool
    ensures { result ≡ are_flags (flag_words (map string_bytes words.now)) }
{
    let mut rest = words;
    loop {
        match rest {
            [] => return true,
            [option, _, behind @ ..] if is_adapt(option.as_str()) => rest = behind,
            [word, behind @ ..] => {
                if !is_flag(word.as_str()) || has(behind, word.as_str()) {
                    return false;
                }
                rest = behind;
            }
        }
    }
}

impl Flags {
    /// The flags among these words, where all words but those of adapters are flags, each at most once.
    pub(crate) fn read(words: &[String]) -> Option<Flags>
        ensures { result ≡ flags_of (flag_words (map string_bytes words.now)) }
    {
        if !are_flags(words) {
            return None;
        }
        Some(Flags {
            canonical: has(words, "--canonical"),
            no_merge: has(words, "--no-merge"),
            no_names: has(words, "--no-names"),
            validate: has(words, "--validate"),
        })
    }

    /// Whether there are none.
    pub(crate) fn are_unset(self) -> bool
        ensures { result ≡ are_unset self }
    {
        !(self.canonical || self.no_merge || self.no_names || self.validate)
    }
}
