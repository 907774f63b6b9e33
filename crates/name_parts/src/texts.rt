//! Texts with a prefix or a suffix, and numbers in decimal.

ghost use Rattle.std.specs.Prelude.{◌≡◌, IfOk};
ghost use Rattle.std.specs.Option.{option_copied};
ghost use Rattle.name_parts.specs.Texts.{after, before, number};

use std::alloc::{AllocError, Global};

/// What follows a prefix, where the text has it.
#[tactic(auto, using(crate::proofs::Affixes::strips_prefix))]
pub fn after<'a>(prefix: &str, text: &'a str) -> Option<&'a str>
    ensures { option_copied result ≡ after prefix.now text.now }
{
    text.strip_prefix(prefix)
}

/// What comes before a suffix, where the text has it.
#[tactic(auto, using(crate::proofs::Affixes::strips_suffix))]
pub fn before<'a>(suffix: &str, text: &'a str) -> Option<&'a str>
    ensures { option_copied result ≡ before suffix.now text.now }
{
    text.strip_suffix(suffix)
}

/// The number that a text is in decimal, without leading zeros and below 2^32.
pub(crate) fn number(alloc: Global, text: &str) -> Result<Option<u32>, AllocError>
    ensures { IfOk result (λ n. n ≡ number text.now) }
{
    let Ok(value) = text.parse::<u32>() else {
        return Ok(None);
    };
    let digits = value.to_string(alloc)?;
    if digits.as_str() == text {
        Ok(Some(value))
    } else {
        Ok(None)
    }
}
