//! Texts that are split at a character.

ghost use Rattle.std.specs.Prelude.{◌≡◌, ◌<◌, option_map};
ghost use Rattle.comp_lists.specs.Splits.{split_once};

/// The text before and the text after the first such character.
#[tactic(auto, using(crate::proofs::SplitAtMark::splits_once))]
pub fn split_once(text: &str, mark: char) -> Option<(&str, &str)>
    requires { mark < 128 }
    ensures { option_map (λ p. (p.0.now, p.1.now)) result ≡ split_once mark text.now }
{
    text.split_once(mark)
}
