//! Texts with a prefix.

ghost use Rattle.std.specs.Prelude.{◌≡◌, ◌++◌, IfSome, IfNone};
ghost use Rattle.comp_names.specs.Splits.{BeginsElse};

/// The text after a prefix, if it has that prefix.
pub(crate) fn after_prefix<'a>(text: &'a str, beginning: &str) -> Option<&'a str>
    ensures some { IfSome result (λ rest. text.now ≡ beginning.now ++ rest.now) }
    ensures none { IfNone result (BeginsElse beginning.now text.now) }
{
    text.strip_prefix(beginning)
}
