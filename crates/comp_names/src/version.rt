//! Versions in names.
//!
//! Component model, explainer: `interfacename`, `canonversion`.

ghost use Rattle.std.specs.Prelude.{◌≡◌, ◌↔◌, IsTrue, IfOk};
ghost use Rattle.std.specs.List.{list_all};
ghost use Rattle.std.specs.Char.{is_ascii_digit};
ghost use Rattle.comp_names.specs.NameForm.{IsNumber, Joined, dot, IsVersion, IsVersionText};

use comp_lists::split_once;
use std::alloc::{AllocError, Global};
use version_texts::parse_version;

fn are_digits(bytes: &[u8]) -> bool
    ensures { result ≡ list_all is_ascii_digit bytes.now }
{
    bytes.iter().all(|byte| byte.is_ascii_digit())
}

fn is_number(text: &str) -> bool
    ensures { IsTrue result ↔ IsNumber text.now }
{
    let bytes = text.as_bytes();
    !bytes.is_empty() && are_digits(bytes)
}

/// Whether a text is two numbers with a dot between them.
fn is_short_version(text: &str) -> bool
    ensures { IsTrue result ↔ Joined IsNumber dot IsNumber text.now }
{
    match split_once(text, '.') {
        Some((major, minor)) => is_number(major) && is_number(minor),
        None => false,
    }
}

/// Whether a text is a version of three numbers, with or without more. The only error is out of
/// memory.
fn is_version(alloc: Global, text: &str) -> Result<bool, AllocError>
    ensures { IfOk result (λ holds. IsTrue holds ↔ IsVersion text.now) }
{
    let found = parse_version(alloc, text)?;
    Ok(found.is_some())
}

/// Whether a text may follow the `@` of a name. The only error is out of memory.
pub(crate) fn is_version_text(alloc: Global, text: &str) -> Result<bool, AllocError>
    ensures { IfOk result (λ holds. IsTrue holds ↔ IsVersionText text.now) }
{
    if is_number(text) || is_short_version(text) {
        return Ok(true);
    }
    is_version(alloc, text)
}
