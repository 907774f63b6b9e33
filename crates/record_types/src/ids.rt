//! Ids of interfaces.

ghost use Rattle.std.specs.Prelude.{◌≡◌, Ok};
ghost use Rattle.std.specs.List.{list_any};
ghost use Rattle.serde_json.specs.View.{view};
ghost use Rattle.json_paths.specs.Faults.{Gives};
ghost use Rattle.record_types.specs.Ids.{is_mark, is_name, is_unversioned, is_version, is_id, some_id, id_of};

use comp_lists::{Text, split_once};
use json_paths::{Failure, fault_here, read_text};
use serde_json::Value;
use std::alloc::Global;
use version_texts::parse_version;

fn has_mark(bytes: &[u8]) -> bool
    ensures { result ≡ list_any is_mark bytes.now }
{
    for byte in bytes {
        if *byte == b':' || *byte == b'/' || *byte == b'@' {
            return true;
        }
    }
    false
}

fn is_name(text: &str) -> bool
    ensures { result ≡ is_name text.now }
{
    !text.is_empty() && !has_mark(text.as_bytes())
}

/// Whether a text is a namespace, a package and a name.
#[tactic(auto, unfolding(crate::specs::Ids::is_unversioned))]
fn is_unversioned(text: &str) -> bool
    ensures { result ≡ is_unversioned text.now }
{
    let Some((namespace, rest)) = split_once(text, ':') else {
        return false;
    };
    let Some((package, name)) = split_once(rest, '/') else {
        return false;
    };
    is_name(namespace) && is_name(package) && is_name(name)
}

fn is_version(alloc: Global, text: &str) -> Result<bool, Failure>
    ensures { Gives (λ b. b) result (Ok (is_version text.now)) }
{
    match parse_version(alloc, text)? {
        Some(_version) => Ok(true),
        None => Ok(false),
    }
}

#[tactic(auto, unfolding(crate::specs::Ids::is_id))]
fn is_id(alloc: Global, text: &str) -> Result<bool, Failure>
    ensures { Gives (λ b. b) result (Ok (is_id text.now)) }
{
    match split_once(text, '@') {
        None => Ok(is_unversioned(text)),
        Some((names, version)) => {
            if is_unversioned(names) {
                is_version(alloc, version)
            } else {
                Ok(false)
            }
        }
    }
}

#[tactic(auto, unfolding(crate::specs::Ids::some_id))]
fn read_some_id(alloc: Global, value: &Value) -> Result<Option<Text>, Failure>
    ensures { Gives (λ x. x) result (some_id (view value.now)) }
{
    let text = read_text(alloc, value)?;
    let is_formed = is_id(alloc, text.as_str())?;
    if is_formed {
        Ok(Some(text))
    } else {
        Err(fault_here(alloc))
    }
}

/// An id, or null.
pub(crate) fn read_id(alloc: Global, value: &Value) -> Result<Option<Text>, Failure>
    ensures { Gives (λ x. x) result (id_of (view value.now)) }
{
    if value.is_null() {
        return Ok(None);
    }
    read_some_id(alloc, value)
}
