//! The form of names.
//!
//! Component model, explainer: `plainname`, `interfacename`.

ghost use Rattle.std.specs.Prelude.{◌↔◌, IsTrue, IfOk};
ghost use Rattle.comp_names.specs.NameForm.{IsConstructor, IsMember, IsPlainName, IsUnversioned, Joined, at_sign, IsVersionText, IsFormed};

use crate::label::{is_label, is_pair};
use crate::prefix::after_prefix;
use crate::version::is_version_text;
use comp_lists::split_once;
use std::alloc::{AllocError, Global};

fn is_constructor(name: &str) -> bool
    ensures { IsTrue result ↔ IsConstructor name.now }
{
    match after_prefix(name, "[constructor]") {
        Some(resource) => is_label(resource),
        None => false,
    }
}

fn is_member(kind: &str, name: &str) -> bool
    ensures { IsTrue result ↔ IsMember kind.now name.now }
{
    match after_prefix(name, kind) {
        Some(pair) => is_pair('.', pair),
        None => false,
    }
}

pub(crate) fn is_plain(name: &str) -> bool
    ensures { IsTrue result ↔ IsPlainName name.now }
{
    is_label(name)
        || is_constructor(name)
        || is_member("[method]", name)
        || is_member("[static]", name)
}

pub(crate) fn is_unversioned(name: &str) -> bool
    ensures { IsTrue result ↔ IsUnversioned name.now }
{
    match split_once(name, ':') {
        Some((namespace, path)) => is_label(namespace) && is_pair('/', path),
        None => false,
    }
}

fn is_versioned(alloc: Global, name: &str) -> Result<bool, AllocError>
    ensures { IfOk result
        (λ holds. IsTrue holds ↔ Joined IsUnversioned at_sign IsVersionText name.now) }
{
    match split_once(name, '@') {
        Some((interface, version)) => {
            if is_unversioned(interface) {
                is_version_text(alloc, version)
            } else {
                Ok(false)
            }
        }
        None => Ok(false),
    }
}

/// Whether an import or an export may have this name. The only error is out of memory: a version
/// with more than numbers needs an allocation.
pub fn is_formed(alloc: Global, name: &str) -> Result<bool, AllocError>
    ensures { IfOk result (λ holds. IsTrue holds ↔ IsFormed name.now) }
{
    if is_plain(name) || is_unversioned(name) {
        return Ok(true);
    }
    is_versioned(alloc, name)
}
