//! Tests of names, for callers that need what they answer as a value.
//!
//! Component model, explainer: `label`, `plainname`, `interfacename`.

ghost use Rattle.std.specs.Prelude.{◌≡◌};
ghost use Rattle.comp_lists.specs.Splits.{split_once};
ghost use Rattle.comp_names.specs.Tests.{before_version_by, is_label, is_plain_name, is_unversioned};

use crate::{form, label};
use comp_lists::split_once;

/// Whether a text is a label.
pub fn is_label(text: &str) -> bool
    ensures { result ≡ is_label text.now }
{
    label::is_label(text)
}

/// Whether a text is a label, or what says that a function is of a resource.
pub fn is_plain_name(name: &str) -> bool
    ensures { result ≡ is_plain_name name.now }
{
    form::is_plain(name)
}

/// The name of an interface without its version, if it has one.
fn before_version(name: &str) -> &str
    ensures { result.now ≡ before_version_by name.now (split_once 64 name.now) }
{
    match split_once(name, '@') {
        Some((interface, _)) => interface,
        None => name,
    }
}

/// Whether a text is the name of an interface, whatever its version is.
pub fn is_unversioned(name: &str) -> bool
    ensures { result ≡ is_unversioned name.now }
{
    let interface = before_version(name);
    form::is_unversioned(interface)
}
