//! The form of names.
//!
//! Component model, explainer: `label`, `plainname`, `interfacename`.

ghost use Rattle.std.specs.Prelude.{◌≡◌, ◌++◌, OnOk};
ghost use Rattle.name_warnings.specs.Forms.{label_warnings, plain_name_warnings, interface_name_warnings, is_world_name, world_name_warnings};

use crate::noting::note_at;
use crate::warning::{Warning, WarningKind};
use comp_lists::{Seq, Text};
use comp_names::{is_label, is_plain_name, is_unversioned};
use std::alloc::{AllocError, Global};

/// Adds a warning where a name isn't a label.
pub fn add_label(
    alloc: Global,
    warnings: &mut Seq<Warning>,
    path: &Seq<Text>,
    name: &str,
) -> Result<(), AllocError>
    ensures { OnOk result (warnings.new ≡ warnings.old ++ label_warnings path.now name.now) }
{
    let broken = !is_label(name);
    note_at(alloc, warnings, broken, WarningKind::NotKebab, path, name)
}

/// Adds a warning where a name is none that a function can have.
pub fn add_plain_name(
    alloc: Global,
    warnings: &mut Seq<Warning>,
    path: &Seq<Text>,
    name: &str,
) -> Result<(), AllocError>
    ensures { OnOk result (warnings.new ≡ warnings.old ++ plain_name_warnings path.now name.now) }
{
    let broken = !is_plain_name(name);
    note_at(alloc, warnings, broken, WarningKind::NotKebab, path, name)
}

/// Adds a warning where a name is none that an interface can have as its id, whatever its version is.
pub fn add_interface_name(
    alloc: Global,
    warnings: &mut Seq<Warning>,
    path: &Seq<Text>,
    name: &str,
) -> Result<(), AllocError>
    ensures { OnOk result
        (warnings.new ≡ warnings.old ++ interface_name_warnings path.now name.now) }
{
    let broken = !is_unversioned(name);
    note_at(alloc, warnings, broken, WarningKind::NotKebab, path, name)
}

fn is_world_name(name: &str) -> bool
    ensures { result ≡ is_world_name name.now }
{
    is_plain_name(name) || is_unversioned(name)
}

/// Adds a warning where a name is none that a function or a type of the world itself can have.
pub fn add_world_name(
    alloc: Global,
    warnings: &mut Seq<Warning>,
    path: &Seq<Text>,
    name: &str,
) -> Result<(), AllocError>
    ensures { OnOk result (warnings.new ≡ warnings.old ++ world_name_warnings path.now name.now) }
{
    let broken = !is_world_name(name);
    note_at(alloc, warnings, broken, WarningKind::NotKebab, path, name)
}
