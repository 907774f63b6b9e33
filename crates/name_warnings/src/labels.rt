//! The labels of a list.

ghost use Rattle.std.specs.Prelude.{◌≡◌, ◌++◌, OnOk};
ghost use Rattle.std.specs.List.{flat_map};
ghost use Rattle.name_warnings.specs.Forms.{label_warnings};
ghost use Rattle.name_warnings.specs.Repeats.{labels_warnings};

use crate::forms::add_label;
use crate::repeats::add_repeats;
use crate::warning::Warning;
use comp_lists::{Seq, Text};
use std::alloc::{AllocError, Global};

fn add_each_label(
    alloc: Global,
    warnings: &mut Seq<Warning>,
    path: &Seq<Text>,
    names: &[Text],
) -> Result<(), AllocError>
    ensures { OnOk result
        (warnings.new ≡ warnings.old ++ flat_map (label_warnings path.now) names.now) }
{
    for name in names {
        add_label(alloc, warnings, path, name.as_str())?;
    }
    Ok(())
}

/// Adds the warnings of names that are to be labels, and different ones.
pub fn add_labels(
    alloc: Global,
    warnings: &mut Seq<Warning>,
    path: &Seq<Text>,
    names: &[Text],
) -> Result<(), AllocError>
    ensures { OnOk result (warnings.new ≡ warnings.old ++ labels_warnings path.now names.now) }
{
    add_each_label(alloc, warnings, path, names)?;
    add_repeats(alloc, warnings, path, names)?;
    Ok(())
}
