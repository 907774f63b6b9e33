//! Warnings that are added to a list.

ghost use Rattle.std.specs.Prelude.{◌≡◌, ◌++◌, ◌∷◌, [], IfOk, OnOk};
ghost use Rattle.name_warnings.specs.Warnings.{warned};

use crate::warning::{Warning, WarningKind};
use comp_lists::{Seq, Text};
use std::alloc::{AllocError, Global};

/// A path with one more name. The only error, here and below, is out of memory.
pub fn longer(alloc: Global, path: &Seq<Text>, name: &str) -> Result<Seq<Text>, AllocError>
    ensures { IfOk result (λ p. p ≡ path.now ++ name.now ∷ []) }
{
    let last = Text::from_str(alloc, name)?;
    let mut whole = path.clone(alloc)?;
    whole.push(last)?;
    Ok(whole)
}

/// Adds a warning at a path, where a rule is broken there.
pub fn note(
    alloc: Global,
    warnings: &mut Seq<Warning>,
    broken: bool,
    kind: WarningKind,
    path: &Seq<Text>,
) -> Result<(), AllocError>
    ensures { OnOk result (warnings.new ≡ warnings.old ++ warned broken kind path.now) }
{
    if !broken {
        return Ok(());
    }
    let path = path.clone(alloc)?;
    warnings.push(Warning { kind, path })?;
    Ok(())
}

/// Adds a warning at a name behind a path, where a rule is broken there.
pub fn note_at(
    alloc: Global,
    warnings: &mut Seq<Warning>,
    broken: bool,
    kind: WarningKind,
    path: &Seq<Text>,
    name: &str,
) -> Result<(), AllocError>
    ensures { OnOk result
        (warnings.new ≡ warnings.old ++ warned broken kind (path.now ++ name.now ∷ [])) }
{
    if !broken {
        return Ok(());
    }
    let path = longer(alloc, path, name)?;
    warnings.push(Warning { kind, path })?;
    Ok(())
}
