//! Names that occur twice in a list, if perhaps in other letters.
//!
//! Component model, explainer: strongly-unique names.

ghost use Rattle.std.specs.Prelude.{◌≡◌, ◌++◌, IfOk, OnOk, codes};
ghost use Rattle.std.specs.Option.{option_copied};
ghost use Rattle.name_parts.specs.Texts.{after};
ghost use Rattle.name_warnings.specs.Repeats.{or_whole, bare, folded, kind_beside, kind_of_repeat, repeat_warnings, meet, no_repeats, repeats_after, repeats};

use crate::noting::note_at;
use crate::warning::{Warning, WarningKind};
use comp_lists::{Keyed, Seq, Text};
use name_parts::after;
use std::alloc::{AllocError, Global};

/// The names so far, the first of each folded form, and the warnings about all others.
#[derive(Drop)]
pub(crate) struct Repeats {
    pub(crate) met: Keyed<Text, Text>,
    pub(crate) warnings: Seq<Warning>,
}

// ---- what is compared of a name

fn after_static(name: &str) -> &str
    ensures { result.now ≡ or_whole name.now (after (codes "[static]") name.now) }
{
    match after("[static]", name) {
        Some(rest) => rest,
        None => name,
    }
}

/// A name without what says that it is one of a method or of a static function.
fn bare(name: &str) -> &str
    ensures { result.now ≡ bare name.now }
{
    match after("[method]", name) {
        Some(rest) => rest,
        None => after_static(name),
    }
}

/// What is compared of a name: without the case of its letters.
fn folded(alloc: Global, name: &str) -> Result<Text, AllocError>
    ensures { IfOk result (λ t. t ≡ folded name.now) }
{
    let lower = bare(name).to_ascii_lowercase(alloc)?;
    Ok(Text::from_string(lower))
}

// ---- names that are there before

fn kind_beside(name: &str, first: &str) -> WarningKind
    ensures { result ≡ kind_beside name.now first.now }
{
    if name == first {
        WarningKind::NameTwice
    } else {
        WarningKind::NameCase
    }
}

fn kind_of_repeat(name: &str, first: Option<&Text>) -> Option<WarningKind>
    ensures { result ≡ kind_of_repeat name.now (option_copied first.entry) }
{
    match first {
        Some(first) => Some(kind_beside(name, first.as_str())),
        None => None,
    }
}

fn add_repeat(
    alloc: Global,
    warnings: &mut Seq<Warning>,
    path: &Seq<Text>,
    name: &str,
    kind: Option<WarningKind>,
) -> Result<(), AllocError>
    ensures { OnOk result (warnings.new ≡ warnings.old ++ repeat_warnings path.now name.now kind) }
{
    match kind {
        Some(kind) => note_at(alloc, warnings, true, kind, path, name),
        None => Ok(()),
    }
}

/// A further name of the list.
#[tactic(auto, unfolding(crate::specs::Repeats::meet))]
fn meet(
    alloc: Global,
    path: &Seq<Text>,
    so_far: &mut Repeats,
    name: &Text,
) -> Result<(), AllocError>
    ensures { OnOk result (so_far.new ≡ meet path.now so_far.old name.now) }
{
    let key = folded(alloc, name.as_str())?;
    let kind = kind_of_repeat(name.as_str(), so_far.met.get(&key));
    let first = name.clone(alloc)?;
    so_far.met.insert_if_absent(key, first)?;
    add_repeat(alloc, &mut so_far.warnings, path, name.as_str(), kind)?;
    Ok(())
}

fn no_repeats(alloc: Global) -> Repeats
    ensures { result ≡ no_repeats }
{
    Repeats {
        met: Keyed::new(alloc),
        warnings: Seq::new(alloc),
    }
}

fn repeats_of(alloc: Global, path: &Seq<Text>, names: &[Text]) -> Result<Repeats, AllocError>
    ensures { IfOk result (λ r. r ≡ repeats_after path.now no_repeats names.now) }
{
    let mut so_far = no_repeats(alloc);
    for name in names {
        meet(alloc, path, &mut so_far, name)?;
    }
    Ok(so_far)
}

fn into_warnings(repeats: Repeats) -> Seq<Warning>
    ensures { result ≡ repeats.warnings }
{
    let Repeats { met: _, warnings } = repeats;
    warnings
}

/// Adds a warning for each name that is an earlier one of the list, or differs from one in the case of letters
/// alone, or in that the one is that of a method and the other that of a static function.
pub fn add_repeats(
    alloc: Global,
    warnings: &mut Seq<Warning>,
    path: &Seq<Text>,
    names: &[Text],
) -> Result<(), AllocError>
    ensures { OnOk result (warnings.new ≡ warnings.old ++ repeats path.now names.now) }
{
    let found = repeats_of(alloc, path, names)?;
    warnings.append(into_warnings(found))?;
    Ok(())
}
