//! The interfaces that labels in names stand for.

ghost use Rattle.std.specs.Prelude.{◌≡◌, IfOk};
ghost use Rattle.std.specs.Option.{option_copied};
ghost use Rattle.record_versions.specs.Compatible as versions;
ghost use Rattle.world_names.specs.Labels.{items_of, as_interface, interface_at, labelled, candidate_name, newest, newest_compatible, imported_label, whole_id, as_reading, of_canonical, canonical_label};

use crate::tables::{WorldNames, compatible};
use comp_lists::{Keyed, SharedText, Text, TryClone};
use name_parts::{Reading, any_of_three, either};
use record_values::{InterfaceName, Item, ItemKey};
use record_versions::{Candidate, Compatible};
use std::alloc::{AllocError, Global};

/// A side of the world.
#[derive(Clone, Copy, PartialEq, Eq)]
pub enum Side {
    Imported,
    Exported,
}

/// What a label stands for, or out of memory.
type Found = Result<Reading<InterfaceName>, AllocError>;

pub(crate) fn items_of<'a>(names: &'a WorldNames, side: Side) -> &'a Keyed<ItemKey, Item>
    ensures { result.now ≡ items_of names.now side }
{
    match side {
        Side::Imported => &names.wit.imports,
        Side::Exported => &names.wit.exports,
    }
}

fn as_interface(alloc: Global, item: Option<&Item>) -> Found
    ensures { IfOk result (λ r. r ≡ as_interface (option_copied item.entry)) }
{
    match item {
        Some(Item::Interface(name)) => Ok(Reading::Means(name.try_clone(alloc)?)),
        _ => Ok(Reading::Nothing),
    }
}

/// The interface that a side of the world has under a key.
fn interface_at(alloc: Global, names: &WorldNames, side: Side, key: &ItemKey) -> Found
    ensures { IfOk result (λ r. r ≡ interface_at names.now side key.now) }
{
    as_interface(alloc, items_of(names, side).get(key))
}

/// The interface that a side of the world has under a name.
fn interface_named(alloc: Global, names: &WorldNames, side: Side, label: &str) -> Found
    ensures { IfOk result (λ r. r ≡ interface_at names.now side (ItemKey.Name label.now)) }
{
    let key = ItemKey::Name(Text::from_str(alloc, label)?);
    interface_at(alloc, names, side, &key)
}

/// The interface of a side of the world that has an id.
fn interface_of_id(alloc: Global, names: &WorldNames, side: Side, label: &str) -> Found
    ensures { IfOk result (λ r. r ≡ interface_at names.now side (ItemKey.Interface label.now)) }
{
    let key = ItemKey::Interface(SharedText::from_str(alloc, label)?);
    interface_at(alloc, names, side, &key)
}

/// The interface of a side of the world whose name there, or whose id, is the label.
pub fn labelled(alloc: Global, names: &WorldNames, side: Side, label: &str) -> Found
    ensures { IfOk result (λ r. r ≡ labelled names.now side label.now) }
{
    either(
        interface_named(alloc, names, side, label),
        interface_of_id(alloc, names, side, label),
    )
}

// ---- compatible versions

fn candidate_name(alloc: Global, candidate: Option<&Candidate>) -> Found
    ensures { IfOk result (λ r. r ≡ candidate_name (option_copied candidate.entry)) }
{
    match candidate {
        Some(candidate) => Ok(Reading::Means(candidate.name.try_clone(alloc)?)),
        None => Ok(Reading::Nothing),
    }
}

fn newest(alloc: Global, names: &WorldNames, canonical: &Text) -> Found
    ensures { IfOk result (λ r. r ≡ newest names.now canonical.now) }
{
    candidate_name(alloc, names.imported_versions.get(canonical))
}

/// The part of an id that compatible versions share, where the label is an id with such a part.
fn compatible_label(alloc: Global, label: &str) -> Result<Option<Compatible>, AllocError>
    ensures { IfOk result (λ c. c ≡ versions.compatible (InterfaceName.Id label.now)) }
{
    let name = InterfaceName::Id(SharedText::from_str(alloc, label)?);
    compatible(alloc, &name)
}

fn newest_compatible(alloc: Global, names: &WorldNames, label: &str) -> Found
    ensures { IfOk result (λ r. r ≡ newest_compatible names.now (versions.compatible
        (InterfaceName.Id label.now))) }
{
    match compatible_label(alloc, label)? {
        Some(compatible) => newest(alloc, names, &compatible.canonical),
        None => Ok(Reading::Nothing),
    }
}

/// The imported interface of a label of the older form: by its name in the world or its id, or the one of
/// greatest version that is compatible with the label.
#[tactic(auto, unfolding(crate::specs::Labels::imported_label))]
pub fn imported_label(alloc: Global, names: &WorldNames, label: &str) -> Found
    ensures { IfOk result (λ r. r ≡ imported_label names.now label.now) }
{
    let found = labelled(alloc, names, Side::Imported, label)?;
    match newest_compatible(alloc, names, label) {
        Ok(newest) => Ok(found.otherwise(newest)),
        Err(refused) => {
            drop(found);
            Err(refused)
        }
    }
}

// ---- canonical ids

fn whole_id(alloc: Global, names: &WorldNames, side: Side, label: &str) -> Found
    ensures { IfOk result (λ r. r ≡ whole_id names.now side label.now (versions.compatible
        (InterfaceName.Id label.now))) }
{
    match compatible_label(alloc, label)? {
        Some(_) => Ok(Reading::Nothing),
        None => interface_of_id(alloc, names, side, label),
    }
}

fn as_reading(alloc: Global, reading: Option<&Reading<InterfaceName>>) -> Found
    ensures { IfOk result (λ r. r ≡ as_reading (option_copied reading.entry)) }
{
    match reading {
        Some(Reading::Means(name)) => Ok(Reading::Means(name.try_clone(alloc)?)),
        Some(Reading::Refused(refusal)) => Ok(Reading::Refused(*refusal)),
        Some(Reading::Nothing) => Ok(Reading::Nothing),
        None => Ok(Reading::Nothing),
    }
}

fn of_canonical(alloc: Global, names: &WorldNames, side: Side, label: &str) -> Found
    ensures { IfOk result (λ r. r ≡ of_canonical names.now side label.now) }
{
    let canonical = Text::from_str(alloc, label)?;
    match side {
        Side::Imported => newest(alloc, names, &canonical),
        Side::Exported => as_reading(alloc, names.exported_versions.get(&canonical)),
    }
}

/// The interface of a label of the standard form: by its name in the world, or by its id with the part of
/// its version that compatible versions share.
#[tactic(auto, unfolding(crate::specs::Labels::canonical_label))]
pub fn canonical_label(alloc: Global, names: &WorldNames, side: Side, label: &str) -> Found
    ensures { IfOk result (λ r. r ≡ canonical_label names.now side label.now) }
{
    any_of_three(
        interface_named(alloc, names, side, label),
        whole_id(alloc, names, side, label),
        of_canonical(alloc, names, side, label),
    )
}
