//! Whether the interfaces that a world exports have names that tell them apart.

ghost use Rattle.std.specs.Prelude.{◌≡◌, IfOk, OnOk};
ghost use Rattle.std.specs.List.{AllByRecursion, flat_map, list_all};
ghost use Rattle.std.specs.Option.{option_copied};
ghost use Rattle.std.specs.Str.{bytes_eq};
ghost use Rattle.comp_lists.specs.Tables.{with_first};
ghost use Rattle.wit_data.specs.Sound.{IsSound, HasEntry, HasWorld};
ghost use Rattle.comp_worlds.specs.Worlds.{interface_text};
ghost use Rattle.supported_worlds.specs.Distinct.{are_apart, is_new};
ghost use Rattle.supported_worlds.specs.LeftOut.{names_left_out};
ghost use Rattle.supported_worlds.specs.Naming.{has_colon, is_export_named, AddsText, are_exports_named};

use comp_lists::{Keyed, Text};
use std::alloc::{AllocError, Global};
use wit_data::{Resolve, World, WorldItem, WorldKey};

// ---- names

fn has_colon(bytes: &[u8]) -> bool
    ensures { result ≡ has_colon bytes.now }
{
    for byte in bytes {
        if *byte == b':' {
            return true;
        }
    }
    false
}

/// Whether an exported interface has a name without a colon, or an id.
fn is_export_named(resolve: &Resolve, key: &WorldKey, item: &WorldItem) -> bool
    requires sound { IsSound resolve.now }
    requires present { HasEntry resolve.now (key.now, item.now) }
    ensures { result ≡ is_export_named resolve.now (key.now, item.now) }
{
    match (key, item) {
        (WorldKey::Name(text), WorldItem::Interface(_)) => !has_colon(text.as_str().as_bytes()),
        (WorldKey::Interface(id), WorldItem::Interface(_)) => {
            resolve.interfaces.as_slice()[id.index].id.is_some()
        }
        _ => true,
    }
}

/// Whether all exported interfaces have.
fn are_named(resolve: &Resolve, exports: &Keyed<WorldKey, WorldItem>) -> bool
    requires sound { IsSound resolve.now }
    requires all_present { AllByRecursion (HasEntry resolve.now) exports.now }
    ensures { result ≡ list_all (is_export_named resolve.now) exports.now }
{
    for (key, item) in exports.iter() {
        if !is_export_named(resolve, key, item) {
            return false;
        }
    }
    true
}

// ---- apart

/// Adds a text, unless it is there. Whether it was not.
fn put_text(texts: &mut Keyed<Text, ()>, text: Text) -> Result<bool, AllocError>
    ensures fresh { IfOk result (λ fresh. fresh ≡ is_new bytes_eq texts.old text) }
    ensures put { OnOk result (texts.new ≡ with_first bytes_eq texts.old text tt) }
{
    let fresh = !texts.contains_key(&text);
    texts.insert_if_absent(text, ())?;
    Ok(fresh)
}

/// Adds the text of an export, if it is an interface. Whether it was not there.
#[tactic(auto, using(crate::proofs::ExportNames::of_interface, crate::proofs::ExportNames::of_function, crate::proofs::ExportNames::of_type))]
fn add_text(
    alloc: Global,
    resolve: &Resolve,
    texts: &mut Keyed<Text, ()>,
    key: &WorldKey,
    item: &WorldItem,
) -> Result<bool, AllocError>
    requires sound { IsSound resolve.now }
    requires present { HasEntry resolve.now (key.now, item.now) }
    ensures { IfOk result
        (λ fresh. AddsText resolve.now (key.now, item.now) texts.old texts.new fresh) }
{
    match item {
        WorldItem::Interface(_) => {
            let text = resolve.name_world_key(alloc, key)?;
            put_text(texts, text)
        }
        WorldItem::Function(_) | WorldItem::NamedType(_) => Ok(true),
    }
}

/// Whether no two exported interfaces have the same text.
#[tactic(auto, using(crate::proofs::ExportNames::texts_start, crate::proofs::ExportNames::texts_step, crate::proofs::ExportNames::texts_stop, crate::proofs::ExportNames::texts_end))]
fn are_texts_apart(
    alloc: Global,
    resolve: &Resolve,
    exports: &Keyed<WorldKey, WorldItem>,
) -> Result<bool, AllocError>
    requires sound { IsSound resolve.now }
    requires all_present { AllByRecursion (HasEntry resolve.now) exports.now }
    ensures { IfOk result
        (λ apart. apart ≡ are_apart bytes_eq (flat_map (interface_text resolve.now) exports.now)) }
{
    let mut texts = Keyed::new(alloc);
    for (key, item) in exports.iter() {
        if !add_text(alloc, resolve, &mut texts, key, item)? {
            return Ok(false);
        }
    }
    Ok(true)
}

// ---- both

fn are_exports_named(
    alloc: Global,
    resolve: &Resolve,
    exports: &Keyed<WorldKey, WorldItem>,
) -> Result<bool, AllocError>
    requires sound { IsSound resolve.now }
    requires all_present { AllByRecursion (HasEntry resolve.now) exports.now }
    ensures { IfOk result (λ named. named ≡ are_exports_named resolve.now exports.now) }
{
    if !are_named(resolve, exports) {
        return Ok(false);
    }
    let apart = are_texts_apart(alloc, resolve, exports)?;
    Ok(apart)
}

/// What of the names of exported interfaces is left out. The time is linear in the length of these names.
pub(crate) fn names_left_out(
    alloc: Global,
    resolve: &Resolve,
    world: &World,
) -> Result<Option<&'static str>, AllocError>
    requires sound { IsSound resolve.now }
    requires present { HasWorld resolve.now world.now }
    ensures { IfOk result (λ o. option_copied o ≡ names_left_out resolve.now world.now) }
{
    if are_exports_named(alloc, resolve, &world.exports)? {
        Ok(None)
    } else {
        Ok(Some("interface"))
    }
}
