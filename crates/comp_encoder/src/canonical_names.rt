//! Whether two imports, or two exports, of a world have one canonical name.

ghost use Rattle.std.specs.Prelude.{◌<◌, ◌∷◌, [], ℕ, List, length, IfOk, IfErr, IsOk};
ghost use Rattle.std.specs.List.{AllByRecursion};
ghost use Rattle.wit_data.specs.Names.{canonical_id_text, id_text};
ghost use Rattle.wit_data.specs.Sound.{IsSound, HasEntry, HasInterface, HasKey};
ghost use Rattle.comp_encoder.specs.CanonicalNames.{canonical_names, names_of_key, Finds, FindsIn, IsShared};
ghost use Rattle.comp_encoder.specs.NamesMet.{Meets};
ghost use Rattle.comp_encoder.specs.Refusals.{IsCanonicalRefusal};
ghost use Rattle.wit_data.specs.declared.worlds.WorldKey.TheVariants as keys;

use crate::fault::EncodeFault;
use comp_lists::{Keyed, Text};
use std::alloc::{AllocError, Global};
use wit_data::{IdName, InterfaceId, Resolve, WorldId, WorldItem, WorldKey};

/// A canonical name that two interfaces have, and their names with the whole version.
#[derive(Debug, Drop)]
pub(crate) struct SharedName {
    pub(crate) first: Text,
    pub(crate) second: Text,
    pub(crate) name: Text,
}

/// Adds the names of an interface to those that were met, unless the canonical one was met before.
fn meet_name(
    alloc: Global,
    met: &mut Keyed<Text, Text>,
    id: &IdName,
) -> Result<Option<SharedName>, AllocError>
    ensures { IfOk result
        (Meets ((canonical_id_text id.now, id_text id.now) ∷ []) met.old met.new) }
{
    let name = id.canonical_text(alloc)?;
    let whole = id.text(alloc)?;
    if let Some(first) = met.get(&name) {
        let first = first.clone(alloc)?;
        return Ok(Some(SharedName {
            first,
            second: whole,
            name,
        }));
    }
    met.insert(name, whole)?;
    Ok(None)
}

fn meet_interface(
    alloc: Global,
    resolve: &Resolve,
    met: &mut Keyed<Text, Text>,
    id: InterfaceId,
) -> Result<Option<SharedName>, AllocError>
    requires { HasInterface resolve.now id }
    ensures { IfOk result (Meets (names_of_key resolve.now (keys.Interface id)) met.old met.new) }
{
    match &resolve.interfaces.as_slice()[id.index].id {
        Some(name) => meet_name(alloc, met, name),
        None => Ok(None),
    }
}

fn meet_key(
    alloc: Global,
    resolve: &Resolve,
    met: &mut Keyed<Text, Text>,
    key: &WorldKey,
) -> Result<Option<SharedName>, AllocError>
    requires { HasKey resolve.now key.now }
    ensures { IfOk result (Meets (names_of_key resolve.now key.now) met.old met.new) }
{
    match key {
        WorldKey::Interface(id) => meet_interface(alloc, resolve, met, *id),
        WorldKey::Name(_) => Ok(None),
    }
}

/// A canonical name that two of these imports, or exports, have.
fn shared_among(
    alloc: Global,
    resolve: &Resolve,
    entries: &Keyed<WorldKey, WorldItem>,
) -> Result<Option<SharedName>, AllocError>
    requires { AllByRecursion (HasEntry resolve.now) entries.now }
    ensures { IfOk result (Finds (canonical_names resolve.now entries.now)) }
{
    let mut met = Keyed::new(alloc);
    for (key, _item) in entries.iter() {
        let shared = meet_key(alloc, resolve, &mut met, key)?;
        if shared.is_some() {
            return Ok(shared);
        }
    }
    Ok(None)
}

/// A canonical name that two imports, or two exports, of a world have. The cost is linear.
pub(crate) fn shared_name(
    alloc: Global,
    resolve: &Resolve,
    world: WorldId,
) -> Result<Option<SharedName>, AllocError>
    requires sound { IsSound resolve.now }
    requires present { world.index < length resolve.now.worlds }
    ensures { IfOk result (FindsIn resolve.now world) }
{
    let world = &resolve.worlds.as_slice()[world.index];
    let shared = shared_among(alloc, resolve, &world.imports)?;
    if shared.is_some() {
        return Ok(shared);
    }
    shared_among(alloc, resolve, &world.exports)
}

/// Checks that no two imports of a world that are keyed by interfaces have one canonical name, and
/// that no two exports have.
///
/// `E5` with the first two that have; the only other refusal is out of memory.
pub fn check_duplicate_canonical_names<F>(
    alloc: Global,
    resolve: &Resolve,
    world: WorldId,
) -> Result<(), EncodeFault<F>>
    requires sound { IsSound resolve.now }
    requires present { world.index < length resolve.now.worlds }
    ensures refused { IsOk result
        → (first second name : List ℕ)
        → ¬ IsShared resolve.now world first second name }
    ensures cause { IfErr result (IsCanonicalRefusal resolve.now world) }
{
    let shared = shared_name(alloc, resolve, world)?;
    match shared {
        None => Ok(()),
        Some(shared) => Err(EncodeFault::from(shared)),
    }
}
