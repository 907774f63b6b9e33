//! What two say of their world together.

ghost use Rattle.std.specs.Prelude.{◌≡◌, ◌≢◌, ℕ, List, [], ◌∷◌, ◌++◌, IfOk, IfErr, OnOk, IsOk};
ghost use Rattle.json_paths.specs.declared.fault.Failure.TheVariants as failures;
ghost use Rattle.json_paths.specs.Faults.{Gives};
ghost use Rattle.record_merge.specs.Merging.{Tests, Says, merged_wit, merged, export_key, keys_of_exports};
ghost use Rattle.record_merge.specs.Causes.{WorldConflict, Named, Unless};
ghost use Rattle.record_merge.specs.Tables.{conflict};

use crate::bindgen::{Bindgen, empty_roles};
use crate::tables::{add_all, add_apart, copy};
use comp_lists::{Keyed, Seq};
use json_paths::Failure;
use record_values::{Interface, Item, ItemKey, Wit};
use std::alloc::{AllocError, Global};
use world_values::{ExportKey, Merged};

/// Adds to a world what another says.
#[tactic(auto, unfolding(crate::specs::Merging::merged_wit), using(crate::proofs::Conflicts::of_interfaces, crate::proofs::Conflicts::of_imports, crate::proofs::Conflicts::of_exports))]
fn add_to(alloc: Global, wit: &mut Wit, more: &Wit) -> Result<(), Failure>
    ensures exact { Gives (λ _. wit.new) result (merged_wit (record {
      interface = ⟦<Interface as PartialEq>⟧.eq;
      item = ⟦<Item as PartialEq>⟧.eq;
    }) wit.old more.now) }
    ensures cause { IfErr result (Unless (Named (WorldConflict wit.old more.now))) }
{
    add_all(alloc, &mut wit.interfaces, &more.interfaces)?;
    add_all(alloc, &mut wit.imports, &more.imports)?;
    add_apart(alloc, &mut wit.exports, &more.exports)
}

/// What two say of their world together; the first is consumed.
pub(crate) fn add_wit(alloc: Global, first: Wit, second: &Wit) -> Result<Wit, Failure>
    ensures exact { Gives (λ w. w) result (merged_wit (record {
      interface = ⟦<Interface as PartialEq>⟧.eq;
      item = ⟦<Item as PartialEq>⟧.eq;
    }) first second.now) }
    ensures cause { IfErr result (Unless (Named (WorldConflict first second.now))) }
{
    let mut combined = first;
    add_to(alloc, &mut combined, second)?;
    Ok(combined)
}

/// A copy of a world.
fn copy_wit(alloc: Global, wit: &Wit) -> Result<Wit, AllocError>
    ensures { IfOk result (λ w. w ≡ wit.now) }
{
    Ok(Wit {
        interfaces: copy(alloc, &wit.interfaces)?,
        imports: copy(alloc, &wit.imports)?,
        exports: copy(alloc, &wit.exports)?,
    })
}

/// What two say of their world together.
#[tactic(auto, using(crate::proofs::Conflicts::by_memory, crate::proofs::Conflicts::of_copy))]
fn merge_wits(alloc: Global, first: &Wit, second: &Wit) -> Result<Wit, Failure>
    ensures exact { Gives (λ w. w) result (merged_wit (record {
      interface = ⟦<Interface as PartialEq>⟧.eq;
      item = ⟦<Item as PartialEq>⟧.eq;
    }) first.now second.now) }
    ensures cause { IfErr result (Unless (Named (WorldConflict first.now second.now))) }
{
    let copied = copy_wit(alloc, first)?;
    add_wit(alloc, copied, second)
}

/// What two say of their world together: interfaces by name, imports and exports by key, in order.
/// Interfaces of one name must be equal, imports of one key too, and no key of exports may be in both;
/// else the refusal is `MergeConflict` with the text of the name or key.
#[tactic(auto, using(crate::proofs::Saying::merged_says, crate::proofs::Conflicts::reported, crate::proofs::Agreeing::no_conflict))]
pub fn merge_wit(alloc: Global, first: &Wit, second: &Wit) -> Result<Wit, Failure>
    ensures exact { Gives (λ w. w) result (merged_wit (record {
      interface = ⟦<Interface as PartialEq>⟧.eq;
      item = ⟦<Item as PartialEq>⟧.eq;
    }) first.now second.now) }
    ensures says { IfOk result (Says first.now second.now) }
    ensures cause { IfErr result (λ e. e ≢ failures.Memory
        → (name : List ℕ) × (e ≡ conflict name) × WorldConflict first.now second.now name) }
    ensures refused { IsOk result → (name : List ℕ) → ¬ WorldConflict first.now second.now name }
{
    let combined = merge_wits(alloc, first, second)?;
    Ok(combined)
}

/// The key of an export, as the world has it.
fn to_export_key(alloc: Global, key: &ItemKey) -> Result<ExportKey, AllocError>
    ensures { IfOk result (λ k. k ≡ export_key key.now) }
{
    match key {
        ItemKey::Name(text) => Ok(ExportKey::Name(text.clone(alloc)?)),
        ItemKey::Interface(text) => Ok(ExportKey::Interface(text.as_text().clone(alloc)?)),
    }
}

/// Appends the key of an export.
fn push_key(alloc: Global, keys: &mut Seq<ExportKey>, key: &ItemKey) -> Result<(), AllocError>
    ensures { OnOk result (keys.new ≡ keys.old ++ export_key key.now ∷ []) }
{
    let key = to_export_key(alloc, key)?;
    Ok(keys.push(key)?)
}

/// The keys of exports, in order.
fn export_keys(alloc: Global, exports: &Keyed<ItemKey, Item>) -> Result<Seq<ExportKey>, AllocError>
    ensures { IfOk result (λ ks. ks ≡ keys_of_exports exports.now) }
{
    let mut keys = Seq::new(alloc);
    for (key, _) in exports.iter() {
        push_key(alloc, &mut keys, key)?;
    }
    Ok(keys)
}

/// What two modules say of their world together, as [`merge_wit`] has it, without any roles, and the
/// keys of what the second exports.
#[tactic(auto, unfolding(crate::specs::Merging::merged))]
pub fn merge(alloc: Global, first: &Bindgen, second: &Bindgen) -> Result<Merged<Bindgen>, Failure>
    ensures exact { Gives (λ m. m) result (merged (record {
      interface = ⟦<Interface as PartialEq>⟧.eq;
      item = ⟦<Item as PartialEq>⟧.eq;
    }) first.now second.now) }
    ensures cause { IfErr result (λ e. e ≢ failures.Memory
        → (name : List ℕ) × (e ≡ conflict name) × WorldConflict first.now.wit second.now.wit name) }
    ensures refused { IsOk result → (name : List ℕ) → ¬ WorldConflict first.now.wit second.now.wit name }
{
    let wit = merge_wit(alloc, &first.wit, &second.wit)?;
    let exports = export_keys(alloc, &second.wit.exports)?;
    Ok(Merged {
        combined: Bindgen {
            wit,
            roles: empty_roles(alloc),
        },
        exports,
    })
}
