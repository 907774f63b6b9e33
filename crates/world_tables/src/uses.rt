//! What the core imports of all modules use of what the world imports.

ghost use Rattle.std.specs.Prelude.{◌≡◌, [], nat_eq, map, IfOk, OnOk};
ghost use Rattle.std.specs.List.{flat_map};
ghost use Rattle.world_values.specs.Tables.{with_all};
ghost use Rattle.comp_worlds.specs.Uses.{all_imports, call_at, calls_in, drops_in, is_same_call, IsUsed, used_in, used_by};
ghost use Rattle.comp_roles.specs.Borrowed.{core_import};

use comp_lists::{Keyed, Text, TryClone};
use comp_roles::{Import, NamedImport};
use comp_worlds::{Call, LoweringKey, Uses, ValidatedModule, WorldAdapter};
use std::alloc::{AllocError, Global};
use wit_data::{AbiVariant, WorldKey};

/// The call of a function at a key.
pub(crate) fn call_at(
    alloc: Global,
    key: &WorldKey,
    name: &Text,
    abi: AbiVariant,
) -> Result<Call, AllocError>
    ensures { IfOk result (λ c. c ≡ call_at key.now name.now abi) }
{
    let key = key.try_clone(alloc)?;
    let name = name.clone(alloc)?;
    Ok(Call {
        key,
        lowering: LoweringKey { name, abi },
    })
}

/// Adds the call that is the role of an import, if it is one.
fn add_call(alloc: Global, calls: &mut Keyed<Call, ()>, role: &Import) -> Result<(), AllocError>
    ensures { OnOk result (calls.new ≡ with_all is_same_call calls.old (calls_in role.now)) }
{
    match role {
        Import::WorldFunc(key, name, abi) => calls.insert_if_absent(
            call_at(alloc, key, name, *abi)?,
            (),
        ),
        Import::InterfaceFunc(key, _, name, abi) => {
            calls.insert_if_absent(call_at(alloc, key, name, *abi)?, ())
        }
        _ => Ok(()),
    }
}

/// Adds the number of the resource that an import drops, if it drops one.
fn add_drop(drops: &mut Keyed<usize, ()>, role: &Import) -> Result<(), AllocError>
    ensures { OnOk result (drops.new ≡ with_all nat_eq drops.old (drops_in role.now)) }
{
    match role {
        Import::ImportedResourceDrop(_, _, id) => drops.insert_if_absent(id.index, ()),
        _ => Ok(()),
    }
}

/// The imports of all modules: of main, then of the adapters in order.
#[tactic(auto, using(comp_roles::proofs::Walking::item_step))]
pub(crate) fn all_imports<'a>(
    alloc: Global,
    main: &'a ValidatedModule,
    adapters: &'a Keyed<Text, WorldAdapter>,
) -> Result<Vec<NamedImport<'a>>, AllocError>
    ensures { IfOk result (λ v. map core_import v.items ≡ all_imports main.now adapters.now) }
{
    let mut list = Vec::new(alloc);
    main.imports.add_imports(&mut list)?;
    for (_, adapter) in adapters.iter() {
        adapter.info.imports.add_imports(&mut list)?;
    }
    Ok(list)
}

/// The calls that are roles of imports.
#[tactic(auto, using(crate::proofs::Entering::after_item))]
fn calls_of(alloc: Global, imports: &[NamedImport<'_>]) -> Result<Keyed<Call, ()>, AllocError>
    ensures { IfOk result (λ t. t
        ≡ with_all is_same_call []
        (flat_map (λ i. calls_in i.role) (map core_import imports.now))) }
{
    let mut calls = Keyed::new(alloc);
    for import in imports {
        add_call(alloc, &mut calls, import.role)?;
    }
    Ok(calls)
}

/// The numbers of the resources that imports drop.
#[tactic(auto, using(crate::proofs::Entering::after_item))]
fn drops_of(alloc: Global, imports: &[NamedImport<'_>]) -> Result<Keyed<usize, ()>, AllocError>
    ensures { IfOk result (λ t. t
        ≡ with_all nat_eq [] (flat_map (λ i. drops_in i.role) (map core_import imports.now))) }
{
    let mut drops = Keyed::new(alloc);
    for import in imports {
        add_drop(&mut drops, import.role)?;
    }
    Ok(drops)
}

/// What these imports use, and whether main imports its memory.
#[tactic(auto, using(crate::proofs::Using::uses_are))]
pub(crate) fn uses_of(
    alloc: Global,
    imports: &[NamedImport<'_>],
    shares_memory: bool,
) -> Result<Uses, AllocError>
    ensures { IfOk result
        (λ u. IsUsed (used_in u) (used_by (map core_import imports.now) shares_memory)) }
{
    let calls = calls_of(alloc, imports)?;
    let drops = drops_of(alloc, imports)?;
    Ok(Uses {
        calls,
        drops,
        shares_memory,
    })
}
