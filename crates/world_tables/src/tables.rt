//! The tables of a world: lowerings of its imports, the types that are needed, exported interfaces that others name.

ghost use Rattle.std.specs.Prelude.{◌≡◌, is_some, map, get_or, false, IfOk};
ghost use Rattle.std.specs.List.{flat_map, AllByRecursion};
ghost use Rattle.wit_data.specs.Sound.{IsSound, HasWorld};
ghost use Rattle.comp_worlds.specs.Imported.{imported};
ghost use Rattle.comp_roles.specs.Borrowed.{core_import};
ghost use Rattle.comp_roles.specs.Lookups.{imported_memory};
ghost use Rattle.world_values.specs.Mentions.{HasRole, live_type_imports, exports_used};
ghost use Rattle.comp_worlds.specs.Uses.{used_by, all_imports};

use crate::imported::imported;
use crate::mentions::used_types;
use crate::reached::{exports_used, live_imports};
use crate::uses::{all_imports, uses_of};
use comp_lists::{Keyed, Seq, Text};
use comp_roles::NamedImport;
use comp_worlds::{ImportedInterface, ValidatedModule, WorldAdapter};
use std::alloc::{AllocError, Global};
use wit_data::{InterfaceId, Resolve, TypeId, World, WorldKey, live_marks};

/// The tables of a world.
#[derive(Drop)]
pub(crate) struct Tables {
    pub import_map: Keyed<Option<WorldKey>, ImportedInterface>,
    pub live_type_imports: Keyed<InterfaceId, Seq<TypeId>>,
    pub exports_used: Keyed<InterfaceId, Seq<InterfaceId>>,
}

/// The lowerings of the world's imports.
#[tactic(auto, using(crate::proofs::Using::imported_are))]
fn import_map(
    alloc: Global,
    imports: &[NamedImport<'_>],
    shares_memory: bool,
    resolve: &Resolve,
    world: &World,
) -> Result<Keyed<Option<WorldKey>, ImportedInterface>, AllocError>
    requires sound { IsSound resolve.now }
    requires present { HasWorld resolve.now world.now }
    ensures { IfOk result (λ t. t
        ≡ imported (used_by (map core_import imports.now) shares_memory) resolve.now
        world.now.imports) }
{
    let uses = uses_of(alloc, imports, shares_memory)?;
    let table = imported(alloc, &uses, resolve, &world.imports)?;
    Ok(table)
}

/// For each imported interface, the types that the component needs.
#[tactic(auto, using(crate::proofs::Reaching::live_are))]
fn live_type_imports(
    alloc: Global,
    imports: &[NamedImport<'_>],
    resolve: &Resolve,
    world: &World,
) -> Result<Keyed<InterfaceId, Seq<TypeId>>, AllocError>
    requires sound { IsSound resolve.now }
    requires present { HasWorld resolve.now world.now }
    requires roles { AllByRecursion (λ i. HasRole resolve.now i.role)
        (map core_import imports.now) }
    ensures { IfOk result
        (λ t. t ≡ live_type_imports (map core_import imports.now) resolve.now world.now) }
{
    let given = used_types(alloc, imports, resolve, world)?;
    let marks = live_marks(alloc, resolve.types.as_slice(), given.as_slice())?;
    let table = live_imports(alloc, resolve, marks.as_slice(), &world.imports)?;
    Ok(table)
}

/// The tables of a world whose core imports are these.
fn tables_with(
    alloc: Global,
    imports: &[NamedImport<'_>],
    shares_memory: bool,
    resolve: &Resolve,
    world: &World,
) -> Result<Tables, AllocError>
    requires sound { IsSound resolve.now }
    requires present { HasWorld resolve.now world.now }
    requires roles { AllByRecursion (λ i. HasRole resolve.now i.role)
        (map core_import imports.now) }
    ensures imports { IfOk result (λ t. t.import_map
        ≡ imported (used_by (map core_import imports.now) shares_memory) resolve.now
        world.now.imports) }
    ensures live { IfOk result (λ t. t.live_type_imports
        ≡ live_type_imports (map core_import imports.now) resolve.now world.now) }
    ensures used { IfOk result (λ t. t.exports_used ≡ exports_used resolve.now world.now) }
{
    let import_map = import_map(alloc, imports, shares_memory, resolve, world)?;
    let live_type_imports = live_type_imports(alloc, imports, resolve, world)?;
    let exports_used = exports_used(alloc, resolve, world)?;
    Ok(Tables {
        import_map,
        live_type_imports,
        exports_used,
    })
}

/// The tables of a world of these parts.
pub(crate) fn tables_of(
    alloc: Global,
    resolve: &Resolve,
    world: &World,
    main: &ValidatedModule,
    adapters: &Keyed<Text, WorldAdapter>,
) -> Result<Tables, AllocError>
    requires sound { IsSound resolve.now }
    requires present { HasWorld resolve.now world.now }
    requires roles { AllByRecursion (λ i. HasRole resolve.now i.role)
        (all_imports main.now adapters.now) }
    ensures imports { IfOk result (λ t. t.import_map
        ≡ imported (used_by (all_imports main.now adapters.now)
        (is_some (imported_memory main.now.imports.modules))) resolve.now
        world.now.imports) }
    ensures live { IfOk result (λ t. t.live_type_imports
        ≡ live_type_imports (all_imports main.now adapters.now) resolve.now world.now) }
    ensures used { IfOk result (λ t. t.exports_used ≡ exports_used resolve.now world.now) }
{
    let list = all_imports(alloc, main, adapters)?;
    let shares_memory = main.imports.imported_memory().is_some();
    tables_with(alloc, list.as_slice(), shares_memory, resolve, world)
}
