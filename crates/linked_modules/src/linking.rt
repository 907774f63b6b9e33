//! What the modules of a world give to each other: main its memory and its exports, adapters their
//! functions, and both what arguments of libraries name.

ghost use Rattle.std.specs.Prelude.{◌≡◌, map, IfErr, IsOk};
ghost use Rattle.comp_roles.specs.Borrowed.{core_import};
ghost use Rattle.record_faults.specs.Faults.{Gives};
ghost use Rattle.record_faults.specs.declared.fault.Failure.TheVariants as failures;
ghost use Rattle.record_faults.specs.declared.fault.Refusal.{Refusal};
ghost use Rattle.supported_worlds.specs.Links.{AreLinked};
ghost use Rattle.linked_modules.specs.LinkCauses.{LinkCause};
ghost use Rattle.linked_modules.specs.Linking.{each_passes, import_given, typed_given, module_given, adapter_given, links_pass};

use crate::giving::{Importer, check_instance, check_role, importer_of};
use comp_lists::{Keyed, Text};
use comp_roles::{ImportMap, ImportType, NamedImport};
use comp_worlds::{ValidatedModule, WorldAdapter, WorldParts};
use record_faults::Failure;
use record_imports::check_memories;
use std::alloc::Global;

/// Refuses the first of these imports that isn't given what its role names.
fn check_imports(
    alloc: Global,
    importer: Importer,
    main: &ValidatedModule,
    adapters: &Keyed<Text, WorldAdapter>,
    imports: &[NamedImport<'_>],
) -> Result<(), Failure>
    ensures { Gives (λ x. x) result
        (each_passes (import_given importer main.now adapters.now) (map core_import imports.now)) }
{
    for import in imports {
        check_role(
            alloc,
            importer,
            main,
            adapters,
            import.from,
            import.field,
            import.role,
        )?;
    }
    Ok(())
}

/// Refuses the first of these imports of a module that doesn't match what it is given.
fn check_types(
    alloc: Global,
    importer: Importer,
    main: &ValidatedModule,
    adapters: &Keyed<Text, WorldAdapter>,
    map: &ImportMap,
    imports: &[ImportType],
) -> Result<(), Failure>
    ensures { Gives (λ x. x) result
        (each_passes (typed_given importer main.now adapters.now map.now.modules) imports.now) }
{
    for import in imports {
        let instance = map.modules.get(&import.module_name);
        check_instance(alloc, importer, main, adapters, import, instance)?;
    }
    Ok(())
}

/// Refuses a module with an import that isn't given what it asks for.
fn check_module(
    alloc: Global,
    importer: Importer,
    main: &ValidatedModule,
    adapters: &Keyed<Text, WorldAdapter>,
    user: &ValidatedModule,
) -> Result<(), Failure>
    ensures { Gives (λ x. x) result (module_given importer main.now adapters.now user.now) }
{
    let imports = user.imports.imports(alloc)?;
    check_imports(alloc, importer, main, adapters, imports.as_slice())?;
    let imported = user.imported.as_slice();
    check_types(alloc, importer, main, adapters, &user.imports, imported)
}

/// Refuses the first adapter with such an import.
fn check_adapters(
    alloc: Global,
    main: &ValidatedModule,
    adapters: &Keyed<Text, WorldAdapter>,
) -> Result<(), Failure>
    ensures { Gives (λ x. x) result
        (each_passes (adapter_given main.now adapters.now) adapters.now) }
{
    for (_, adapter) in adapters.iter() {
        let importer = importer_of(&adapter.library_info);
        check_module(alloc, importer, main, adapters, &adapter.info)?;
    }
    Ok(())
}

#[tactic(auto, unfolding(crate::specs::Linking::links_pass))]
fn check_modules(alloc: Global, parts: &WorldParts) -> Result<(), Failure>
    ensures { Gives (λ x. x) result (links_pass parts.now) }
{
    let main = &parts.main;
    check_memories(alloc, &main.imports)?;
    check_module(alloc, Importer::Main, main, &parts.adapters, main)?;
    check_adapters(alloc, main, &parts.adapters)
}

/// Refuses the parts of a world in which an import isn't given what it asks for.
///
/// An import that names what isn't there, or what its module may not import, is refused by its names
/// (`RoleMissing`), and one whose type doesn't match what is there by its field (`CoreType`). The only other
/// refusal is out of memory. Each import is looked up once by its names, and once in what its role or its
/// argument names; a module is read again only for a refusal.
#[tactic(auto, using(crate::proofs::Linked::are_linked, crate::proofs::LinkRefusals::no_cause, crate::proofs::LinkRefusals::has_cause))]
pub fn check_links(alloc: Global, parts: &WorldParts) -> Result<(), Failure>
    ensures exact { Gives (λ x. x) result (links_pass parts.now) }
    ensures linked { IsOk result → AreLinked parts.now }
    ensures refused { IsOk result → (f : Refusal) → ¬ LinkCause parts.now f }
    ensures cause { IfErr result
        (λ e. (f : Refusal) → e ≡ failures.Refused f → LinkCause parts.now f) }
{
    let checked = check_modules(alloc, parts)?;
    Ok(checked)
}
