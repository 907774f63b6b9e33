//! The roles of the core imports of a module.

ghost use Rattle.std.specs.Prelude.{◌≡◌, IfOk, IfErr, IsOk};
ghost use Rattle.std.specs.List.{IsDistinct, AllByRecursion, flat_map};
ghost use Rattle.std.specs.Map.{keys_of};
ghost use Rattle.std.specs.Str.{bytes_eq};
ghost use Rattle.wit_data.specs.Sound.{IsSound};
ghost use Rattle.comp_roles.specs.CoreImports.{imports_from};
ghost use Rattle.world_values.specs.Mentions.{HasRole};
ghost use Rattle.record_core_types.specs.Guarantees.{IsCalled};
ghost use Rattle.record_faults.specs.Faults.{Gives};
ghost use Rattle.record_faults.specs.declared.fault.Refusal.{Refusal as RefusalRecord};
ghost use Rattle.record_faults.specs.declared.fault.Failure.TheVariants.{Refused};
ghost use Rattle.record_imports.specs.Meaning.{world_id};
ghost use Rattle.record_imports.specs.Grouping.{names_of, instances_of};
ghost use Rattle.record_imports.specs.Importing.{imports_of};
ghost use Rattle.record_imports.specs.Guarantees.{AreGood, AreChecked, HasDistinctFields};
ghost use Rattle.record_imports.specs.Causes.{ImportCause};

use crate::arguments::{Arguments, instance_for, instance_given};
use crate::grouping::{Group, read_groups};
use crate::others::OtherModules;
use comp_lists::{Keyed, Text};
use comp_roles::{ImportInstance, ImportMap};
use core_sections::CoreModule;
use record_faults::Failure;
use record_resolve::Resolved;
use record_values::{ImportName, ImportRole};
use std::alloc::{AllocError, Global};

/// The groups, no two of which are of one module, as a table.
fn table_of(
    alloc: Global,
    arguments: &Arguments<'_>,
    groups: Vec<Group>,
) -> Result<Keyed<Text, ImportInstance>, AllocError>
    requires { IsDistinct bytes_eq (names_of groups.items) }
    ensures { IfOk result (λ t. t ≡ instances_of arguments.now groups.items) }
{
    let mut modules = Keyed::new(alloc);
    for group in groups {
        let Group { name, fields } = group;
        let instance = instance_given(alloc, instance_for(arguments, &name), fields)?;
        modules.insert(name, instance)?;
    }
    Ok(modules)
}

/// The groups as a table, with what holds of all imports.
fn map_of(
    alloc: Global,
    resolved: &Resolved,
    arguments: &Arguments<'_>,
    groups: Vec<Group>,
) -> Result<ImportMap, AllocError>
    requires apart { IsDistinct bytes_eq (names_of groups.items) }
    requires good { AreGood resolved.now.resolve groups.items }
    ensures modules { IfOk result (λ m. m.modules ≡ instances_of arguments.now groups.items) }
    ensures checks { IfOk result (λ m. AreChecked resolved.now.resolve m.modules) }
{
    let modules = table_of(alloc, arguments, groups)?;
    Ok(ImportMap { modules })
}

/// The roles of the core imports.
#[tactic(auto, unfolding(crate::specs::Importing::imports_of))]
fn read_all(
    alloc: Global,
    resolved: &Resolved,
    others: &OtherModules,
    arguments: &Arguments<'_>,
    roles: &Keyed<ImportName, ImportRole>,
    core: &CoreModule,
) -> Result<ImportMap, Failure>
    requires { IsSound resolved.now.resolve }
    ensures exact { Gives (λ m. m.modules) result
        (imports_of resolved.now others.now arguments.now roles.now core.now) }
    ensures checks { IfOk result (λ m. AreChecked resolved.now.resolve m.modules) }
{
    let groups = read_groups(alloc, resolved, others, arguments, roles, core)?;
    Ok(map_of(alloc, resolved, arguments, groups)?)
}

/// The roles of the core imports of a module, by module and field, in the order in which the modules
/// and their fields first occur.
///
/// An import that has no role, whose role names what the world does not have, or whose role is an
/// export of another module that isn't among these, is refused as one without a role (`RoleMissing`). One
/// whose type is not that of its role, or has anything but numbers, references to any function and limits
/// of 32 bits, is refused by its field (`CoreType`). A module and field that are imported twice are refused
/// by both names (`ImportTwice`). The only other refusal is out of memory. What main and the adapters
/// export is not looked at here.
///
/// An import from a module for which there is an argument takes no role from the record: the first
/// argument for that module gives it its item of that alias, and is refused as one without a role where it has none
/// (`RoleMissing`); or it gives a whole instance, which all imports from there are given.
///
/// What the imports name exists in the resolve, and the world imports each root function under its
/// name, and each interface of which a function is called, which has that function.
#[tactic(auto, using(crate::proofs::Refusing::no_cause, crate::proofs::Refusing::has_cause))]
pub fn read_imports(
    alloc: Global,
    resolved: &Resolved,
    others: &OtherModules,
    arguments: &Arguments<'_>,
    roles: &Keyed<ImportName, ImportRole>,
    core: &CoreModule,
) -> Result<ImportMap, Failure>
    requires { IsSound resolved.now.resolve }
    ensures exact { Gives (λ m. m.modules) result
        (imports_of resolved.now others.now arguments.now roles.now core.now) }
    ensures present { IfOk result (λ m. AllByRecursion (λ i. HasRole resolved.now.resolve i.role)
        (flat_map imports_from m.modules)) }
    ensures called { IfOk result (λ m. AllByRecursion
        (λ i. IsCalled resolved.now.resolve world_id i.role)
        (flat_map imports_from m.modules)) }
    ensures apart { IfOk result (λ m. IsDistinct bytes_eq (keys_of m.modules)) }
    ensures fields { IfOk result (λ m. AllByRecursion HasDistinctFields m.modules) }
    ensures refused { IsOk result
        → (f : RefusalRecord)
        → ImportCause resolved.now others.now arguments.now roles.now core.now f
        → ⊥ }
    ensures cause { IfErr result (λ e. (f : RefusalRecord)
        → e ≡ Refused f
        → ImportCause resolved.now others.now arguments.now roles.now core.now f) }
{
    let map = read_all(alloc, resolved, others, arguments, roles, core)?;
    Ok(map)
}
