//! Warnings of the roles of core imports and core exports.

ghost use Rattle.std.specs.Prelude.{◌≡◌, ◌++◌, ◌∷◌, [], codes, IfOk, OnOk};
ghost use Rattle.std.specs.List.{flat_map};
ghost use Rattle.package_lower.specs.Roles.{import_name};
ghost use Rattle.world_names.specs.WorldNames.{owned};
ghost use Rattle.module_warnings.specs.Roles.{imports_after, is_spare, lacks_import, with_role, functions_after, import_warnings, imports_at, export_warnings, post_return_warnings, field_warnings, exports_at, role_warnings};

use comp_lists::{Keyed, Seq, Text, TryClone};
use core_sections::{CoreImport, CoreModule, ExportedItem};
use name_warnings::{Warning, WarningKind, longer, note_at};
use record_merge::Roles;
use record_values::{ExportRole, ImportName, ImportRole, Owner, TypeName};
use std::alloc::{AllocError, Global};

/// The imports of a core module.
type CoreImports = Keyed<ImportName, ()>;

/// The functions that core exports are, by their owners and names.
type Functions = Keyed<TypeName, ()>;

// ---- roles of core imports

fn import_name(alloc: Global, import: &CoreImport) -> Result<ImportName, AllocError>
    ensures { IfOk result (λ n. n ≡ import_name import.now) }
{
    Ok(ImportName {
        module: import.module.clone(alloc)?,
        field: import.field.clone(alloc)?,
    })
}

fn imports_of(alloc: Global, imports: &[CoreImport]) -> Result<CoreImports, AllocError>
    ensures { IfOk result (λ t. t ≡ imports_after [] imports.now) }
{
    let mut table = Keyed::new(alloc);
    for import in imports {
        table.insert_if_absent(import_name(alloc, import)?, ())?;
    }
    Ok(table)
}

/// Whether a role is for the name that an import of main's realloc gets where main is given one.
fn is_spare(role: &ImportRole) -> bool
    ensures { result ≡ is_spare role.now }
{
    match role {
        ImportRole::MainExport { name, kind: _ } => name.as_str() == "cabi_realloc_adapter",
        _ => false,
    }
}

/// Whether a role has no effect: its core import isn't there.
fn lacks_import(there: &CoreImports, name: &ImportName, role: &ImportRole) -> bool
    ensures { result ≡ lacks_import there.now name.now role.now }
{
    !there.contains_key(name) && !is_spare(role)
}

fn add_import(
    alloc: Global,
    warnings: &mut Seq<Warning>,
    there: &CoreImports,
    path: &Seq<Text>,
    name: &ImportName,
    role: &ImportRole,
) -> Result<(), AllocError>
    ensures { OnOk result
        (warnings.new ≡ warnings.old ++ import_warnings there.now path.now (name.now, role.now)) }
{
    let at = longer(alloc, path, name.module.as_str())?;
    let broken = lacks_import(there, name, role);
    let field = name.field.as_str();
    note_at(
        alloc,
        warnings,
        broken,
        WarningKind::FieldMissing,
        &at,
        field,
    )
}

fn add_each_import(
    alloc: Global,
    warnings: &mut Seq<Warning>,
    there: &CoreImports,
    path: &Seq<Text>,
    roles: &Keyed<ImportName, ImportRole>,
) -> Result<(), AllocError>
    ensures { OnOk result (warnings.new
        ≡ warnings.old ++ flat_map (import_warnings there.now path.now) roles.now) }
{
    for (name, role) in roles.iter() {
        add_import(alloc, warnings, there, path, name, role)?;
    }
    Ok(())
}

fn add_imports(
    alloc: Global,
    warnings: &mut Seq<Warning>,
    core: &CoreModule,
    path: &Seq<Text>,
    roles: &Keyed<ImportName, ImportRole>,
) -> Result<(), AllocError>
    ensures { OnOk result (warnings.new
        ≡ warnings.old ++ imports_at core.now roles.now (path.now ++ codes "core-imports" ∷ [])) }
{
    let at = longer(alloc, path, "core-imports")?;
    let there = imports_of(alloc, core.imports.as_slice())?;
    add_each_import(alloc, warnings, &there, &at, roles)
}

// ---- roles of core exports

fn owned(alloc: Global, owner: &Owner, name: &Text) -> Result<TypeName, AllocError>
    ensures { IfOk result (λ t. t ≡ owned owner.now name.now) }
{
    let owner = owner.try_clone(alloc)?;
    let name = name.clone(alloc)?;
    Ok(TypeName { owner, name })
}

fn add_function(alloc: Global, table: &mut Functions, role: &ExportRole) -> Result<(), AllocError>
    ensures { OnOk result (table.new ≡ with_role table.old role.now) }
{
    match role {
        ExportRole::Function {
            owner,
            name,
            abi: _,
        } => {
            let function = owned(alloc, owner, name)?;
            table.insert_if_absent(function, ())
        }
        _ => Ok(()),
    }
}

fn functions_of(alloc: Global, roles: &Keyed<Text, ExportRole>) -> Result<Functions, AllocError>
    ensures { IfOk result (λ t. t ≡ functions_after [] roles.now) }
{
    let mut table = Keyed::new(alloc);
    for (_field, role) in roles.iter() {
        add_function(alloc, &mut table, role)?;
    }
    Ok(table)
}

fn add_export(
    alloc: Global,
    warnings: &mut Seq<Warning>,
    exports: &Keyed<Text, ExportedItem>,
    path: &Seq<Text>,
    field: &Text,
) -> Result<(), AllocError>
    ensures { OnOk result
        (warnings.new ≡ warnings.old ++ export_warnings exports.now path.now field.now) }
{
    let broken = !exports.contains_key(field);
    note_at(
        alloc,
        warnings,
        broken,
        WarningKind::FieldMissing,
        path,
        field.as_str(),
    )
}

fn add_post_return(
    alloc: Global,
    warnings: &mut Seq<Warning>,
    functions: &Functions,
    path: &Seq<Text>,
    field: &Text,
    role: &ExportRole,
) -> Result<(), AllocError>
    ensures { OnOk result (warnings.new
        ≡ warnings.old ++ post_return_warnings functions.now path.now field.now role.now) }
{
    match role {
        ExportRole::PostReturn { owner, function } => {
            let function = owned(alloc, owner, function)?;
            let broken = !functions.contains_key(&function);
            note_at(
                alloc,
                warnings,
                broken,
                WarningKind::PostReturnAlone,
                path,
                field.as_str(),
            )
        }
        _ => Ok(()),
    }
}

fn add_field(
    alloc: Global,
    warnings: &mut Seq<Warning>,
    exports: &Keyed<Text, ExportedItem>,
    functions: &Functions,
    path: &Seq<Text>,
    field: &Text,
    role: &ExportRole,
) -> Result<(), AllocError>
    ensures { OnOk result (warnings.new ≡ warnings.old
        ++ field_warnings exports.now functions.now path.now (field.now, role.now)) }
{
    add_export(alloc, warnings, exports, path, field)?;
    add_post_return(alloc, warnings, functions, path, field, role)?;
    Ok(())
}

fn add_each_export(
    alloc: Global,
    warnings: &mut Seq<Warning>,
    exports: &Keyed<Text, ExportedItem>,
    functions: &Functions,
    path: &Seq<Text>,
    roles: &Keyed<Text, ExportRole>,
) -> Result<(), AllocError>
    ensures { OnOk result (warnings.new ≡ warnings.old
        ++ flat_map (field_warnings exports.now functions.now path.now) roles.now) }
{
    for (field, role) in roles.iter() {
        add_field(alloc, warnings, exports, functions, path, field, role)?;
    }
    Ok(())
}

fn add_exports(
    alloc: Global,
    warnings: &mut Seq<Warning>,
    core: &CoreModule,
    path: &Seq<Text>,
    roles: &Keyed<Text, ExportRole>,
) -> Result<(), AllocError>
    ensures { OnOk result (warnings.new
        ≡ warnings.old ++ exports_at core.now roles.now (path.now ++ codes "core-exports" ∷ [])) }
{
    let at = longer(alloc, path, "core-exports")?;
    let functions = functions_of(alloc, roles)?;
    add_each_export(alloc, warnings, &core.exports, &functions, &at, roles)
}

// ---- both

/// Adds the warnings of the roles of a core module, behind this path.
pub(crate) fn add_roles(
    alloc: Global,
    warnings: &mut Seq<Warning>,
    core: &CoreModule,
    path: &Seq<Text>,
    roles: &Roles,
) -> Result<(), AllocError>
    ensures { OnOk result
        (warnings.new ≡ warnings.old ++ role_warnings core.now path.now roles.now) }
{
    add_imports(alloc, warnings, core, path, &roles.import_roles)?;
    add_exports(alloc, warnings, core, path, &roles.export_roles)?;
    Ok(())
}
