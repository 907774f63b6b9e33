//! The roles that the names of core imports and core exports give.

ghost use Rattle.std.specs.Prelude.{◌≡◌, Err, None, IfOk, OnOk};
ghost use Rattle.std.specs.Map.{lookup};
ghost use Rattle.record_values.specs.Names.{is_same_import};
ghost use Rattle.std.specs.Str.{bytes_eq};
ghost use Rattle.package_lower.specs.Faults.{Gives};
ghost use Rattle.package_lower.specs.Roles.{left_out, several, import_name, kind_of, exported_kind, of_adapter, refused, as_import, import_by_kind, named_import, with_role, import_step, imports_after, as_export, export_by_kind, named_export, with_export_role, export_step, exports_after};

use crate::fault::{Failure, Refusal};
use comp_lists::{Keyed, Text};
use core_export_names::export_role;
use core_import_names::{ModuleKind, import_role};
use core_sections::{CoreImport, EntityType, ExportedItem};
use name_parts::{Reading, Refusal as NameRefusal};
use record_faults::Refusal as PlainRefusal;
use record_values::{ExportRole, ImportName, ImportRole};
use standard_kinds::ExportKind;
use std::alloc::{AllocError, Global};
use world_names::WorldNames;

/// The refusal of what is left out, by this name.
fn left_out<T>(alloc: Global, what: &str) -> Result<T, Failure>
    ensures { Gives (λ x. x) result (Err (left_out what.now)) }
{
    let what = Text::from_str(alloc, what)?;
    Err(Failure::Refused(Refusal::Plain(PlainRefusal::LeftOut { what })))
}

/// The refusal of a name that can be read in two ways.
fn several<T>(alloc: Global, name: &Text) -> Result<T, Failure>
    ensures { Gives (λ x. x) result (Err (several name.now)) }
{
    let name = name.clone(alloc)?;
    Err(Failure::Refused(Refusal::SeveralMeanings { name }))
}

/// The refusal of a name.
fn refuse<T>(alloc: Global, refusal: NameRefusal, name: &Text) -> Result<T, Failure>
    ensures { Gives (λ x. x) result (Err (refused refusal name.now)) }
{
    match refusal {
        NameRefusal::SeveralMeanings => several(alloc, name),
        NameRefusal::NotEncoded => left_out(alloc, name.as_str()),
        NameRefusal::WideMemory => left_out(alloc, "cm64p2"),
    }
}

/// The kind of an item, if items of that kind have roles.
fn kind_of(entity: EntityType) -> Option<ExportKind>
    ensures { result ≡ kind_of entity }
{
    match entity {
        EntityType::Function(_) => Some(ExportKind::Func),
        EntityType::Table {
            element: _,
            limits: _,
        } => Some(ExportKind::Table),
        EntityType::Memory(_) => Some(ExportKind::Memory),
        EntityType::Global {
            val_type: _,
            mutable: _,
        } => Some(ExportKind::Global),
        EntityType::Tag(_) => None,
    }
}

// ---- core imports

fn import_name(alloc: Global, import: &CoreImport) -> Result<ImportName, AllocError>
    ensures { IfOk result (λ n. n ≡ import_name import.now) }
{
    Ok(ImportName {
        module: import.module.clone(alloc)?,
        field: import.field.clone(alloc)?,
    })
}

/// What an import is by its module's name alone: a function of the adapter of that name.
fn of_adapter(
    alloc: Global,
    kind: ExportKind,
    import: &CoreImport,
) -> Result<Option<ImportRole>, AllocError>
    ensures { IfOk result (λ r. r ≡ of_adapter kind import.now) }
{
    match kind {
        ExportKind::Func => Ok(Some(ImportRole::AdapterExport {
            adapter: import.module.clone(alloc)?,
            function: import.field.clone(alloc)?,
        })),
        ExportKind::Table => Ok(None),
        ExportKind::Memory => Ok(None),
        ExportKind::Global => Ok(None),
    }
}

fn as_import(
    alloc: Global,
    kind: ExportKind,
    import: &CoreImport,
    reading: Reading<ImportRole>,
) -> Result<Option<ImportRole>, Failure>
    ensures { Gives (λ r. r) result (as_import kind import.now reading) }
{
    match reading {
        Reading::Nothing => Ok(of_adapter(alloc, kind, import)?),
        Reading::Means(role) => Ok(Some(role)),
        Reading::Refused(refusal) => refuse(alloc, refusal, &import.field),
    }
}

/// The role of an import of some kind by its name.
fn import_by_kind(
    alloc: Global,
    names: &WorldNames,
    rejects_older: bool,
    kind: ExportKind,
    import: &CoreImport,
) -> Result<Option<ImportRole>, Failure>
    ensures { Gives (λ r. r) result (import_by_kind names.now rejects_older kind import.now) }
{
    let module = import.module.as_str();
    let field = import.field.as_str();
    let is = ModuleKind::Adapter;
    let reading = import_role(alloc, names, is, rejects_older, kind, module, field)?;
    as_import(alloc, kind, import, reading)
}

/// The role of an import by its name.
fn named_import(
    alloc: Global,
    names: &WorldNames,
    rejects_older: bool,
    import: &CoreImport,
) -> Result<Option<ImportRole>, Failure>
    ensures { Gives (λ r. r) result (named_import names.now rejects_older import.now) }
{
    match kind_of(import.entity) {
        Some(kind) => import_by_kind(alloc, names, rejects_older, kind, import),
        None => Ok(None),
    }
}

fn put_import(
    roles: &mut Keyed<ImportName, ImportRole>,
    name: ImportName,
    role: Option<ImportRole>,
) -> Result<(), AllocError>
    requires { lookup (is_same_import name) roles.old ≡ None }
    ensures { OnOk result (roles.new ≡ with_role roles.old name role) }
{
    match role {
        Some(role) => roles.insert(name, role),
        None => Ok(()),
    }
}

/// Adds the role of an import that has none.
fn add_import(
    alloc: Global,
    names: &WorldNames,
    rejects_older: bool,
    roles: &mut Keyed<ImportName, ImportRole>,
    import: &CoreImport,
) -> Result<(), Failure>
    ensures { Gives (λ _. roles.new) result
        (import_step names.now rejects_older roles.old import.now) }
{
    let name = import_name(alloc, import)?;
    if roles.contains_key(&name) {
        return Ok(());
    }
    let role = named_import(alloc, names, rejects_older, import)?;
    Ok(put_import(roles, name, role)?)
}

/// Adds the roles of the imports that have none.
pub(crate) fn add_imports(
    alloc: Global,
    names: &WorldNames,
    rejects_older: bool,
    roles: &mut Keyed<ImportName, ImportRole>,
    imports: &[CoreImport],
) -> Result<(), Failure>
    ensures { Gives (λ _. roles.new) result
        (imports_after names.now rejects_older roles.old imports.now) }
{
    for import in imports {
        add_import(alloc, names, rejects_older, roles, import)?;
    }
    Ok(())
}

// ---- core exports

fn exported_kind(item: &ExportedItem) -> Option<ExportKind>
    ensures { result ≡ exported_kind item.now }
{
    match item {
        ExportedItem::Entity(entity) => kind_of(*entity),
        ExportedItem::Tag => None,
    }
}

fn as_export(
    alloc: Global,
    name: &Text,
    reading: Reading<ExportRole>,
) -> Result<Option<ExportRole>, Failure>
    ensures { Gives (λ r. r) result (as_export name.now reading) }
{
    match reading {
        Reading::Nothing => Ok(None),
        Reading::Means(role) => Ok(Some(role)),
        Reading::Refused(refusal) => refuse(alloc, refusal, name),
    }
}

/// The role of an export of some kind by its name.
fn export_by_kind(
    alloc: Global,
    names: &WorldNames,
    rejects_older: bool,
    kind: ExportKind,
    name: &Text,
) -> Result<Option<ExportRole>, Failure>
    ensures { Gives (λ r. r) result (export_by_kind names.now rejects_older kind name.now) }
{
    let reading = export_role(alloc, names, rejects_older, kind, name.as_str())?;
    as_export(alloc, name, reading)
}

fn named_export(
    alloc: Global,
    names: &WorldNames,
    rejects_older: bool,
    name: &Text,
    item: &ExportedItem,
) -> Result<Option<ExportRole>, Failure>
    ensures { Gives (λ r. r) result (named_export names.now rejects_older name.now item.now) }
{
    match exported_kind(item) {
        Some(kind) => export_by_kind(alloc, names, rejects_older, kind, name),
        None => Ok(None),
    }
}

fn put_export(
    roles: &mut Keyed<Text, ExportRole>,
    name: Text,
    role: Option<ExportRole>,
) -> Result<(), AllocError>
    requires { lookup (bytes_eq name) roles.old ≡ None }
    ensures { OnOk result (roles.new ≡ with_export_role roles.old name role) }
{
    match role {
        Some(role) => roles.insert(name, role),
        None => Ok(()),
    }
}

/// Adds the role of an export that has none.
fn add_export(
    alloc: Global,
    names: &WorldNames,
    rejects_older: bool,
    roles: &mut Keyed<Text, ExportRole>,
    name: &Text,
    item: &ExportedItem,
) -> Result<(), Failure>
    ensures { Gives (λ _. roles.new) result
        (export_step names.now rejects_older roles.old name.now item.now) }
{
    if roles.contains_key(name) {
        return Ok(());
    }
    let name_of = name.clone(alloc)?;
    let role = named_export(alloc, names, rejects_older, name, item)?;
    Ok(put_export(roles, name_of, role)?)
}

/// Adds the roles of the exports that have none.
pub(crate) fn add_exports(
    alloc: Global,
    names: &WorldNames,
    rejects_older: bool,
    roles: &mut Keyed<Text, ExportRole>,
    exports: &Keyed<Text, ExportedItem>,
) -> Result<(), Failure>
    ensures { Gives (λ _. roles.new) result
        (exports_after names.now rejects_older roles.old exports.now) }
{
    for (name, item) in exports.iter() {
        add_export(alloc, names, rejects_older, roles, name, item)?;
    }
    Ok(())
}
