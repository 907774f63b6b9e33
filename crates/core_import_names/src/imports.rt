//! The roles of core imports, by their names.

ghost use Rattle.std.specs.Prelude.{◌≡◌, IfOk};
ghost use Rattle.std.specs.Option.{option_copied};
ghost use Rattle.name_parts.specs.Builtins.{builtin};
ghost use Rattle.world_names.specs.Labels.{imported_label};
ghost use Rattle.core_import_names.specs.ImportNames.{as_builtin, handle_field, field_on_side, payload_field, encoded_field, field, field_of, root_import, of_root, of_exported_root, of_exported, of_exported_label, older_imported, older_exported, older_import, standard_on_side, standard_field, standard_field_of, standard_root, standard_labelled, standard_import, is_kind_memory, memory_of_main, export_of_main, item_of_main, adapter_import, older_if, world_import, function_import, is_wide, narrow_import, import_role};
ghost use Rattle.world_names.specs.Scopes.{root};
ghost use Rattle.name_parts.specs.Texts as texts;
ghost use Rattle.world_names.specs.declared.labels.Side.TheVariants as sides;

use crate::fields::{
    HandleOperation, Meaning, called, called_after, cancelled, dropped_after, dropped_before,
    own_resource_after, own_resource_before, payload, payload_after, returned_after,
};
use comp_lists::Text;
use name_parts::{Reading, Refusal, after, any_of_three, builtin, either, is_not_encoded};
use record_values::{ImportRole, InterfaceName};
use standard_kinds::ExportKind;
use std::alloc::{AllocError, Global};
use wit_data::AbiVariant;
use world_names::{
    Scope, Side, WorldNames, canonical_label, imported_label, labelled, of_interface, root,
};

/// Which module has the names.
#[derive(Clone, Copy, Debug, PartialEq, Eq)]
pub enum ModuleKind {
    Main,
    /// An adapter, which may import main's memory and what main exports.
    Adapter,
}

// ---- the older form

fn as_builtin(alloc: Global, name: &str) -> Meaning
    ensures { IfOk result (λ r. r ≡ as_builtin (builtin name.now)) }
{
    match builtin(alloc, name)? {
        Some(role) => Ok(Reading::Means(role)),
        None => Ok(Reading::Nothing),
    }
}

fn imported_field(alloc: Global, names: &WorldNames, scope: &Scope, name: &str) -> Meaning
    ensures { IfOk result (λ r. r ≡ field_on_side names.now scope.now sides.Imported name.now) }
{
    let asynchronous = AbiVariant::GuestImportAsync;
    any_of_three(
        called(alloc, names, scope, AbiVariant::GuestImport, Some(name)),
        called_after(alloc, names, scope, asynchronous, "[async-lower]", name),
        dropped_after(alloc, names, scope, "[resource-drop]", name),
    )
}

fn handle_field(alloc: Global, names: &WorldNames, scope: &Scope, name: &str) -> Meaning
    ensures { IfOk result (λ r. r ≡ handle_field names.now scope.now name.now) }
{
    use HandleOperation::{Drop, New, Rep};
    any_of_three(
        own_resource_after(alloc, names, scope, New, "[resource-new]", name),
        own_resource_after(alloc, names, scope, Rep, "[resource-rep]", name),
        own_resource_after(alloc, names, scope, Drop, "[resource-drop]", name),
    )
}

fn exported_field(alloc: Global, names: &WorldNames, scope: &Scope, name: &str) -> Meaning
    ensures { IfOk result (λ r. r ≡ field_on_side names.now scope.now sides.Exported name.now) }
{
    any_of_three(
        handle_field(alloc, names, scope, name),
        returned_after(alloc, names, scope, "[task-return]", name),
        cancelled(name),
    )
}

fn field_on_side(alloc: Global, names: &WorldNames, scope: &Scope, name: &str) -> Meaning
    ensures { IfOk result (λ r. r ≡ field_on_side names.now scope.now scope.now.side name.now) }
{
    match scope.side {
        Side::Imported => imported_field(alloc, names, scope, name),
        Side::Exported => exported_field(alloc, names, scope, name),
    }
}

fn payload_field(alloc: Global, names: &WorldNames, scope: &Scope, name: &str) -> Meaning
    ensures { IfOk result (λ r. r ≡ payload_field names.now scope.now name.now) }
{
    either(
        payload(alloc, names, scope, false, Some(name)),
        payload_after(alloc, names, scope, true, "[async-lower]", name),
    )
}

fn encoded_field(alloc: Global, names: &WorldNames, scope: &Scope, name: &str) -> Meaning
    ensures { IfOk result (λ r. r ≡ encoded_field names.now scope.now name.now) }
{
    either(
        field_on_side(alloc, names, scope, name),
        payload_field(alloc, names, scope, name),
    )
}

#[tactic(auto, unfolding(crate::specs::ImportNames::field))]
fn field(alloc: Global, names: &WorldNames, scope: &Scope, name: &str) -> Meaning
    ensures { IfOk result (λ r. r ≡ field names.now scope.now name.now) }
{
    if is_not_encoded(name) {
        return Ok(Reading::Refused(Refusal::NotEncoded));
    }
    encoded_field(alloc, names, scope, name)
}

fn field_of(
    alloc: Global,
    names: &WorldNames,
    side: Side,
    interface: Reading<InterfaceName>,
    name: &str,
) -> Meaning
    ensures { IfOk result (λ r. r ≡ field_of names.now side interface name.now) }
{
    match interface {
        Reading::Nothing => Ok(Reading::Nothing),
        Reading::Means(interface) => {
            let scope = of_interface(side, interface);
            field(alloc, names, &scope, name)
        }
        Reading::Refused(refusal) => Ok(Reading::Refused(refusal)),
    }
}

/// A field of the world itself.
fn root_field(alloc: Global, names: &WorldNames, side: Side, name: &str) -> Meaning
    ensures { IfOk result (λ r. r ≡ field names.now (root side) name.now) }
{
    let scope = root(side);
    field(alloc, names, &scope, name)
}

fn root_import(alloc: Global, names: &WorldNames, name: &str) -> Meaning
    ensures { IfOk result (λ r. r ≡ root_import names.now name.now) }
{
    either(
        root_field(alloc, names, Side::Imported, name),
        as_builtin(alloc, name),
    )
}

fn of_root(alloc: Global, names: &WorldNames, module: &str, name: &str) -> Meaning
    ensures { IfOk result (λ r. r ≡ of_root names.now «module».now name.now) }
{
    if module != "$root" {
        return Ok(Reading::Nothing);
    }
    root_import(alloc, names, name)
}

fn of_imported(alloc: Global, names: &WorldNames, label: &str, name: &str) -> Meaning
    ensures { IfOk result (λ r. r ≡ field_of names.now sides.Imported
        (imported_label names.now label.now) name.now) }
{
    let interface = imported_label(alloc, names, label)?;
    field_of(alloc, names, Side::Imported, interface, name)
}

fn of_exported_root(alloc: Global, names: &WorldNames, module: &str, name: &str) -> Meaning
    ensures { IfOk result (λ r. r ≡ of_exported_root names.now «module».now name.now) }
{
    if module != "[export]$root" {
        return Ok(Reading::Nothing);
    }
    root_field(alloc, names, Side::Exported, name)
}

fn of_exported(alloc: Global, names: &WorldNames, label: Option<&str>, name: &str) -> Meaning
    ensures { IfOk result (λ r. r ≡ of_exported names.now (option_copied label.entry) name.now) }
{
    let Some(label) = label else {
        return Ok(Reading::Nothing);
    };
    let interface = labelled(alloc, names, Side::Exported, label)?;
    field_of(alloc, names, Side::Exported, interface, name)
}

fn of_exported_label(alloc: Global, names: &WorldNames, module: &str, name: &str) -> Meaning
    ensures { IfOk result (λ r. r ≡ of_exported_label names.now «module».now name.now) }
{
    of_exported(alloc, names, after("[export]", module), name)
}

fn older_imported(alloc: Global, names: &WorldNames, module: &str, name: &str) -> Meaning
    ensures { IfOk result (λ r. r ≡ older_imported names.now «module».now name.now) }
{
    either(
        of_root(alloc, names, module, name),
        of_imported(alloc, names, module, name),
    )
}

fn older_exported(alloc: Global, names: &WorldNames, module: &str, name: &str) -> Meaning
    ensures { IfOk result (λ r. r ≡ older_exported names.now «module».now name.now) }
{
    either(
        of_exported_root(alloc, names, module, name),
        of_exported_label(alloc, names, module, name),
    )
}

#[tactic(auto, unfolding(crate::specs::ImportNames::older_import))]
fn older_import(alloc: Global, names: &WorldNames, module: &str, name: &str) -> Meaning
    ensures { IfOk result (λ r. r ≡ older_import names.now «module».now name.now) }
{
    either(
        older_imported(alloc, names, module, name),
        older_exported(alloc, names, module, name),
    )
}

// ---- the standard form

fn standard_imported(alloc: Global, names: &WorldNames, scope: &Scope, name: &str) -> Meaning
    ensures { IfOk result (λ r. r ≡ standard_on_side names.now scope.now sides.Imported name.now) }
{
    either(
        called(alloc, names, scope, AbiVariant::GuestImport, Some(name)),
        dropped_before(alloc, names, scope, "_drop", name),
    )
}

fn standard_exported(alloc: Global, names: &WorldNames, scope: &Scope, name: &str) -> Meaning
    ensures { IfOk result (λ r. r ≡ standard_on_side names.now scope.now sides.Exported name.now) }
{
    use HandleOperation::{Drop, New, Rep};
    any_of_three(
        own_resource_before(alloc, names, scope, New, "_new", name),
        own_resource_before(alloc, names, scope, Rep, "_rep", name),
        own_resource_before(alloc, names, scope, Drop, "_drop", name),
    )
}

#[tactic(auto, unfolding(crate::specs::ImportNames::standard_field))]
fn standard_field(alloc: Global, names: &WorldNames, scope: &Scope, name: &str) -> Meaning
    ensures { IfOk result (λ r. r ≡ standard_field names.now scope.now name.now) }
{
    match scope.side {
        Side::Imported => standard_imported(alloc, names, scope, name),
        Side::Exported => standard_exported(alloc, names, scope, name),
    }
}

fn standard_field_of(
    alloc: Global,
    names: &WorldNames,
    side: Side,
    interface: Reading<InterfaceName>,
    name: &str,
) -> Meaning
    ensures { IfOk result (λ r. r ≡ standard_field_of names.now side interface name.now) }
{
    match interface {
        Reading::Nothing => Ok(Reading::Nothing),
        Reading::Means(interface) => {
            let scope = of_interface(side, interface);
            standard_field(alloc, names, &scope, name)
        }
        Reading::Refused(refusal) => Ok(Reading::Refused(refusal)),
    }
}

fn standard_root(alloc: Global, names: &WorldNames, module: &str, name: &str) -> Meaning
    ensures { IfOk result (λ r. r ≡ standard_root names.now «module».now name.now) }
{
    if module != "cm32p2" {
        return Ok(Reading::Nothing);
    }
    let scope = root(Side::Imported);
    standard_field(alloc, names, &scope, name)
}

fn standard_labelled(
    alloc: Global,
    names: &WorldNames,
    side: Side,
    label: Option<&str>,
    name: &str,
) -> Meaning
    ensures { IfOk result (λ r. r ≡ standard_labelled names.now side
        (option_copied label.entry) name.now) }
{
    let Some(label) = label else {
        return Ok(Reading::Nothing);
    };
    let interface = canonical_label(alloc, names, side, label)?;
    standard_field_of(alloc, names, side, interface, name)
}

fn standard_after(
    alloc: Global,
    names: &WorldNames,
    side: Side,
    prefix: &str,
    module: &str,
    name: &str,
) -> Meaning
    ensures { IfOk result (λ r. r ≡ standard_labelled names.now side
        (texts.after prefix.now «module».now) name.now) }
{
    standard_labelled(alloc, names, side, after(prefix, module), name)
}

#[tactic(auto, unfolding(crate::specs::ImportNames::standard_import))]
fn standard_import(alloc: Global, names: &WorldNames, module: &str, name: &str) -> Meaning
    ensures { IfOk result (λ r. r ≡ standard_import names.now «module».now name.now) }
{
    any_of_three(
        standard_root(alloc, names, module, name),
        standard_after(alloc, names, Side::Imported, "cm32p2|", module, name),
        standard_after(alloc, names, Side::Exported, "cm32p2|_ex_", module, name),
    )
}

// ---- all of it

fn is_kind_memory(kind: ExportKind) -> bool
    ensures { result ≡ is_kind_memory kind }
{
    match kind {
        ExportKind::Memory => true,
        ExportKind::Func => false,
        ExportKind::Table => false,
        ExportKind::Global => false,
    }
}

fn memory_of_main(kind: ExportKind, module: &str, name: &str) -> Meaning
    ensures { IfOk result (λ r. r ≡ memory_of_main kind «module».now name.now) }
{
    if is_kind_memory(kind) && module == "env" && name == "memory" {
        Ok(Reading::Means(ImportRole::Memory))
    } else {
        Ok(Reading::Nothing)
    }
}

fn export_of_main(alloc: Global, kind: ExportKind, module: &str, name: &str) -> Meaning
    ensures { IfOk result (λ r. r ≡ export_of_main kind «module».now name.now) }
{
    if module != "__main_module__" {
        return Ok(Reading::Nothing);
    }
    let name = Text::from_str(alloc, name)?;
    Ok(Reading::Means(ImportRole::MainExport { name, kind }))
}

fn item_of_main(alloc: Global, kind: ExportKind, module: &str, name: &str) -> Meaning
    ensures { IfOk result (λ r. r ≡ item_of_main kind «module».now name.now) }
{
    either(
        memory_of_main(kind, module, name),
        export_of_main(alloc, kind, module, name),
    )
}

fn adapter_import(
    alloc: Global,
    module_kind: ModuleKind,
    kind: ExportKind,
    module: &str,
    name: &str,
) -> Meaning
    ensures { IfOk result (λ r. r ≡ adapter_import module_kind kind «module».now name.now) }
{
    match module_kind {
        ModuleKind::Main => Ok(Reading::Nothing),
        ModuleKind::Adapter => item_of_main(alloc, kind, module, name),
    }
}

fn older_if(
    alloc: Global,
    names: &WorldNames,
    rejects_older: bool,
    module: &str,
    name: &str,
) -> Meaning
    ensures { IfOk result (λ r. r ≡ older_if names.now rejects_older «module».now name.now) }
{
    if rejects_older {
        Ok(Reading::Nothing)
    } else {
        older_import(alloc, names, module, name)
    }
}

fn world_import(
    alloc: Global,
    names: &WorldNames,
    rejects_older: bool,
    module: &str,
    name: &str,
) -> Meaning
    ensures { IfOk result (λ r. r ≡ world_import names.now rejects_older «module».now name.now) }
{
    either(
        standard_import(alloc, names, module, name),
        older_if(alloc, names, rejects_older, module, name),
    )
}

fn function_import(
    alloc: Global,
    names: &WorldNames,
    rejects_older: bool,
    kind: ExportKind,
    module: &str,
    name: &str,
) -> Meaning
    ensures { IfOk result (λ r. r
        ≡ function_import names.now rejects_older kind «module».now name.now) }
{
    match kind {
        ExportKind::Func => world_import(alloc, names, rejects_older, module, name),
        ExportKind::Table => Ok(Reading::Nothing),
        ExportKind::Memory => Ok(Reading::Nothing),
        ExportKind::Global => Ok(Reading::Nothing),
    }
}

#[tactic(auto, unfolding(crate::specs::ImportNames::is_wide))]
fn is_wide(module: &str) -> bool
    ensures { result ≡ is_wide «module».now }
{
    module == "cm64p2" || after("cm64p2|", module).is_some()
}

fn narrow_import(
    alloc: Global,
    names: &WorldNames,
    module_kind: ModuleKind,
    rejects_older: bool,
    kind: ExportKind,
    module: &str,
    field: &str,
) -> Meaning
    ensures { IfOk result (λ r. r
        ≡ narrow_import names.now module_kind rejects_older kind «module».now field.now) }
{
    either(
        adapter_import(alloc, module_kind, kind, module, field),
        function_import(alloc, names, rejects_older, kind, module, field),
    )
}

/// What the name of a core import means in a world, for a module of this kind, which imports an item of this
/// kind under it (component model, build targets). Where the older form is rejected, its names mean nothing.
/// The only error is out of memory.
#[tactic(auto, unfolding(crate::specs::ImportNames::import_role))]
pub fn import_role(
    alloc: Global,
    names: &WorldNames,
    module_kind: ModuleKind,
    rejects_older: bool,
    kind: ExportKind,
    module: &str,
    field: &str,
) -> Result<Reading<ImportRole>, AllocError>
    ensures { IfOk result (λ r. r
        ≡ import_role names.now module_kind rejects_older kind «module».now field.now) }
{
    if is_wide(module) {
        return Ok(Reading::Refused(Refusal::WideMemory));
    }
    narrow_import(
        alloc,
        names,
        module_kind,
        rejects_older,
        kind,
        module,
        field,
    )
}
