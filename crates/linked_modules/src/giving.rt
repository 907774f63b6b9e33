//! What a core import is given that is main's memory, an export of main, a function of an adapter,
//! or, by an argument of its module, an item or an export of a whole instance: whether the module
//! may import it, whether it is there, and whether it is what the import asks for.

ghost use Rattle.std.specs.Prelude.{◌≡◌, Ok};
ghost use Rattle.std.specs.Option.{option_copied};
ghost use Rattle.comp_lists.specs.Found.{found};
ghost use Rattle.comp_worlds.specs.Offered.{memory_of_main};
ghost use Rattle.record_faults.specs.Faults.{Gives};
ghost use Rattle.linked_modules.specs.Giving.{importer_of, exports_name, not_offered, memory_matches, memory_given, item_given, export_given, is_function, function_given, of_adapter, adapter_export_given, module_named, of_module, argument_given, role_given, match_given, match_named, type_given, whole_given, matching_given};

use crate::reports::{missing, unfit};
use comp_lists::{Keyed, Text};
use comp_roles::{
    ExternType, Import, ImportInstance, ImportType, LibraryInfo, MainOrAdapter, has_numbers,
};
use comp_worlds::{ValidatedModule, WorldAdapter};
use core_sections::{SectionFault, read_module};
use core_types::{FuncType, MemoryType};
use record_faults::Failure;
use standard_kinds::ExportKind;
use std::alloc::Global;

/// Which module imports something.
#[derive(Clone, Copy)]
pub(crate) enum Importer {
    Main,
    /// An adapter that is no library.
    Adapter,
    Library,
}

/// Which of these an adapter is.
pub(crate) fn importer_of(info: &Option<LibraryInfo>) -> Importer
    ensures { result ≡ importer_of info.now }
{
    match info {
        Some(_) => Importer::Library,
        None => Importer::Adapter,
    }
}

// ---- names that are not offered

/// Whether the module of these bytes exports a name.
fn exports_name(alloc: Global, bytes: &[u8], name: &Text) -> Result<bool, Failure>
    ensures { Gives (λ b. b) result (Ok (exports_name bytes.now name.now)) }
{
    match read_module(alloc, bytes) {
        Ok(core) => {
            let there = core.exports.contains_key(name);
            drop(core);
            Ok(there)
        }
        Err(SectionFault::Memory) => Err(Failure::Memory),
        Err(_) => Ok(false),
    }
}

/// Refuses an import of a name that a module doesn't offer: by its type, where the module exports
/// the name, and else as one of nothing.
fn not_offered(
    alloc: Global,
    source: &ValidatedModule,
    name: &Text,
    from: &str,
    field: &str,
) -> Result<(), Failure>
    ensures { Gives (λ x. x) result (not_offered source.now name.now from.now field.now) }
{
    if exports_name(alloc, source.bytes.as_slice(), name)? {
        unfit(alloc, field)
    } else {
        missing(alloc, from, field)
    }
}

// ---- main's memory

/// The type of main's memory: of the first that it imports, or, where it imports none, of the first that it exports.
fn memory_of_main(main: &ValidatedModule) -> Option<MemoryType>
    ensures { result ≡ memory_of_main main.now }
{
    if let Some(imported) = main.imports.imported_memory() {
        return Some(imported);
    }
    let (_, exported) = main.exports.memory()?;
    Some(exported)
}

/// Whether a memory of this type, if there is one, may be given where one of the other type is imported.
fn memory_matches(required: MemoryType, given: Option<MemoryType>) -> bool
    ensures { result ≡ memory_matches required given }
{
    match given {
        Some(given) => ExternType::Memory(required).is_matched_by(&ExternType::Memory(given)),
        None => true,
    }
}

fn check_memory(
    alloc: Global,
    main: &ValidatedModule,
    field: &str,
    required: MemoryType,
) -> Result<(), Failure>
    ensures { Gives (λ x. x) result (memory_given main.now field.now required) }
{
    if memory_matches(required, memory_of_main(main)) {
        Ok(())
    } else {
        unfit(alloc, field)
    }
}

// ---- exports of main

fn check_item(
    alloc: Global,
    main: &ValidatedModule,
    from: &str,
    field: &str,
    name: &Text,
    kind: ExportKind,
) -> Result<(), Failure>
    ensures { Gives (λ x. x) result (item_given main.now from.now field.now name.now kind) }
{
    match main.offered.get(name) {
        Some(ty) => {
            if ty.kind() == kind {
                Ok(())
            } else {
                unfit(alloc, field)
            }
        }
        None => not_offered(alloc, main, name, from, field),
    }
}

fn check_export(
    alloc: Global,
    importer: Importer,
    main: &ValidatedModule,
    from: &str,
    field: &str,
    name: &Text,
    kind: ExportKind,
) -> Result<(), Failure>
    ensures { Gives (λ x. x) result
        (export_given importer main.now from.now field.now name.now kind) }
{
    match importer {
        Importer::Main => missing(alloc, from, field),
        Importer::Adapter | Importer::Library => check_item(alloc, main, from, field, name, kind),
    }
}

// ---- functions of adapters

/// Whether what is offered is a function of this type, which has numbers alone.
fn is_function(required: &FuncType, offered: &ExternType) -> bool
    ensures { result ≡ is_function required.now offered.now }
{
    match offered {
        ExternType::Func(function) => function == required && has_numbers(required),
        _ => false,
    }
}

fn check_function(
    alloc: Global,
    source: &ValidatedModule,
    from: &str,
    field: &str,
    name: &Text,
    required: &FuncType,
) -> Result<(), Failure>
    ensures { Gives (λ x. x) result
        (function_given source.now from.now field.now name.now required.now) }
{
    match source.offered.get(name) {
        Some(ty) => {
            if is_function(required, ty) {
                Ok(())
            } else {
                unfit(alloc, field)
            }
        }
        None => not_offered(alloc, source, name, from, field),
    }
}

fn check_adapter(
    alloc: Global,
    adapter: Option<&WorldAdapter>,
    from: &str,
    field: &str,
    name: &Text,
    required: &FuncType,
) -> Result<(), Failure>
    ensures { Gives (λ x. x) result
        (of_adapter (option_copied adapter.entry) from.now field.now name.now required.now) }
{
    match adapter {
        Some(adapter) => check_function(alloc, &adapter.info, from, field, name, required),
        None => missing(alloc, from, field),
    }
}

fn check_adapter_export(
    alloc: Global,
    importer: Importer,
    adapter: Option<&WorldAdapter>,
    from: &str,
    field: &str,
    name: &Text,
    required: &FuncType,
) -> Result<(), Failure>
    ensures { Gives (λ x. x) result (adapter_export_given importer (option_copied adapter.entry)
        from.now field.now name.now required.now) }
{
    match importer {
        Importer::Adapter => missing(alloc, from, field),
        Importer::Main | Importer::Library => {
            check_adapter(alloc, adapter, from, field, name, required)
        }
    }
}

// ---- what arguments name

/// Main, or an adapter, if that is there.
fn module_named<'a>(
    main: &'a ValidatedModule,
    adapters: &'a Keyed<Text, WorldAdapter>,
    which: &MainOrAdapter,
) -> Option<&'a ValidatedModule>
    ensures { option_copied result ≡ module_named main.now adapters.now which.now }
{
    match which {
        MainOrAdapter::Main => Some(main),
        MainOrAdapter::Adapter(name) => {
            let adapter = adapters.get(name)?;
            Some(&adapter.info)
        }
    }
}

fn check_named(
    alloc: Global,
    source: Option<&ValidatedModule>,
    from: &str,
    field: &str,
    name: &Text,
    kind: ExportKind,
) -> Result<(), Failure>
    ensures { Gives (λ x. x) result
        (of_module (option_copied source.entry) from.now field.now name.now kind) }
{
    let Some(source) = source else {
        return missing(alloc, from, field);
    };
    check_item(alloc, source, from, field, name, kind)
}

fn check_argument(
    alloc: Global,
    importer: Importer,
    source: Option<&ValidatedModule>,
    from: &str,
    field: &str,
    name: &Text,
    kind: ExportKind,
) -> Result<(), Failure>
    ensures { Gives (λ x. x) result
        (argument_given importer (option_copied source.entry) from.now field.now name.now kind) }
{
    if matches!(importer, Importer::Main) {
        return missing(alloc, from, field);
    }
    check_named(alloc, source, from, field, name, kind)
}

// ---- one import

/// Refuses an import, by its role, that isn't given what the role names.
pub(crate) fn check_role(
    alloc: Global,
    importer: Importer,
    main: &ValidatedModule,
    adapters: &Keyed<Text, WorldAdapter>,
    from: &str,
    field: &str,
    role: &Import,
) -> Result<(), Failure>
    ensures { Gives (λ x. x) result
        (role_given importer main.now adapters.now from.now field.now role.now) }
{
    match role {
        Import::MainModuleMemory(ty) => check_memory(alloc, main, field, *ty),
        Import::MainModuleExport { name, kind } => {
            check_export(alloc, importer, main, from, field, name, *kind)
        }
        Import::AdapterExport { adapter, func, ty } => check_adapter_export(
            alloc,
            importer,
            adapters.get(adapter),
            from,
            field,
            func,
            ty,
        ),
        Import::Item(item) => check_argument(
            alloc,
            importer,
            module_named(main, adapters, &item.which),
            from,
            field,
            &item.name,
            item.kind,
        ),
        _ => Ok(()),
    }
}

/// Refuses an import that doesn't match what a module offers under a name.
fn check_match(
    alloc: Global,
    source: &ValidatedModule,
    import: &ImportType,
    name: &Text,
) -> Result<(), Failure>
    ensures { Gives (λ x. x) result
        (match_given source.now import.now name.now (found name.now source.now.offered)) }
{
    let field = import.field.as_str();
    match source.offered.get(name) {
        Some(ty) => {
            if import.ty.is_matched_by(ty) {
                Ok(())
            } else {
                unfit(alloc, field)
            }
        }
        None => not_offered(alloc, source, name, import.module_name.as_str(), field),
    }
}

/// The same, of a module that may not be there.
fn check_match_named(
    alloc: Global,
    source: Option<&ValidatedModule>,
    import: &ImportType,
    name: &Text,
) -> Result<(), Failure>
    ensures { Gives (λ x. x) result (match_named (option_copied source.entry) import.now name.now) }
{
    match source {
        Some(source) => check_match(alloc, source, import, name),
        None => missing(alloc, import.module_name.as_str(), import.field.as_str()),
    }
}

/// Refuses an import that doesn't match the export of main, or the item, that is its role.
fn check_type(
    alloc: Global,
    main: &ValidatedModule,
    adapters: &Keyed<Text, WorldAdapter>,
    import: &ImportType,
    role: Option<&Import>,
) -> Result<(), Failure>
    ensures { Gives (λ x. x) result
        (type_given main.now adapters.now import.now (option_copied role.entry)) }
{
    match role {
        Some(Import::MainModuleExport { name, .. }) => check_match(alloc, main, import, name),
        Some(Import::Item(item)) => {
            let source = module_named(main, adapters, &item.which);
            check_match_named(alloc, source, import, &item.name)
        }
        _ => Ok(()),
    }
}

/// Refuses an import that doesn't match the export of its name of a module whose whole instance is given.
fn check_whole(
    alloc: Global,
    importer: Importer,
    source: Option<&ValidatedModule>,
    import: &ImportType,
) -> Result<(), Failure>
    ensures { Gives (λ x. x) result (whole_given importer (option_copied source.entry) import.now) }
{
    match importer {
        Importer::Main => missing(alloc, import.module_name.as_str(), import.field.as_str()),
        Importer::Adapter | Importer::Library => {
            check_match_named(alloc, source, import, &import.field)
        }
    }
}

/// Refuses an import that doesn't match what it is given, by what is imported from its module.
pub(crate) fn check_instance(
    alloc: Global,
    importer: Importer,
    main: &ValidatedModule,
    adapters: &Keyed<Text, WorldAdapter>,
    import: &ImportType,
    instance: Option<&ImportInstance>,
) -> Result<(), Failure>
    ensures { Gives (λ x. x) result
        (matching_given importer main.now adapters.now import.now (option_copied instance.entry)) }
{
    match instance {
        Some(ImportInstance::Names(fields)) => {
            check_type(alloc, main, adapters, import, fields.get(&import.field))
        }
        Some(ImportInstance::Whole(which)) => {
            let source = module_named(main, adapters, which);
            check_whole(alloc, importer, source, import)
        }
        None => Ok(()),
    }
}
