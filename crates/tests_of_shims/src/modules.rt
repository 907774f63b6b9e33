//! Modules that are described by words. Each word is a property:
//!
//! - `table:F`: the module imports the function `F` of the interface `i`, which is lowered through a table, with all options;
//! - `bare:F`: the same, and it has no string encoding for it;
//! - `direct:F`, `plain:F`: it imports `F`, which is lowered directly, with all options, or with none;
//! - `again:F`: it imports `F` of `i` once more, from the module `n`;
//! - `root:F`: it imports the function `F` of the root, which is lowered through a table;
//! - `adapted:F`, `referring:F`: it imports the function `F` that the adapter `ad` exports, which takes a number, or a reference;
//! - `dtor:E`, `realloc:E`, `imports:E`, `hook:E`: its export `E` is the destructor of the resource `res`, the general realloc,
//!   that of imports, or the task hook.

use bitflags::Flags;
use comp_lists::{Keyed, Seq, SharedBytes, Text};
use comp_options::RequiredOptions;
use comp_roles::{
    Export, ExportMap, FunctionKey, Import, ImportInstance, ImportMap, ModuleMetadata,
};
use comp_worlds::{Lowering, LoweringKey, ValidatedModule};
use core_types::{FuncType, RefType, ValType};
use standard_kinds::StringEncoding;
use std::alloc::{AllocError, Global};
use wit_data::{AbiVariant, InterfaceId, TypeId, WasmSignature, WasmType, WorldKey};

type Fields = Keyed<Text, Import>;

type Encodings = Keyed<FunctionKey, StringEncoding>;

type Exports = Keyed<Text, Export>;

pub(crate) type Lowerings = Keyed<LoweringKey, Lowering>;

/// A module: its imports from `i` and from `n`, its string encodings and its exports.
#[derive(Drop)]
pub(crate) struct ModuleDraft {
    fields: Fields,
    others: Fields,
    encodings: Encodings,
    exports: Exports,
}

/// How the functions of the interface and of the root are lowered.
#[derive(Drop)]
pub(crate) struct Lowered {
    pub interface: Lowerings,
    pub root: Lowerings,
}

pub(crate) const fn interface() -> InterfaceId {
    InterfaceId { index: 0 }
}

fn key() -> WorldKey {
    WorldKey::Interface(interface())
}

fn root_key(alloc: Global, name: &str) -> Result<WorldKey, AllocError> {
    Ok(WorldKey::Name(Text::from_str(alloc, name)?))
}

fn all_options() -> RequiredOptions {
    let mut options = RequiredOptions::MEMORY;
    options.insert(RequiredOptions::REALLOC);
    options.insert(RequiredOptions::STRING_ENCODING);
    options
}

/// A core signature of two parameters.
fn pair(alloc: Global) -> Result<WasmSignature, AllocError> {
    let params = Vec::from_array(alloc, [WasmType::I32, WasmType::I32])?;
    Ok(WasmSignature {
        params: Seq::from_vec(params),
        results: Seq::new(alloc),
        indirect_params: false,
        retptr: false,
    })
}

fn function_at(alloc: Global, name: &str) -> Result<LoweringKey, AllocError> {
    Ok(LoweringKey {
        name: Text::from_str(alloc, name)?,
        abi: AbiVariant::GuestImport,
    })
}

fn direct(options: RequiredOptions) -> Lowering {
    Lowering::Direct { options }
}

fn indirect(sig: WasmSignature) -> Lowering {
    Lowering::Indirect {
        sig,
        options: all_options(),
    }
}

fn add_direct(
    alloc: Global,
    lowerings: &mut Lowerings,
    name: &str,
    options: RequiredOptions,
) -> Result<(), AllocError> {
    let function = function_at(alloc, name)?;
    lowerings.insert_if_absent(function, direct(options))
}

fn add_indirect(alloc: Global, lowerings: &mut Lowerings, name: &str) -> Result<(), AllocError> {
    let sig = pair(alloc)?;
    let function = function_at(alloc, name)?;
    lowerings.insert_if_absent(function, indirect(sig))
}

fn interface_role(name: Text) -> Import {
    Import::InterfaceFunc(key(), interface(), name, AbiVariant::GuestImport)
}

fn root_role(key: WorldKey, name: Text) -> Import {
    Import::WorldFunc(key, name, AbiVariant::GuestImport)
}

fn add_function(alloc: Global, fields: &mut Fields, name: &str) -> Result<(), AllocError> {
    let field = Text::from_str(alloc, name)?;
    let function = Text::from_str(alloc, name)?;
    fields.insert_if_absent(field, interface_role(function))
}

fn add_root_function(alloc: Global, fields: &mut Fields, name: &str) -> Result<(), AllocError> {
    let field = Text::from_str(alloc, name)?;
    let function = Text::from_str(alloc, name)?;
    let key = root_key(alloc, name)?;
    fields.insert_if_absent(field, root_role(key, function))
}

/// The type of a function of one parameter.
fn taking(alloc: Global, param: ValType) -> Result<FuncType, AllocError> {
    let params = Vec::from_array(alloc, [param])?;
    Ok(FuncType {
        params: Seq::from_vec(params),
        results: Seq::new(alloc),
    })
}

fn adapted_role(adapter: Text, func: Text, ty: FuncType) -> Import {
    Import::AdapterExport { adapter, func, ty }
}

fn add_adapted(
    alloc: Global,
    fields: &mut Fields,
    name: &str,
    param: ValType,
) -> Result<(), AllocError> {
    let field = Text::from_str(alloc, name)?;
    let func = Text::from_str(alloc, name)?;
    let adapter = Text::from_str(alloc, "ad")?;
    let ty = taking(alloc, param)?;
    fields.insert_if_absent(field, adapted_role(adapter, func, ty))
}

fn add_encoding(
    alloc: Global,
    encodings: &mut Encodings,
    key: WorldKey,
    name: &str,
) -> Result<(), AllocError> {
    let function = Text::from_str(alloc, name)?;
    encodings.insert_if_absent(FunctionKey { key, function }, StringEncoding::UTF8)
}

fn add_export(
    alloc: Global,
    exports: &mut Exports,
    name: &str,
    role: Export,
) -> Result<(), AllocError> {
    let name = Text::from_str(alloc, name)?;
    exports.insert_if_absent(name, role)
}

/// The role of an export by its word.
fn role_of(kind: &str) -> Option<Export> {
    match kind {
        "dtor" => Some(Export::ResourceDtor(TypeId { index: 0 })),
        "realloc" => Some(Export::GeneralPurposeRealloc),
        "imports" => Some(Export::GeneralPurposeImportRealloc),
        "hook" => Some(Export::WasmTaskHook),
        _ => None,
    }
}

impl ModuleDraft {
    pub(crate) fn new(alloc: Global) -> ModuleDraft {
        ModuleDraft {
            fields: Keyed::new(alloc),
            others: Keyed::new(alloc),
            encodings: Keyed::new(alloc),
            exports: Keyed::new(alloc),
        }
    }

    /// Adds an import of a function of the interface, with a string encoding.
    fn add_encoded(&mut self, alloc: Global, name: &str) -> Result<(), AllocError> {
        add_encoding(alloc, &mut self.encodings, key(), name)?;
        add_function(alloc, &mut self.fields, name)
    }

    /// Adds an import of a function of the root, with a string encoding.
    fn add_root(&mut self, alloc: Global, name: &str) -> Result<(), AllocError> {
        let key = root_key(alloc, name)?;
        add_encoding(alloc, &mut self.encodings, key, name)?;
        add_root_function(alloc, &mut self.fields, name)
    }

    /// Adds the import or the export of a word.
    pub(crate) fn add(&mut self, alloc: Global, kind: &str, name: &str) -> Result<(), AllocError> {
        match kind {
            "table" => self.add_encoded(alloc, name),
            "bare" | "direct" | "plain" => add_function(alloc, &mut self.fields, name),
            "again" => add_function(alloc, &mut self.others, name),
            "root" => self.add_root(alloc, name),
            "adapted" => add_adapted(alloc, &mut self.fields, name, ValType::I64),
            "referring" => {
                add_adapted(
                    alloc,
                    &mut self.fields,
                    name,
                    ValType::Ref(RefType::FuncRef),
                )
            }
            _ => match role_of(kind) {
                Some(role) => add_export(alloc, &mut self.exports, name, role),
                None => Ok(()),
            },
        }
    }
}

impl Lowered {
    pub(crate) fn new(alloc: Global) -> Lowered {
        Lowered {
            interface: Keyed::new(alloc),
            root: Keyed::new(alloc),
        }
    }

    /// Adds the lowering of a word.
    pub(crate) fn add(&mut self, alloc: Global, kind: &str, name: &str) -> Result<(), AllocError> {
        match kind {
            "table" | "bare" => add_indirect(alloc, &mut self.interface, name),
            "root" => add_indirect(alloc, &mut self.root, name),
            "direct" => add_direct(alloc, &mut self.interface, name, all_options()),
            "plain" => add_direct(alloc, &mut self.interface, name, RequiredOptions::empty()),
            _ => Ok(()),
        }
    }
}

fn add_group(
    alloc: Global,
    modules: &mut Keyed<Text, ImportInstance>,
    name: &str,
    fields: Fields,
) -> Result<(), AllocError> {
    let name = Text::from_str(alloc, name)?;
    modules.insert_if_absent(name, ImportInstance::Names(fields))
}

/// The imports from `i` and from `n`.
fn imports(alloc: Global, fields: Fields, others: Fields) -> Result<ImportMap, AllocError> {
    let mut modules = Keyed::new(alloc);
    add_group(alloc, &mut modules, "i", fields)?;
    add_group(alloc, &mut modules, "n", others)?;
    Ok(ImportMap { modules })
}

fn module_of(
    alloc: Global,
    bytes: SharedBytes,
    imports: ImportMap,
    encodings: Encodings,
    exports: Exports,
) -> ValidatedModule {
    ValidatedModule {
        bytes,
        imports,
        exports: ExportMap { exports },
        imported: Seq::new(alloc),
        offered: Keyed::new(alloc),
        metadata: ModuleMetadata {
            import_encodings: encodings,
            export_encodings: Keyed::new(alloc),
        },
    }
}

/// The module of a draft.
pub(crate) fn validated(alloc: Global, draft: ModuleDraft) -> Result<ValidatedModule, AllocError> {
    let ModuleDraft {
        fields,
        others,
        encodings,
        exports,
    } = draft;
    let bytes = SharedBytes::from_vec(Vec::new(alloc))?;
    let imports = imports(alloc, fields, others)?;
    Ok(module_of(alloc, bytes, imports, encodings, exports))
}
