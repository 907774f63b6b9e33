//! The roles of the imports of a core module.

ghost use Rattle.std.specs.Prelude.{◌≡◌, ◌++◌, map, IfOk, OnOk};
ghost use Rattle.std.specs.List.{flat_map};
ghost use Rattle.comp_roles.specs.CoreImports.{imports_from};
ghost use Rattle.comp_roles.specs.Lookups.{memory_of_fields, imported_memory};
ghost use Rattle.comp_roles.specs.Borrowed.{core_import, field_imports};

use crate::libraries::{Item, MainOrAdapter};
use crate::payloads::PayloadInfo;
use comp_lists::{Keyed, Text};
use core_types::{FuncType, MemoryType, ValType};
use standard_kinds::{ExportKind, StringEncoding};
use std::alloc::{AllocError, Global};
use wit_data::{AbiVariant, Function, InterfaceId, TypeId, WorldKey};

/// The role of an import of a core module. Where a role is in an interface, it has the interface's key and
/// index; at the root of the world there is no interface.
pub enum Import {
    /// A function that the world imports at its root: its key, its name, and how it is called.
    WorldFunc(WorldKey, Text, AbiVariant),
    /// A function of an imported interface.
    InterfaceFunc(WorldKey, InterfaceId, Text, AbiVariant),
    /// `resource.drop` of an imported resource.
    ImportedResourceDrop(WorldKey, Option<InterfaceId>, TypeId),
    /// `resource.drop`, `resource.rep` and `resource.new` of an exported resource.
    ExportedResourceDrop(WorldKey, TypeId),
    ExportedResourceRep(WorldKey, TypeId),
    ExportedResourceNew(WorldKey, TypeId),
    /// `task.return` of an exported asynchronous function.
    ExportedTaskReturn(WorldKey, Option<InterfaceId>, Function),
    ExportedTaskCancel,
    BackpressureInc,
    BackpressureDec,
    WaitableSetNew,
    WaitableSetWait,
    WaitableSetPoll,
    WaitableSetDrop,
    WaitableJoin,
    SubtaskDrop,
    SubtaskCancel {
        async_: bool,
    },
    StreamNew(PayloadInfo),
    StreamRead {
        info: PayloadInfo,
        async_: bool,
    },
    StreamWrite {
        info: PayloadInfo,
        async_: bool,
    },
    StreamCancelRead {
        info: PayloadInfo,
        async_: bool,
    },
    StreamCancelWrite {
        info: PayloadInfo,
        async_: bool,
    },
    StreamDropReadable(PayloadInfo),
    StreamDropWritable(PayloadInfo),
    FutureNew(PayloadInfo),
    FutureRead {
        info: PayloadInfo,
        async_: bool,
    },
    FutureWrite {
        info: PayloadInfo,
        async_: bool,
    },
    FutureCancelRead {
        info: PayloadInfo,
        async_: bool,
    },
    FutureCancelWrite {
        info: PayloadInfo,
        async_: bool,
    },
    FutureDropReadable(PayloadInfo),
    FutureDropWritable(PayloadInfo),
    ErrorContextNew {
        encoding: StringEncoding,
    },
    ErrorContextDebugMessage {
        encoding: StringEncoding,
    },
    ErrorContextDrop,
    /// `context.get` and `context.set` of a slot.
    ContextGet {
        ty: ValType,
        slot: u32,
    },
    ContextSet {
        ty: ValType,
        slot: u32,
    },
    /// The base address of the thread-local data of the running task.
    TlsBaseGet {
        ty: ValType,
    },
    TlsBaseSet {
        ty: ValType,
    },
    /// The memory of the main module.
    MainModuleMemory(MemoryType),
    /// Any export of the main module.
    MainModuleExport {
        name: Text,
        kind: ExportKind,
    },
    /// A function that an adapter exports.
    AdapterExport {
        adapter: Text,
        func: Text,
        ty: FuncType,
    },
    /// An export of another module, by the arguments of a library.
    Item(Item),
}

impl Drop for Import {
    fn drop(self) {
        match self {
            Import::WorldFunc(_, _, _) => {}
            Import::InterfaceFunc(_, _, _, _) => {}
            Import::ImportedResourceDrop(_, _, _) => {}
            Import::ExportedResourceDrop(_, _) => {}
            Import::ExportedResourceRep(_, _) => {}
            Import::ExportedResourceNew(_, _) => {}
            Import::ExportedTaskReturn(_, _, _) => {}
            Import::ExportedTaskCancel => {}
            Import::BackpressureInc => {}
            Import::BackpressureDec => {}
            Import::WaitableSetNew => {}
            Import::WaitableSetWait => {}
            Import::WaitableSetPoll => {}
            Import::WaitableSetDrop => {}
            Import::WaitableJoin => {}
            Import::SubtaskDrop => {}
            Import::SubtaskCancel { async_: _ } => {}
            Import::StreamNew(_) => {}
            Import::StreamRead { info: _, async_: _ } => {}
            Import::StreamWrite { info: _, async_: _ } => {}
            Import::StreamCancelRead { info: _, async_: _ } => {}
            Import::StreamCancelWrite { info: _, async_: _ } => {}
            Import::StreamDropReadable(_) => {}
            Import::StreamDropWritable(_) => {}
            Import::FutureNew(_) => {}
            Import::FutureRead { info: _, async_: _ } => {}
            Import::FutureWrite { info: _, async_: _ } => {}
            Import::FutureCancelRead { info: _, async_: _ } => {}
            Import::FutureCancelWrite { info: _, async_: _ } => {}
            Import::FutureDropReadable(_) => {}
            Import::FutureDropWritable(_) => {}
            Import::ErrorContextNew { encoding: _ } => {}
            Import::ErrorContextDebugMessage { encoding: _ } => {}
            Import::ErrorContextDrop => {}
            Import::ContextGet { ty: _, slot: _ } => {}
            Import::ContextSet { ty: _, slot: _ } => {}
            Import::TlsBaseGet { ty: _ } => {}
            Import::TlsBaseSet { ty: _ } => {}
            Import::MainModuleMemory(_) => {}
            Import::MainModuleExport { name: _, kind: _ } => {}
            Import::AdapterExport {
                adapter: _,
                func: _,
                ty: _,
            } => {}
            Import::Item(_) => {}
        }
    }
}

/// The roles of the imports from one module.
#[derive(Drop)]
pub enum ImportInstance {
    /// Each field by its name, in the order of first mention.
    Names(Keyed<Text, Import>),
    /// All fields are exports of this module.
    Whole(MainOrAdapter),
}

/// The roles of the imports of a core module: by module, in the order of first mention.
#[derive(Drop)]
pub struct ImportMap {
    pub modules: Keyed<Text, ImportInstance>,
}

/// An import by its names: the module and the field there, with its role.
#[derive(Clone, Copy)]
pub struct NamedImport<'a> {
    pub from: &'a str,
    pub field: &'a str,
    pub role: &'a Import,
}

impl ImportMap {
    /// The imports whose fields are listed one by one, module by module, in order. The only error is
    /// out of memory.
    pub fn imports(&self, alloc: Global) -> Result<Vec<NamedImport<'_>>, AllocError>
        ensures { IfOk result
            (λ list. map core_import list.items ≡ flat_map imports_from self.now.modules) }
    {
        let mut list = Vec::new(alloc);
        self.add_imports(&mut list)?;
        Ok(list)
    }

    /// Adds the imports whose fields are listed one by one to a list, module by module, in order. The only
    /// error is out of memory.
    #[tactic(auto, using(crate::proofs::Walking::item_step))]
    pub fn add_imports<'a>(&'a self, list: &mut Vec<NamedImport<'a>>) -> Result<(), AllocError>
        ensures { OnOk result (map core_import list.new.items
            ≡ map core_import list.old.items ++ flat_map imports_from self.now.modules) }
    {
        for (from, instance) in self.modules.iter() {
            add_group(list, from.as_str(), instance)?;
        }
        Ok(())
    }

    /// The type in which the memory of main is imported: in the first such import, where there are
    /// several.
    pub fn imported_memory(&self) -> Option<MemoryType>
        ensures { result ≡ imported_memory self.now.modules }
    {
        for (_, instance) in self.modules.iter() {
            if let ImportInstance::Names(fields) = instance {
                if let Some(ty) = memory_in(fields) {
                    return Some(ty);
                }
            }
        }
        None
    }
}

/// The type of main's memory in the first import of it from one module.
fn memory_in(fields: &Keyed<Text, Import>) -> Option<MemoryType>
    ensures { result ≡ memory_of_fields fields.now }
{
    for (_, import) in fields.iter() {
        if let Import::MainModuleMemory(ty) = import {
            return Some(*ty);
        }
    }
    None
}

/// Adds the imports from one module.
fn add_fields<'a>(
    list: &mut Vec<NamedImport<'a>>,
    from: &'a str,
    fields: &'a Keyed<Text, Import>,
) -> Result<(), AllocError>
    ensures { OnOk result (map core_import list.new.items
        ≡ map core_import list.old.items ++ field_imports from.now fields.now) }
{
    for (field, role) in fields.iter() {
        let field = field.as_str();
        list.push(NamedImport { from, field, role })?;
    }
    Ok(())
}

/// Adds the imports from one module, if they are listed one by one.
fn add_group<'a>(
    list: &mut Vec<NamedImport<'a>>,
    from: &'a str,
    instance: &'a ImportInstance,
) -> Result<(), AllocError>
    ensures { OnOk result (map core_import list.new.items
        ≡ map core_import list.old.items ++ imports_from (from.now, instance.now)) }
{
    match instance {
        ImportInstance::Names(fields) => add_fields(list, from, fields),
        ImportInstance::Whole(_) => Ok(()),
    }
}
