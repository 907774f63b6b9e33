//! Wrappers, start functions, a memory and a thread-local cell.

use crate::sections::{
    MEMORY, NUMBER, changing, code, exports, finish, functions, globals, imports,
    memory as one_memory, put, put_body, types,
};
use byte_encoding::BuildFault;
use core_bytes::{Code, ConstExpr, DataSection, EntityType, ImportSection, Module, Section};
use core_runs::{
    Bracketed, StartStep, TaskHook, start_body, tls_get_body, tls_set_body, wrapper_body,
};
use core_types::ValType;
use standard_kinds::ExportKind;
use std::alloc::{AllocError, Global};

const ONE: [ValType; 1] = [ValType::I32];

const THREE: [ValType; 3] = [ValType::I32, ValType::I32, ValType::I32];

/// Two functions, which are exported as wrappers are.
fn wrapper_exports(alloc: Global) -> Result<Section, AllocError> {
    exports(
        alloc,
        &[
            ("hook0", ExportKind::Func, 3),
            ("hook1", ExportKind::Func, 4),
        ],
    )
}

/// The bodies of the wrappers of functions 1 and 2; the hook is function 0.
fn wrapper_bodies(
    alloc: Global,
    entry: Bracketed,
    other: Bracketed,
    params: u32,
) -> Result<Section, AllocError> {
    let mut code = Code::new(alloc);
    put_body(&mut code, wrapper_body(alloc, 0, entry.bracket(), 0, 1))?;
    put_body(
        &mut code,
        wrapper_body(alloc, params, other.bracket(), 0, 2),
    )?;
    Ok(Section::Code(code))
}

/// The hook, an entry, and the function that belongs to the entry.
fn wrapper_imports(alloc: Global, other: &str, other_type: u32) -> Result<Section, AllocError> {
    let mut section = ImportSection::new(alloc);
    section.import("main", "h", EntityType::Function(0))?;
    section.import("main", "g", EntityType::Function(1))?;
    section.import("main", other, EntityType::Function(other_type))?;
    Ok(Section::Imports(section))
}

/// The sections of wrappers of an entry that gives a code, and of its callback.
fn put_code_wrappers(module: &mut Module, alloc: Global) -> Result<(), AllocError> {
    let entry = Bracketed::AsyncEntryWithCallback;
    put(
        module,
        types(alloc, &[(&ONE, &[]), (&[], &ONE), (&THREE, &ONE)]),
    )?;
    put(module, wrapper_imports(alloc, "cb", 2))?;
    put(module, functions(alloc, &[1, 2]))?;
    put(module, wrapper_exports(alloc))?;
    put(module, wrapper_bodies(alloc, entry, Bracketed::Callback, 3))
}

/// Wrappers of an entry that gives a code, and of its callback.
pub(crate) fn code_wrappers(alloc: Global) -> Result<Vec<u8>, BuildFault> {
    let mut module = Module::new(alloc);
    let put = put_code_wrappers(&mut module, alloc);
    finish(alloc, &module, put)
}

/// The sections of wrappers of an entry, and of its post-return.
fn put_sync_wrappers(module: &mut Module, alloc: Global) -> Result<(), AllocError> {
    let entry = Bracketed::SyncEntryWithPostReturn;
    put(module, types(alloc, &[(&ONE, &[]), (&[], &ONE)]))?;
    put(module, wrapper_imports(alloc, "post", 0))?;
    put(module, functions(alloc, &[1, 0]))?;
    put(module, wrapper_exports(alloc))?;
    put(
        module,
        wrapper_bodies(alloc, entry, Bracketed::PostReturn, 1),
    )
}

/// Wrappers of an entry, and of its post-return.
pub(crate) fn sync_wrappers(alloc: Global) -> Result<Vec<u8>, BuildFault> {
    let mut module = Module::new(alloc);
    let put = put_sync_wrappers(&mut module, alloc);
    finish(alloc, &module, put)
}

/// The sections of two types and one import.
fn put_one_import(module: &mut Module, alloc: Global) -> Result<(), AllocError> {
    put(module, types(alloc, &[(&[], &[]), (&ONE, &[])]))?;
    put(
        module,
        imports(alloc, &[("main", "f", EntityType::Function(0))]),
    )
}

/// Two types, and one import.
pub(crate) fn one_import(alloc: Global) -> Result<Vec<u8>, BuildFault> {
    let mut module = Module::new(alloc);
    let put = put_one_import(&mut module, alloc);
    finish(alloc, &module, put)
}

/// The sections of a start function that is imported.
fn put_imported_start(module: &mut Module, alloc: Global) -> Result<(), AllocError> {
    put(module, types(alloc, &[(&[], &[])]))?;
    put(
        module,
        imports(alloc, &[("main", "_initialize", EntityType::Function(0))]),
    )?;
    put(module, Ok(Section::Start(0)))
}

/// A start function that is imported.
pub(crate) fn imported_start(alloc: Global) -> Result<Vec<u8>, BuildFault> {
    let mut module = Module::new(alloc);
    let put = put_imported_start(&mut module, alloc);
    finish(alloc, &module, put)
}

/// A body: a function between two calls of the hook.
fn between_hooks(alloc: Global) -> Result<Section, AllocError> {
    let steps = [
        StartStep::Hook {
            hook: 1,
            moment: TaskHook::InitializeStart,
        },
        StartStep::Thunk(0),
        StartStep::Hook {
            hook: 1,
            moment: TaskHook::InitializeFinish,
        },
    ];
    code(alloc, start_body(alloc, &[], &steps))
}

/// The sections of a start function that calls a function between two calls of the hook.
fn put_hooks_around(module: &mut Module, alloc: Global) -> Result<(), AllocError> {
    let called = [
        ("main", "i", EntityType::Function(0)),
        ("main", "h", EntityType::Function(1)),
    ];
    put(module, types(alloc, &[(&[], &[]), (&ONE, &[])]))?;
    put(module, imports(alloc, &called))?;
    put(module, functions(alloc, &[0]))?;
    put(module, Ok(Section::Start(2)))?;
    put(module, between_hooks(alloc))
}

/// A start function: a function between two calls of the hook.
pub(crate) fn hooks_around(alloc: Global) -> Result<Vec<u8>, BuildFault> {
    let mut module = Module::new(alloc);
    let put = put_hooks_around(&mut module, alloc);
    finish(alloc, &module, put)
}

/// Two bytes for a memory, at 16.
fn data(alloc: Global) -> Result<Section, AllocError> {
    let mut section = DataSection::new(alloc);
    section.active(16, b"hi")?;
    Ok(Section::Data(section))
}

/// The sections of bytes for an imported memory, and of a start function that is imported.
fn put_data_and_call(module: &mut Module, alloc: Global) -> Result<(), AllocError> {
    let used = [
        ("main", "memory", EntityType::Memory(MEMORY)),
        ("main", "c", EntityType::Function(0)),
    ];
    put(module, types(alloc, &[(&[], &[])]))?;
    put(module, imports(alloc, &used))?;
    put(module, Ok(Section::Start(0)))?;
    put(module, data(alloc))
}

/// Bytes for an imported memory, and a start function that is imported.
pub(crate) fn data_and_call(alloc: Global) -> Result<Vec<u8>, BuildFault> {
    let mut module = Module::new(alloc);
    let put = put_data_and_call(&mut module, alloc);
    finish(alloc, &module, put)
}

/// A body that stores the sum of two globals at 64.
fn stored_sum(alloc: Global) -> Result<Section, AllocError> {
    let steps = [StartStep::AddressToMemory {
        base: 0,
        offset: 1,
        address: 64,
    }];
    code(alloc, start_body(alloc, &[], &steps))
}

/// The sections of a start function that stores a sum.
fn put_address(module: &mut Module, alloc: Global) -> Result<(), AllocError> {
    let used = [
        ("main", "b", NUMBER),
        ("main", "o", NUMBER),
        ("main", "memory", EntityType::Memory(MEMORY)),
    ];
    put(module, types(alloc, &[(&[], &[])]))?;
    put(module, imports(alloc, &used))?;
    put(module, functions(alloc, &[0]))?;
    put(module, Ok(Section::Start(0)))?;
    put(module, stored_sum(alloc))
}

/// A start function that stores the sum of two globals at 64.
pub(crate) fn address(alloc: Global) -> Result<Vec<u8>, BuildFault> {
    let mut module = Module::new(alloc);
    let put = put_address(&mut module, alloc);
    finish(alloc, &module, put)
}

/// The sections of a memory alone.
fn put_memory(module: &mut Module, alloc: Global) -> Result<(), AllocError> {
    put(module, types(alloc, &[]))?;
    put(module, one_memory(alloc))?;
    put(
        module,
        exports(alloc, &[("$memory", ExportKind::Memory, 0)]),
    )
}

/// A memory alone, and no type.
pub(crate) fn memory(alloc: Global) -> Result<Vec<u8>, BuildFault> {
    let mut module = Module::new(alloc);
    let put = put_memory(&mut module, alloc);
    finish(alloc, &module, put)
}

/// The bodies of the functions of a cell, which is global 0.
fn cell_bodies(alloc: Global) -> Result<Section, AllocError> {
    let mut code = Code::new(alloc);
    put_body(&mut code, tls_get_body(alloc, 0))?;
    put_body(&mut code, tls_set_body(alloc, 0))?;
    Ok(Section::Code(code))
}

/// The sections of a thread-local cell.
fn put_cell(module: &mut Module, alloc: Global) -> Result<(), AllocError> {
    let called = [
        ("$get-tls-base", ExportKind::Func, 0),
        ("$set-tls-base", ExportKind::Func, 1),
    ];
    put(module, types(alloc, &[(&[], &ONE), (&ONE, &[])]))?;
    put(module, functions(alloc, &[0, 1]))?;
    put(
        module,
        globals(alloc, 1, changing(ValType::I32, ConstExpr::I32(0))),
    )?;
    put(module, exports(alloc, &called))?;
    put(module, cell_bodies(alloc))
}

/// A thread-local cell.
pub(crate) fn cell(alloc: Global) -> Result<Vec<u8>, BuildFault> {
    let mut module = Module::new(alloc);
    let put = put_cell(&mut module, alloc);
    finish(alloc, &module, put)
}
