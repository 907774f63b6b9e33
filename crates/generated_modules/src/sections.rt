//! Sections of a few entries.

use byte_encoding::BuildFault;
use core_bytes::{
    Body, Code, ConstExpr, DefinedGlobal, ElementSection, ElementSegment, EntityType,
    ExportSection, FunctionSection, GlobalSection, ImportSection, MemorySection, Module, Section,
    TableSection, TypeSection,
};
use core_types::{GlobalType, MemoryType, TableType, ValType};
use standard_kinds::ExportKind;
use std::alloc::{AllocError, Global};

/// A memory of one page at least.
pub(crate) const MEMORY: MemoryType = MemoryType {
    minimum: 1,
    maximum: None,
};

/// Two numbers.
pub(crate) const PAIR: [ValType; 2] = [ValType::I32, ValType::I32];

/// A number that doesn't change.
pub(crate) const NUMBER: EntityType = EntityType::Global(GlobalType {
    val_type: ValType::I32,
    mutable: false,
});

/// The types of functions, by their parameters and results.
pub(crate) fn types(
    alloc: Global,
    all: &[(&[ValType], &[ValType])],
) -> Result<Section, AllocError> {
    let mut section = TypeSection::new(alloc);
    for (params, results) in all {
        section.function(params, results)?;
    }
    Ok(Section::Types(section))
}

/// Imports, each by its two names.
pub(crate) fn imports(
    alloc: Global,
    all: &[(&str, &str, EntityType)],
) -> Result<Section, AllocError> {
    let mut section = ImportSection::new(alloc);
    for (module_name, field, entity) in all {
        section.import(module_name, field, *entity)?;
    }
    Ok(Section::Imports(section))
}

/// Functions of these types.
pub(crate) fn functions(alloc: Global, all: &[u32]) -> Result<Section, AllocError> {
    let mut section = FunctionSection::new(alloc);
    for type_index in all {
        section.function(*type_index)?;
    }
    Ok(Section::Functions(section))
}

/// So many functions of type 0.
pub(crate) fn functions_of_one_type(alloc: Global, count: usize) -> Result<Section, AllocError> {
    let mut section = FunctionSection::new(alloc);
    for _index in 0..count {
        section.function(0)?;
    }
    Ok(Section::Functions(section))
}

/// One table.
pub(crate) fn table(alloc: Global, table_type: TableType) -> Result<Section, AllocError> {
    let mut section = TableSection::new(alloc);
    section.table(table_type)?;
    Ok(Section::Tables(section))
}

/// One memory.
pub(crate) fn memory(alloc: Global) -> Result<Section, AllocError> {
    let mut section = MemorySection::new(alloc);
    section.memory(MEMORY)?;
    Ok(Section::Memories(section))
}

/// So many globals, all alike.
pub(crate) fn globals(
    alloc: Global,
    count: usize,
    global: DefinedGlobal,
) -> Result<Section, AllocError> {
    let mut section = GlobalSection::new(alloc);
    for _index in 0..count {
        section.global(global.global_type, global.init)?;
    }
    Ok(Section::Globals(section))
}

/// Exports of items by their indices.
pub(crate) fn exports(
    alloc: Global,
    all: &[(&str, ExportKind, u32)],
) -> Result<Section, AllocError> {
    let mut section = ExportSection::new(alloc);
    for (name, kind, index) in all {
        section.export(name, *kind, *index)?;
    }
    Ok(Section::Exports(section))
}

/// One element segment, of a table or declared.
pub(crate) fn element(alloc: Global, segment: &ElementSegment) -> Result<Section, AllocError> {
    let mut section = ElementSection::new(alloc);
    match segment {
        ElementSegment::Active {
            table,
            offset,
            functions,
        } => section.active(*table, *offset, functions.as_slice())?,
        ElementSegment::Declared(functions) => section.declared(functions.as_slice())?,
    }
    Ok(Section::Elements(section))
}

/// One body more.
pub(crate) fn put_body(code: &mut Code, body: Result<Body, AllocError>) -> Result<(), AllocError> {
    let body = body?;
    code.body(body.locals.as_slice(), body.instructions.as_slice())
}

/// One body.
pub(crate) fn code(alloc: Global, body: Result<Body, AllocError>) -> Result<Section, AllocError> {
    let mut code = Code::new(alloc);
    put_body(&mut code, body)?;
    Ok(Section::Code(code))
}

/// One section more.
pub(crate) fn put(
    module: &mut Module,
    section: Result<Section, AllocError>,
) -> Result<(), AllocError> {
    module.section(section?)
}

/// The bytes of a module, once its sections are there.
pub(crate) fn finish(
    alloc: Global,
    module: &Module,
    put: Result<(), AllocError>,
) -> Result<Vec<u8>, BuildFault> {
    put?;
    module.bytes(alloc)
}

/// A global that changes, and is this at first.
pub(crate) fn changing(val_type: ValType, init: ConstExpr) -> DefinedGlobal {
    DefinedGlobal {
        global_type: GlobalType {
            val_type,
            mutable: true,
        },
        init,
    }
}
