//! Sections, and what is appended to them.
//!
//! Core standard, binary format: modules; appendix, custom sections: name section.

ghost use Rattle.std.specs.Prelude.{◌≡◌, [], ◌∷◌, ◌++◌, OnOk, OnErr};
ghost use Rattle.core_bytes.specs.declared.entity.ConstExpr.TheVariants as constants;
ghost use Rattle.core_bytes.specs.declared.entry.ElementSegment.TheVariants as segments;

use crate::code::{Body, Instruction, LocalRun};
use crate::entity::{ConstExpr, EntityType};
use crate::entries::Entries;
use crate::entry::{DataSegment, DefinedGlobal, ElementSegment, Export, Import, Naming};
use comp_lists::{Seq, Text};
use core_types::{FuncType, GlobalType, MemoryType, TableType, ValType};
use standard_kinds::ExportKind;
use std::alloc::AllocError;

/// The types of functions.
pub type TypeSection = Entries<FuncType>;

/// What a module imports.
pub type ImportSection = Entries<Import>;

/// The types of the functions that a module defines, by their indices.
pub type FunctionSection = Entries<u32>;

/// The tables that a module defines.
pub type TableSection = Entries<TableType>;

/// The memories that a module defines.
pub type MemorySection = Entries<MemoryType>;

/// The globals that a module defines.
pub type GlobalSection = Entries<DefinedGlobal>;

/// What a module exports.
pub type ExportSection = Entries<Export>;

/// The element segments.
pub type ElementSection = Entries<ElementSegment>;

/// The bodies of the functions that a module defines.
pub type Code = Entries<Body>;

/// The data segments.
pub type DataSection = Entries<DataSegment>;

/// Debug names of items of one kind.
pub type NameMap = Entries<Naming>;

/// The debug names of a module: its own, and those of functions and of globals where they are given.
#[derive(Drop, PartialEq, Eq)]
pub struct ModuleNames {
    pub module_name: Text,
    pub functions: Option<NameMap>,
    pub globals: Option<NameMap>,
}

/// A section. `Start` holds the index of the start function.
#[derive(PartialEq, Eq)]
pub enum Section {
    Types(TypeSection),
    Imports(ImportSection),
    Functions(FunctionSection),
    Tables(TableSection),
    Memories(MemorySection),
    Globals(GlobalSection),
    Exports(ExportSection),
    Start(u32),
    Elements(ElementSection),
    Code(Code),
    Data(DataSection),
    Names(ModuleNames),
}

impl Drop for Section {
    fn drop(self) {
        match self {
            Section::Types(_) => {}
            Section::Imports(_) => {}
            Section::Functions(_) => {}
            Section::Tables(_) => {}
            Section::Memories(_) => {}
            Section::Globals(_) => {}
            Section::Exports(_) => {}
            Section::Start(_) => {}
            Section::Elements(_) => {}
            Section::Code(_) => {}
            Section::Data(_) => {}
            Section::Names(_) => {}
        }
    }
}

impl Entries<FuncType> {
    /// Appends the type of a function. Where memory is refused, the section is as it was.
    pub fn function(&mut self, params: &[ValType], results: &[ValType]) -> Result<(), AllocError>
        ensures ok { OnOk result
            (self.new ≡ self.old ++ record { params = params.now; results = results.now } ∷ []) }
        ensures err { OnErr result (self.new ≡ self.old) }
    {
        let params = Seq::from_vec(Vec::from_slice(self.allocator(), params)?);
        let results = Seq::from_vec(Vec::from_slice(self.allocator(), results)?);
        self.add(FuncType { params, results })
    }
}

impl Entries<Import> {
    /// Appends an import. Where memory is refused, the section is as it was.
    pub fn import(
        &mut self,
        module_name: &str,
        field: &str,
        entity: EntityType,
    ) -> Result<(), AllocError>
        ensures ok { OnOk result (self.new
            ≡ self.old
            ++ record { module_name = module_name.now; field = field.now; entity = entity }
            ∷ []) }
        ensures err { OnErr result (self.new ≡ self.old) }
    {
        let module_name = Text::from_str(self.allocator(), module_name)?;
        let field = Text::from_str(self.allocator(), field)?;
        self.add(Import {
            module_name,
            field,
            entity,
        })
    }
}

impl Entries<u32> {
    /// Appends a function, by the index of its type. Where memory is refused, the section is as it was.
    pub fn function(&mut self, type_index: u32) -> Result<(), AllocError>
        ensures ok { OnOk result (self.new ≡ self.old ++ type_index ∷ []) }
        ensures err { OnErr result (self.new ≡ self.old) }
    {
        self.add(type_index)
    }
}

impl Entries<TableType> {
    /// Appends a table. Where memory is refused, the section is as it was.
    pub fn table(&mut self, table_type: TableType) -> Result<(), AllocError>
        ensures ok { OnOk result (self.new ≡ self.old ++ table_type ∷ []) }
        ensures err { OnErr result (self.new ≡ self.old) }
    {
        self.add(table_type)
    }
}

impl Entries<MemoryType> {
    /// Appends a memory. Where memory is refused, the section is as it was.
    pub fn memory(&mut self, memory_type: MemoryType) -> Result<(), AllocError>
        ensures ok { OnOk result (self.new ≡ self.old ++ memory_type ∷ []) }
        ensures err { OnErr result (self.new ≡ self.old) }
    {
        self.add(memory_type)
    }
}

impl Entries<DefinedGlobal> {
    /// Appends a global that is `init` at first. Where memory is refused, the section is as it was.
    pub fn global(&mut self, global_type: GlobalType, init: ConstExpr) -> Result<(), AllocError>
        ensures ok { OnOk result
            (self.new ≡ self.old ++ record { global_type = global_type; init = init } ∷ []) }
        ensures err { OnErr result (self.new ≡ self.old) }
    {
        self.add(DefinedGlobal { global_type, init })
    }
}

impl Entries<Export> {
    /// Appends an export, of the item of this index among those of its kind. Where memory is refused,
    /// the section is as it was.
    pub fn export(&mut self, name: &str, kind: ExportKind, index: u32) -> Result<(), AllocError>
        ensures ok { OnOk result
            (self.new ≡ self.old ++ record { name = name.now; kind = kind; index = index } ∷ []) }
        ensures err { OnErr result (self.new ≡ self.old) }
    {
        let name = Text::from_str(self.allocator(), name)?;
        self.add(Export { name, kind, index })
    }
}

impl Entries<ElementSegment> {
    /// Appends functions for the slots of a table from `offset` on; `None` is table 0, in the short
    /// form. Where memory is refused, the section is as it was.
    pub fn active(
        &mut self,
        table: Option<u32>,
        offset: i32,
        functions: &[u32],
    ) -> Result<(), AllocError>
        ensures ok { OnOk result
            (self.new ≡ self.old ++ segments.Active table offset functions.now ∷ []) }
        ensures err { OnErr result (self.new ≡ self.old) }
    {
        let functions = Seq::from_vec(Vec::from_slice(self.allocator(), functions)?);
        self.add(ElementSegment::Active {
            table,
            offset,
            functions,
        })
    }

    /// Appends functions that are declared, so that references to them can be made. Where memory is
    /// refused, the section is as it was.
    pub fn declared(&mut self, functions: &[u32]) -> Result<(), AllocError>
        ensures ok { OnOk result (self.new ≡ self.old ++ segments.Declared functions.now ∷ []) }
        ensures err { OnErr result (self.new ≡ self.old) }
    {
        let functions = Seq::from_vec(Vec::from_slice(self.allocator(), functions)?);
        self.add(ElementSegment::Declared(functions))
    }
}

impl Entries<DataSegment> {
    /// Appends bytes for memory 0 from `offset` on. Where memory is refused, the section is as it was.
    pub fn active(&mut self, offset: i32, bytes: &[u8]) -> Result<(), AllocError>
        ensures ok { OnOk result
            (self.new ≡ self.old ++ record { offset = offset; bytes = bytes.now } ∷ []) }
        ensures err { OnErr result (self.new ≡ self.old) }
    {
        let bytes = Seq::from_vec(Vec::from_slice(self.allocator(), bytes)?);
        self.add(DataSegment { offset, bytes })
    }
}

impl Entries<Body> {
    /// Appends a body: its local variables, run by run, and its instructions, whose end is written
    /// after them. Where memory is refused, the section is as it was.
    pub fn body(
        &mut self,
        locals: &[LocalRun],
        instructions: &[Instruction],
    ) -> Result<(), AllocError>
        ensures ok { OnOk result (self.new
            ≡ self.old ++ record { locals = locals.now; instructions = instructions.now }
            ∷ []) }
        ensures err { OnErr result (self.new ≡ self.old) }
    {
        let locals = Seq::from_vec(Vec::from_slice(self.allocator(), locals)?);
        let instructions = Seq::from_vec(Vec::from_slice(self.allocator(), instructions)?);
        self.add(Body {
            locals,
            instructions,
        })
    }
}

impl Entries<Naming> {
    /// Appends the name of the item of this index. Where memory is refused, the map is as it was.
    pub fn append(&mut self, index: u32, name: &str) -> Result<(), AllocError>
        ensures ok { OnOk result
            (self.new ≡ self.old ++ record { index = index; name = name.now } ∷ []) }
        ensures err { OnErr result (self.new ≡ self.old) }
    {
        let name = Text::from_str(self.allocator(), name)?;
        self.add(Naming { index, name })
    }
}
