//! How many items of each kind are imported.

ghost use Rattle.std.specs.Prelude.{◌≡◌, ◌+◌, ◌<◌, ◌^◌, if◌then◌else◌};
ghost use Rattle.standard_kinds.specs.declared.kinds.ExportKind.{ExportKind};
ghost use Rattle.fixup_modules.specs.Counts.{counted};
ghost use Rattle.fixup_modules.specs.Imports.{kind_of, is_kind};

use core_bytes::EntityType;
use standard_kinds::ExportKind;

/// The kind of an item.
pub(crate) fn kind_of(item: EntityType) -> ExportKind
    ensures { result ≡ kind_of item }
{
    match item {
        EntityType::Function(_) => ExportKind::Func,
        EntityType::Table(_) => ExportKind::Table,
        EntityType::Memory(_) => ExportKind::Memory,
        EntityType::Global(_) => ExportKind::Global,
    }
}

/// The counts of the imports of each kind: the indices of the next ones.
#[derive(Clone, Copy)]
pub(crate) struct ImportCounts {
    functions: u32,
    tables: u32,
    memories: u32,
    globals: u32,
}

impl ImportCounts {
    pub(crate) fn none() -> ImportCounts
        ensures { (kind : ExportKind) → counted result kind ≡ 0 }
    {
        ImportCounts {
            functions: 0,
            tables: 0,
            memories: 0,
            globals: 0,
        }
    }

    /// How many are of a kind.
    pub(crate) fn of(&self, kind: ExportKind) -> u32
        ensures { result ≡ counted self.now kind }
    {
        match kind {
            ExportKind::Func => self.functions,
            ExportKind::Table => self.tables,
            ExportKind::Memory => self.memories,
            ExportKind::Global => self.globals,
        }
    }

    /// One more item.
    pub(crate) fn add(&mut self, item: EntityType)
        requires { counted self.old (kind_of item) + 1 < 2 ^ 32 }
        ensures { (kind : ExportKind)
            → counted self.new kind ≡ counted self.old kind + (if is_kind kind item then 1 else 0) }
    {
        match item {
            EntityType::Function(_) => self.functions += 1,
            EntityType::Table(_) => self.tables += 1,
            EntityType::Memory(_) => self.memories += 1,
            EntityType::Global(_) => self.globals += 1,
        }
    }
}
