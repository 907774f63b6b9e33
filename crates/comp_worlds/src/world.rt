//! The validated world.

ghost use Rattle.std.specs.Prelude.{◌≡◌, ◌<◌, length};
ghost use Rattle.comp_worlds.specs.WorldContents.{items_of};

use crate::lowerings::ImportedInterface;
use comp_lists::{Keyed, Seq, SharedBytes, Text};
use comp_roles::{ExportMap, ExternType, ImportMap, ImportType, LibraryInfo, ModuleMetadata};
use wit_data::{InterfaceId, Resolve, TypeId, World, WorldId, WorldKey};

/// A core module: its bytes, the types of its imports and exports as validation found them, and the roles of these.
pub struct ValidatedModule {
    pub bytes: SharedBytes,
    pub imports: ImportMap,
    pub exports: ExportMap,
    /// The core imports with their types, in the module's order; those of types that can't be given are left out.
    pub imported: Seq<ImportType>,
    /// The types of the core exports that others may use, by their names: those whose types are made of the
    /// four number types, references to any function, and tables and memories with limits below 2^32.
    pub offered: Keyed<Text, ExternType>,
    pub metadata: ModuleMetadata,
}

impl Drop for ValidatedModule {
    fn drop(self) {
        let ValidatedModule {
            bytes: _,
            imports: _,
            exports: _,
            imported: _,
            offered: _,
            metadata: _,
        } = self;
    }
}

/// An adapter: the keys of the exports that it has to have, in order, and what makes it a
/// library, if it is one.
pub struct WorldAdapter {
    pub info: ValidatedModule,
    pub required_exports: Seq<WorldKey>,
    pub library_info: Option<LibraryInfo>,
}

impl Drop for WorldAdapter {
    fn drop(self) {
        let WorldAdapter {
            info: _,
            required_exports: _,
            library_info: _,
        } = self;
    }
}

/// The validated world: the items that the component imports and exports, its main module with the
/// keys of the exports that it has to have, its adapters, in order, and the tables that follow from
/// these. `IsWorld` says what holds of it, `IsEncodable` what the encoder takes of it beside that,
/// and `HasTables` what the tables are.
pub struct ComponentWorld {
    pub resolve: Resolve,
    /// The world of the resolve whose items these are.
    pub world: WorldId,
    pub main: ValidatedModule,
    pub main_exports: Seq<WorldKey>,
    pub adapters: Keyed<Text, WorldAdapter>,
    /// What is lowered of what the world imports: of its root, which has no key and is first, and
    /// of each imported interface, in the world's order.
    pub import_map: Keyed<Option<WorldKey>, ImportedInterface>,
    /// For each imported interface, the types that the component needs, in its order.
    pub live_type_imports: Keyed<InterfaceId, Seq<TypeId>>,
    /// For each exported interface, the other exported ones whose types it needs.
    pub exports_used: Keyed<InterfaceId, Seq<InterfaceId>>,
    /// Whether the second slot of a task's context is free for thread-local data.
    pub can_use_context_slot_1: bool,
}

impl Drop for ComponentWorld {
    fn drop(self) {
        let ComponentWorld {
            resolve: _,
            world: _,
            main: _,
            main_exports: _,
            adapters: _,
            import_map: _,
            live_type_imports: _,
            exports_used: _,
            can_use_context_slot_1: _,
        } = self;
    }
}

/// A world without its tables.
pub struct WorldParts {
    pub resolve: Resolve,
    pub world: WorldId,
    pub main: ValidatedModule,
    pub main_exports: Seq<WorldKey>,
    pub adapters: Keyed<Text, WorldAdapter>,
    pub can_use_context_slot_1: bool,
}

impl Drop for WorldParts {
    fn drop(self) {
        let WorldParts {
            resolve: _,
            world: _,
            main: _,
            main_exports: _,
            adapters: _,
            can_use_context_slot_1: _,
        } = self;
    }
}

impl ComponentWorld {
    /// The imports and exports of the world.
    pub fn items(&self) -> &World
        requires { self.now.world.index < length self.now.resolve.worlds }
        ensures { result.now ≡ items_of self.now }
    {
        &self.resolve.worlds.as_slice()[self.world.index]
    }
}

impl WorldParts {
    /// The world of these parts, with these tables.
    pub fn with_tables(
        self,
        import_map: Keyed<Option<WorldKey>, ImportedInterface>,
        live_type_imports: Keyed<InterfaceId, Seq<TypeId>>,
        exports_used: Keyed<InterfaceId, Seq<InterfaceId>>,
    ) -> ComponentWorld
        ensures { result
            ≡ record {
              resolve = self.resolve;
              world = self.world;
              main = self.main;
              main_exports = self.main_exports;
              adapters = self.adapters;
              import_map = import_map;
              live_type_imports = live_type_imports;
              exports_used = exports_used;
              can_use_context_slot_1 = self.can_use_context_slot_1;
            } }
    {
        let WorldParts {
            resolve,
            world,
            main,
            main_exports,
            adapters,
            can_use_context_slot_1,
        } = self;
        ComponentWorld {
            resolve,
            world,
            main,
            main_exports,
            adapters,
            import_map,
            live_type_imports,
            exports_used,
            can_use_context_slot_1,
        }
    }
}
