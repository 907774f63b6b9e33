//! The tables of a scope: the indices of the types that were met.

ghost use Rattle.std.specs.Prelude.{◌≡◌, OnOk, OnErr};
ghost use Rattle.std.specs.Map.{lookup};
ghost use Rattle.indexmap.specs.IndexMap.{swap_remove_entry};
ghost use Rattle.comp_lists.specs.Tables.{with_first};
ghost use Rattle.wit_types.specs.Maps.{no_maps};

use comp_lists::{Keyed, Seq};
use std::alloc::{AllocError, Global};
use wit_data::{Field, Type, TypeDefKind, TypeId};

/// What the type of a function is made of: functions with equal keys have one type.
#[derive(Debug, PartialEq, Eq, Hash)]
pub struct FuncTypeKey {
    /// The names and types of the parameters.
    pub params: Seq<Field>,
    pub result: Option<Type>,
    pub is_async: bool,
}

impl Drop for FuncTypeKey {
    fn drop(self) {
        let FuncTypeKey {
            params: _,
            result: _,
            is_async: _,
        } = self;
    }
}

/// The indices of the types that were met in a scope: by their number in the resolve, by their kind where they have no
/// name, and those of functions.
pub struct TypeEncodingMaps {
    pub id_to_index: Keyed<TypeId, u32>,
    pub def_to_index: Keyed<TypeDefKind, u32>,
    pub func_type_map: Keyed<FuncTypeKey, u32>,
}

impl Drop for TypeEncodingMaps {
    fn drop(self) {
        let TypeEncodingMaps {
            id_to_index: _,
            def_to_index: _,
            func_type_map: _,
        } = self;
    }
}

impl TypeEncodingMaps {
    /// Tables of nothing. They take no memory.
    pub fn new(alloc: Global) -> TypeEncodingMaps
        ensures { result ≡ no_maps }
    {
        TypeEncodingMaps {
            id_to_index: Keyed::new(alloc),
            def_to_index: Keyed::new(alloc),
            func_type_map: Keyed::new(alloc),
        }
    }

    /// The index of a type that was met.
    pub fn type_index(&self, id: TypeId) -> Option<u32>
        ensures { result ≡ lookup (⟦<TypeId as PartialEq>⟧.eq id) self.now.id_to_index }
    {
        self.id_to_index.get(&id).copied()
    }

    /// The index of a type without a name of this kind that was met.
    pub fn kind_index(&self, kind: &TypeDefKind) -> Option<u32>
        ensures { result ≡ lookup (⟦<TypeDefKind as PartialEq>⟧.eq kind.now) self.now.def_to_index }
    {
        self.def_to_index.get(kind).copied()
    }

    /// The index of the type of the functions with this key that was met.
    pub fn function_index(&self, key: &FuncTypeKey) -> Option<u32>
        ensures { result ≡ lookup (⟦<FuncTypeKey as PartialEq>⟧.eq key.now) self.now.func_type_map }
    {
        self.func_type_map.get(key).copied()
    }

    /// Records the index of a type, unless it has one.
    pub fn record_type(&mut self, id: TypeId, index: u32) -> Result<(), AllocError>
        ensures ok { OnOk result (self.new
            ≡ record self.old {
              id_to_index = with_first (⟦<TypeId as PartialEq>⟧.eq)
                  self.old.id_to_index id index;
            }) }
        ensures err { OnErr result (self.new ≡ self.old) }
    {
        self.id_to_index.insert_if_absent(id, index)
    }

    /// Records the index of a type without a name, by its kind, unless it has one.
    pub fn record_kind(&mut self, kind: TypeDefKind, index: u32) -> Result<(), AllocError>
        ensures ok { OnOk result (self.new
            ≡ record self.old {
              def_to_index = with_first (⟦<TypeDefKind as PartialEq>⟧.eq)
                  self.old.def_to_index kind index;
            }) }
        ensures err { OnErr result (self.new ≡ self.old) }
    {
        self.def_to_index.insert_if_absent(kind, index)
    }

    /// Records the index of the type of the functions with this key, unless it has one.
    pub fn record_function(&mut self, key: FuncTypeKey, index: u32) -> Result<(), AllocError>
        ensures ok { OnOk result (self.new
            ≡ record self.old {
              func_type_map = with_first (⟦<FuncTypeKey as PartialEq>⟧.eq)
                  self.old.func_type_map key index;
            }) }
        ensures err { OnErr result (self.new ≡ self.old) }
    {
        self.func_type_map.insert_if_absent(key, index)
    }

    /// Forgets a type that was met: its index, and that of the types without a name of its kind.
    pub fn forget(&mut self, id: TypeId, kind: &TypeDefKind)
        ensures { self.new
            ≡ record self.old {
              id_to_index = swap_remove_entry (⟦<TypeId as PartialEq>⟧.eq id)
                  self.old.id_to_index;
              def_to_index = swap_remove_entry
                  (⟦<TypeDefKind as PartialEq>⟧.eq kind.now) self.old.def_to_index;
            } }
    {
        self.id_to_index.remove(&id);
        self.def_to_index.remove(kind);
    }
}
