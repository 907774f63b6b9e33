//! Whether all indices in a resolve are in range.

ghost use Rattle.std.specs.Prelude.{◌≡◌, ◌<◌, ◌↔◌, IsTrue, length};
ghost use Rattle.std.specs.List.{AllByRecursion};
ghost use Rattle.wit_data.specs.Parts.{parts, RefersBack, RefersBackFrom, IsBelow};
ghost use Rattle.wit_data.specs.Sound as sound;

use crate::functions::{Function, FunctionKind, Param};
use crate::ids::{InterfaceId, TypeId};
use crate::resolve::{Interface, Resolve};
use crate::sizes::are_small;
use crate::types::{Type, TypeDef, TypeDefKind, TypeOwner};
use crate::worlds::{World, WorldItem, WorldKey};
use comp_lists::{Keyed, Text};

impl Resolve {
    /// Whether every index is in range here, types name earlier types alone, and they are small. It takes no memory.
    pub fn is_sound(&self) -> bool
        ensures { IsTrue result ↔ sound.IsSound self.now }
    {
        refer_back(self.types.as_slice())
            && are_small(self.types.as_slice())
            && self.has_owners(self.types.as_slice())
            && self.has_interfaces(self.interfaces.as_slice())
            && self.has_worlds(self.worlds.as_slice())
    }

    /// Whether the types of a function are here. It takes no memory.
    pub fn has_function(&self, function: &Function) -> bool
        ensures { IsTrue result ↔ sound.HasFunction self.now function.now }
    {
        self.has_resource(function.kind)
            && self.has_params(function.params.as_slice())
            && self.has_type(function.result)
    }

    fn has_type(&self, part: Option<Type>) -> bool
        ensures { IsTrue result ↔ sound.HasType self.now part }
    {
        is_below(self.types.len(), part)
    }

    fn has_type_id(&self, id: TypeId) -> bool
        ensures { IsTrue result ↔ sound.HasTypeId self.now id }
    {
        id.index < self.types.len()
    }

    fn has_interface(&self, id: InterfaceId) -> bool
        ensures { IsTrue result ↔ sound.HasInterface self.now id }
    {
        id.index < self.interfaces.len()
    }

    fn has_owner(&self, owner: TypeOwner) -> bool
        ensures { IsTrue result ↔ sound.HasOwner self.now owner }
    {
        match owner {
            TypeOwner::World(id) => id.index < self.worlds.len(),
            TypeOwner::Interface(id) => self.has_interface(id),
            TypeOwner::None => true,
        }
    }

    fn has_owners(&self, types: &[TypeDef]) -> bool
        ensures { IsTrue result ↔ AllByRecursion (λ t. sound.HasOwner self.now t.owner) types.now }
    {
        for id in 0..types.len() {
            if !self.has_owner(types[id].owner) {
                return false;
            }
        }
        true
    }

    fn has_resource(&self, kind: FunctionKind) -> bool
        ensures { IsTrue result ↔ sound.HasResource self.now kind }
    {
        match kind {
            FunctionKind::Freestanding => true,
            FunctionKind::AsyncFreestanding => true,
            FunctionKind::Method(id) => self.has_type_id(id),
            FunctionKind::AsyncMethod(id) => self.has_type_id(id),
            FunctionKind::Static(id) => self.has_type_id(id),
            FunctionKind::AsyncStatic(id) => self.has_type_id(id),
            FunctionKind::Constructor(id) => self.has_type_id(id),
        }
    }

    fn has_params(&self, params: &[Param]) -> bool
        ensures { IsTrue result
            ↔ AllByRecursion (λ p. sound.HasType self.now (Some p.ty)) params.now }
    {
        for index in 0..params.len() {
            if !self.has_type(Some(params[index].ty)) {
                return false;
            }
        }
        true
    }

    fn has_types(&self, types: &Keyed<Text, TypeId>) -> bool
        ensures { IsTrue result ↔ AllByRecursion (λ t. sound.HasTypeId self.now t.1) types.now }
    {
        for (_, id) in types.iter() {
            if !self.has_type_id(*id) {
                return false;
            }
        }
        true
    }

    fn has_functions(&self, functions: &Keyed<Text, Function>) -> bool
        ensures { IsTrue result
            ↔ AllByRecursion (λ f. sound.HasFunction self.now f.1) functions.now }
    {
        for (_, function) in functions.iter() {
            if !self.has_function(function) {
                return false;
            }
        }
        true
    }

    fn has_all(&self, interface: &Interface) -> bool
        ensures { IsTrue result ↔ sound.HasAll self.now interface.now }
    {
        self.has_types(&interface.types) && self.has_functions(&interface.functions)
    }

    fn has_interfaces(&self, interfaces: &[Interface]) -> bool
        ensures { IsTrue result ↔ AllByRecursion (sound.HasAll self.now) interfaces.now }
    {
        for id in 0..interfaces.len() {
            if !self.has_all(&interfaces[id]) {
                return false;
            }
        }
        true
    }

    fn has_key(&self, key: &WorldKey) -> bool
        ensures { IsTrue result ↔ sound.HasKey self.now key.now }
    {
        match key {
            WorldKey::Name(_) => true,
            WorldKey::Interface(id) => self.has_interface(*id),
        }
    }

    fn has_item(&self, item: &WorldItem) -> bool
        ensures { IsTrue result ↔ sound.HasItem self.now item.now }
    {
        match item {
            WorldItem::Interface(id) => self.has_interface(*id),
            WorldItem::Function(function) => self.has_function(function),
            WorldItem::NamedType(id) => self.has_type_id(*id),
        }
    }

    fn has_entry(&self, key: &WorldKey, item: &WorldItem) -> bool
        ensures { IsTrue result ↔ sound.HasEntry self.now (key.now, item.now) }
    {
        self.has_key(key) && self.has_item(item)
    }

    fn has_entries(&self, items: &Keyed<WorldKey, WorldItem>) -> bool
        ensures { IsTrue result ↔ AllByRecursion (sound.HasEntry self.now) items.now }
    {
        for (key, item) in items.iter() {
            if !self.has_entry(key, item) {
                return false;
            }
        }
        true
    }

    fn has_world(&self, world: &World) -> bool
        ensures { IsTrue result ↔ sound.HasWorld self.now world.now }
    {
        self.has_entries(&world.imports) && self.has_entries(&world.exports)
    }

    fn has_worlds(&self, worlds: &[World]) -> bool
        ensures { IsTrue result ↔ AllByRecursion (sound.HasWorld self.now) worlds.now }
    {
        for id in 0..worlds.len() {
            if !self.has_world(&worlds[id]) {
                return false;
            }
        }
        true
    }
}

/// Whether each type names earlier types alone.
pub(crate) fn refer_back(types: &[TypeDef]) -> bool
    ensures { IsTrue result ↔ RefersBack types.now }
{
    for id in 0..types.len() {
        if !are_below(id, &types[id].kind) {
            return false;
        }
    }
    true
}

fn are_below(bound: usize, kind: &TypeDefKind) -> bool
    ensures { IsTrue result ↔ AllByRecursion (IsBelow bound) (parts kind.now) }
{
    for index in 0..kind.part_count() {
        if !is_below(bound, kind.part(index)) {
            return false;
        }
    }
    true
}

fn is_below(bound: usize, part: Option<Type>) -> bool
    ensures { IsTrue result ↔ IsBelow bound part }
{
    match part {
        None => true,
        Some(Type::Primitive(_)) => true,
        Some(Type::Id(id)) => id.index < bound,
    }
}
