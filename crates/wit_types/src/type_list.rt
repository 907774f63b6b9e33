//! A list of types that stands alone, which shows what a type is made of: a type of an interface is
//! imported there, and a resource is known by its name.

ghost use Rattle.std.specs.Prelude.{◌≡◌, ◌++◌, ◌∷◌, [], length, IfOk, IfErr, IsTrue, OnOk, OnErr, Some};
ghost use Rattle.std.proofs.Common.{refl};
ghost use Rattle.comp_trees.specs.Trees.{DefinedAt};
ghost use Rattle.comp_trees.specs.WitTrees.{wit_tree};
ghost use Rattle.comp_trees.specs.DefinedTrees.{value_tree};
ghost use Rattle.wit_data.specs.Sound.{IsSound, HasType};
ghost use Rattle.wit_types.specs.Allowing.{is_allowed};
ghost use Rattle.wit_types.specs.Denoting.{IsCause};
ghost use Rattle.wit_types.specs.Listing.{listed_trees, is_full, standing_alone, ListGrows, IsExported, exported_on, list_same, list_on};
ghost use Rattle.wit_types.specs.Maps.{no_maps};

use crate::calls::encode_valtype;
use crate::encoder::ValtypeEncoder;
use crate::maps::TypeEncodingMaps;
use byte_encoding::{BuildFault, count_of};
use comp_bytes::{ComponentValType, DefinedType, ExternName, FuncTypeDef};
use comp_lists::Seq;
use std::alloc::Global;
use wit_data::{InterfaceId, Resolve, Type, TypeId};

/// How a type of the list is made.
#[derive(Drop)]
pub enum ListedType {
    Defined(DefinedType),
    Func(FuncTypeDef),
    /// An export of the type with an index.
    Export { name: ExternName, index: u32 },
    /// An export of a resource.
    Resource { name: ExternName },
    /// A type of an interface.
    Import { interface: InterfaceId, id: TypeId },
}

/// A list of types that stands alone.
pub struct TypeList<'a> {
    resolve: &'a Resolve,
    listed: Seq<ListedType>,
    maps: TypeEncodingMaps,
}

impl<'a> Drop for TypeList<'a> {
    fn drop(self) {
        let TypeList {
            resolve: _,
            listed: _,
            maps: _,
        } = self;
    }
}

impl<'a> TypeList<'a> {
    /// A list of no type.
    pub fn new(alloc: Global, resolve: &'a Resolve) -> TypeList<'a>
        ensures resolve { result.resolve.now ≡ resolve.entry.now }
        ensures listed { result.listed ≡ [] }
        ensures maps { result.maps ≡ no_maps }
    {
        TypeList {
            resolve,
            listed: Seq::new(alloc),
            maps: TypeEncodingMaps::new(alloc),
        }
    }

    /// The types of the list.
    pub fn into_listed(self) -> Seq<ListedType>
        ensures { result ≡ self.entry.listed }
    {
        let TypeList {
            resolve: _,
            listed,
            maps: _,
        } = self;
        listed
    }
}

/// Adds a type at the end of a list, and returns its index.
fn add(listed: &mut Seq<ListedType>, ty: ListedType) -> Result<u32, BuildFault>
    ensures index { IfOk result (λ index. index ≡ length listed.old) }
    ensures ok { OnOk result (listed.new ≡ listed.old ++ ty ∷ []) }
    ensures err { OnErr result (listed.new ≡ listed.old) }
    ensures cause { IfErr result (IsCause is_full listed.new) }
{
    let none: &[u8] = &[];
    let index = count_of(listed.as_slice(), none)?;
    listed.push(ty)?;
    Ok(index)
}

impl<'a> ValtypeEncoder for TypeList<'a> {
    ghost setting = { λ l. standing_alone l.resolve.now.types };

    ghost scope = { λ l. listed_trees l.resolve.now.types [] l.listed };

    ghost maps = { λ l. l.maps };

    ghost with_maps = { λ l m. record l { maps = m } };

    ghost follows = { λ old new. ListGrows old.listed new.listed };

    ghost names = { λ l name index. IsExported l.listed name index };

    ghost offers = { λ l. Unit {0} };

    ghost refuses = { λ l count. is_full l.listed count };

    ghost follows_itself = { λ l. list_same l.listed };

    ghost follows_on = { λ a b c g h. list_on a.listed b.listed c.listed g h };

    ghost names_kept = { λ a b g name index h. exported_on a.listed b.listed g name index h };

    ghost offers_kept = { λ a b g known. known };

    ghost follows_maps = { λ l m. list_same l.listed };

    ghost maps_given = { λ l m. refl };

    ghost scope_kept = { λ l m. refl };

    ghost setting_kept = { λ l m. refl };

    fn defined_type(&mut self, ty: DefinedType) -> Result<u32, BuildFault> {
        add(&mut self.listed, ListedType::Defined(ty))
    }

    fn define_function_type(&mut self, ty: FuncTypeDef) -> Result<u32, BuildFault> {
        add(&mut self.listed, ListedType::Func(ty))
    }

    fn export_type(&mut self, index: u32, name: ExternName) -> Result<Option<u32>, BuildFault> {
        Ok(Some(add(&mut self.listed, ListedType::Export { name, index })?))
    }

    fn export_resource(&mut self, name: ExternName) -> Result<u32, BuildFault> {
        add(&mut self.listed, ListedType::Resource { name })
    }

    fn import_type(&mut self, interface: InterfaceId, id: TypeId) -> Result<u32, BuildFault> {
        add(&mut self.listed, ListedType::Import { interface, id })
    }

    fn type_encoding_maps(&mut self) -> &mut TypeEncodingMaps {
        &mut self.maps
    }

    fn interface(&self) -> Option<InterfaceId> {
        None
    }
}

/// A type and the types that it is made of.
#[derive(Drop)]
pub struct AloneType {
    pub listed: Seq<ListedType>,
    pub value: ComponentValType,
}

/// The types that a type is made of. Each resource that it reaches is the first type of its name.
pub fn encode_alone(alloc: Global, resolve: &Resolve, ty: &Type) -> Result<AloneType, BuildFault>
    requires sound { IsSound resolve.now }
    requires present { HasType resolve.now (Some ty.now) }
    requires allowed { IsTrue (is_allowed (standing_alone resolve.now.types) (Some ty.now)) }
    ensures { IfOk result (λ alone. value_tree (listed_trees resolve.now.types [] alone.listed)
        alone.value
        ≡ wit_tree (λ id. DefinedAt id.index) resolve.now.types (Some ty.now)) }
{
    let mut list = TypeList::new(alloc, resolve);
    let value = encode_valtype(alloc, &mut list, resolve, ty)?;
    Ok(AloneType {
        listed: list.into_listed(),
        value,
    })
}
