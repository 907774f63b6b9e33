//! An instance type that is being built, as a scope in which types are defined.

ghost use Rattle.std.specs.Prelude.{◌≡◌, ◌++◌, ◌∷◌, [], get_or, Some, None, true, is_some, IsTrue, IfOk, IfErr, OnOk, OnErr};
ghost use Rattle.std.specs.Option.{IfSome};
ghost use Rattle.std.proofs.Common.{refl};
ghost use Rattle.comp_bytes.specs.declared.types.Member.TheVariants as members;
ghost use Rattle.comp_bytes.specs.declared.types.Alias.TheVariants as aliases;
ghost use Rattle.comp_bytes.specs.declared.types.Description.TheVariants as descriptions;
ghost use Rattle.comp_bytes.specs.declared.types.TypeDef.TheVariants as types;
ghost use Rattle.wit_data.specs.declared.types.Type.TheVariants.{Id};
ghost use Rattle.comp_trees.specs.Trees.{ResourceAt, is_known, is_known_function};
ghost use Rattle.comp_trees.specs.DefinedTrees.{OfValues, OfFunctions, OfOthers, defined_tree, function_tree};
ghost use Rattle.wit_types.specs.Settings.{tree_in};
ghost use Rattle.wit_types.specs.Denoting.{Makes, MayMake, IsCause, exported_or};
ghost use Rattle.wit_types.specs.Maps.{no_maps};
ghost use Rattle.comp_trees.specs.Members.{member_trees};
ghost use Rattle.type_scopes.specs.Members.{types_in, is_full};
ghost use Rattle.type_scopes.specs.Exports.{MembersGrow, any_index, members_same, follow_on};
ghost use Rattle.type_scopes.specs.Offers.{offered, placed};

use crate::member_list::MemberList;
use crate::outer_types::OuterTypes;
use crate::placement::Placement;
use byte_encoding::BuildFault;
use comp_bytes::{
    Alias, DefinedType, Description, ExternName, FuncTypeDef, InstanceType, Member, TypeDef,
};
use std::alloc::{AllocError, Global};
use wit_data::{InterfaceId, TypeId};
use wit_types::{TypeEncodingMaps, ValtypeEncoder};

/// An instance type that is being built: the types of its interface are exported, one after the
/// other, each before the types that are made of it; and a type of another interface is an alias of
/// the type that the outer scope offers.
pub struct InstanceTypeEncoder<'a, P: Placement> {
    outer: OuterTypes<'a, P>,
    interface: InterfaceId,
    passed: &'a [TypeId],
    members: MemberList,
    maps: TypeEncodingMaps,
}

impl<'a, P: Placement> Drop for InstanceTypeEncoder<'a, P> {
    fn drop(self) {
        let InstanceTypeEncoder {
            outer: _,
            interface: _,
            passed: _,
            members: _,
            maps: _,
        } = self;
    }
}

impl<'a, P: Placement> InstanceTypeEncoder<'a, P> {
    /// The instance type of an interface, with no member. The first of these types were passed: none was.
    pub fn new(
        alloc: Global,
        outer: OuterTypes<'a, P>,
        interface: InterfaceId,
        types: &'a [TypeId],
    ) -> InstanceTypeEncoder<'a, P>
        ensures outer { result.outer ≡ outer.entry }
        ensures interface { result.interface ≡ interface }
        ensures passed { result.passed.now ≡ [] }
        ensures members { result.members ≡ [] }
        ensures maps { result.maps ≡ no_maps }
    {
        InstanceTypeEncoder {
            outer,
            interface,
            passed: &types[..0],
            members: MemberList::new(alloc),
            maps: TypeEncodingMaps::new(alloc),
        }
    }

    /// Exports the type with an index under a name, and returns the index of the export.
    pub fn add_type(&mut self, name: ExternName, index: u32) -> Result<u32, BuildFault>
        ensures added { OnOk result (self.new
            ≡ record self.old {
              members = self.old.members
                  ++ members.Export name (descriptions.TypeEqual index) ∷ [];
            }) }
        ensures index { IfOk result (λ index. index ≡ types_in self.old.members) }
        ensures kept { OnErr result (self.new ≡ self.old) }
        ensures cause { IfErr result (IsCause is_full self.new.members) }
    {
        let description = Description::TypeEqual(index);
        self.members.add_type(Member::Export { name, description })
    }

    /// Exports a resource under a name, and returns its index.
    pub fn add_resource(&mut self, name: ExternName) -> Result<u32, BuildFault>
        ensures added { OnOk result (self.new
            ≡ record self.old {
              members = self.old.members
                  ++ members.Export name descriptions.SubResource ∷ [];
            }) }
        ensures index { IfOk result (λ index. index ≡ types_in self.old.members) }
        ensures kept { OnErr result (self.new ≡ self.old) }
        ensures cause { IfErr result (IsCause is_full self.new.members) }
    {
        let description = Description::SubResource;
        self.members.add_type(Member::Export { name, description })
    }

    /// These types were passed: each was exported and is in the tables.
    pub fn pass(&mut self, types: &'a [TypeId])
        ensures passed { self.new.passed.now ≡ types.now }
        ensures outer { self.new.outer ≡ self.old.outer }
        ensures interface { self.new.interface ≡ self.old.interface }
        ensures members { self.new.members ≡ self.old.members }
        ensures maps { self.new.maps ≡ self.old.maps }
    {
        self.passed = types;
    }

    /// Exports a function of the type with an index, under a name.
    pub fn add_function(&mut self, name: ExternName, index: u32) -> Result<(), AllocError>
        ensures added { OnOk result (self.new
            ≡ record self.old {
              members = self.old.members
                  ++ members.Export name (descriptions.Func index) ∷ [];
            }) }
        ensures kept { OnErr result (self.new ≡ self.old) }
    {
        self.members.add_function(name, index)
    }

    /// The instance type.
    pub fn into_type(self) -> InstanceType
        ensures { result.members ≡ self.entry.members }
    {
        let InstanceTypeEncoder {
            outer: _,
            interface: _,
            passed: _,
            members,
            maps: _,
        } = self;
        InstanceType {
            members: members.into_members(),
        }
    }
}

impl<'a, P: Placement> ValtypeEncoder for InstanceTypeEncoder<'a, P> {
    ghost setting = { λ e. placed P.surroundings P.origin e.outer e.interface e.passed.now };

    ghost scope = { λ e. member_trees P.surroundings [] e.members };

    ghost maps = { λ e. e.maps };

    ghost with_maps = { λ e m. record e { maps = m } };

    ghost follows = { λ old new. (new.outer ≡ old.outer) × (new.interface ≡ old.interface) × (new.passed ≡ old.passed) × MembersGrow P.surroundings old.members new.members };

    ghost names = { λ e name index. any_index name index };

    ghost offers = { λ e. Unit {0} };

    ghost refuses = { λ e count. is_full e.members count };

    ghost follows_itself = { λ e. (refl, refl, refl, members_same P.surroundings e.members) };

    ghost follows_on = { λ a b c g h. follow_on P.surroundings a.outer b.outer c.outer a.interface b.interface c.interface a.passed b.passed c.passed a.members b.members c.members g h };

    ghost names_kept = { λ a b g name index h. h };

    ghost offers_kept = { λ a b g known. known };

    ghost follows_maps = { λ e m. (refl, refl, refl, members_same P.surroundings e.members) };

    ghost maps_given = { λ e m. refl };

    ghost scope_kept = { λ e m. refl };

    ghost setting_kept = { λ e m. refl };

    fn defined_type(&mut self, ty: DefinedType) -> Result<u32, BuildFault>
        requires known { is_known (defined_tree (member_trees P.surroundings [] self.old.members) ty) ≡ true }
        ensures added { OnOk result (self.new
            ≡ record self.old
            { members = self.old.members ++ members.Type (types.Defined ty) ∷ [] }) }
        ensures index { IfOk result (λ index. index ≡ types_in self.old.members) }
        ensures kept { OnErr result (self.new ≡ self.old) }
        ensures makes { Makes (member_trees P.surroundings [] self.old.members)
            (member_trees P.surroundings [] self.new.members) result
            (OfValues (defined_tree (member_trees P.surroundings [] self.old.members) ty)) }
        ensures setting { placed P.surroundings P.origin self.new.outer self.new.interface
            self.new.passed.now
            ≡ placed P.surroundings P.origin self.old.outer self.old.interface self.old.passed.now }
        ensures maps { self.new.maps ≡ self.old.maps }
        ensures follows { (self.new.outer ≡ self.old.outer)
            × (self.new.interface ≡ self.old.interface)
            × (self.new.passed ≡ self.old.passed)
            × MembersGrow P.surroundings self.old.members self.new.members }
        ensures cause { IfErr result (IsCause is_full self.new.members) }
    {
        self.members.add_type(Member::Type(TypeDef::Defined(ty)))
    }

    fn define_function_type(&mut self, ty: FuncTypeDef) -> Result<u32, BuildFault>
        requires known { is_known_function
            (function_tree (member_trees P.surroundings [] self.old.members) ty)
            ≡ true }
        ensures added { OnOk result (self.new
            ≡ record self.old
            { members = self.old.members ++ members.Type (types.Func ty) ∷ [] }) }
        ensures index { IfOk result (λ index. index ≡ types_in self.old.members) }
        ensures kept { OnErr result (self.new ≡ self.old) }
        ensures makes { Makes (member_trees P.surroundings [] self.old.members)
            (member_trees P.surroundings [] self.new.members) result
            (OfFunctions (function_tree (member_trees P.surroundings [] self.old.members) ty)) }
        ensures setting { placed P.surroundings P.origin self.new.outer self.new.interface
            self.new.passed.now
            ≡ placed P.surroundings P.origin self.old.outer self.old.interface self.old.passed.now }
        ensures maps { self.new.maps ≡ self.old.maps }
        ensures follows { (self.new.outer ≡ self.old.outer)
            × (self.new.interface ≡ self.old.interface)
            × (self.new.passed ≡ self.old.passed)
            × MembersGrow P.surroundings self.old.members self.new.members }
        ensures cause { IfErr result (IsCause is_full self.new.members) }
    {
        self.members.add_type(Member::Type(TypeDef::Func(ty)))
    }

    /// Nothing is exported: a type that has a name is exported before what is made of it, and is found in the tables.
    fn export_type(&mut self, index: u32, name: ExternName) -> Result<Option<u32>, BuildFault>
        ensures same { self.new ≡ self.old }
        ensures none { IfOk result (λ exported. exported ≡ None) }
        ensures names { IfOk result (λ exported. any_index name.name (exported_or exported index)) }
        ensures makes { MayMake (member_trees P.surroundings [] self.old.members)
            (member_trees P.surroundings [] self.new.members) result
            (get_or (member_trees P.surroundings [] self.old.members) index OfOthers) }
        ensures setting { placed P.surroundings P.origin self.new.outer self.new.interface
            self.new.passed.now
            ≡ placed P.surroundings P.origin self.old.outer self.old.interface self.old.passed.now }
        ensures maps { self.new.maps ≡ self.old.maps }
        ensures follows { (self.new.outer ≡ self.old.outer)
            × (self.new.interface ≡ self.old.interface)
            × (self.new.passed ≡ self.old.passed)
            × MembersGrow P.surroundings self.old.members self.new.members }
        ensures cause { IfErr result (IsCause is_full self.new.members) }
    {
        let _ = (index, name);
        Ok(None)
    }

    /// No name may be exported here (`placed`), so that no caller may ask for this: it refuses.
    fn export_resource(&mut self, name: ExternName) -> Result<u32, BuildFault>
        ensures same { self.new ≡ self.old }
        ensures names { IfOk result (λ index. any_index name.name index) }
        ensures makes { Makes (member_trees P.surroundings [] self.old.members)
            (member_trees P.surroundings [] self.new.members) result
            (OfValues (ResourceAt (P.surroundings.resource name.name))) }
        ensures setting { placed P.surroundings P.origin self.new.outer self.new.interface
            self.new.passed.now
            ≡ placed P.surroundings P.origin self.old.outer self.old.interface self.old.passed.now }
        ensures maps { self.new.maps ≡ self.old.maps }
        ensures follows { (self.new.outer ≡ self.old.outer)
            × (self.new.interface ≡ self.old.interface)
            × (self.new.passed ≡ self.old.passed)
            × MembersGrow P.surroundings self.old.members self.new.members }
        ensures cause { IfErr result (IsCause is_full self.new.members) }
    {
        let _ = name;
        Err(BuildFault::Memory)
    }

    fn import_type(&mut self, interface: InterfaceId, id: TypeId) -> Result<u32, BuildFault>
        requires may { IsTrue (is_some (offered self.old.outer interface id)) }
        ensures added { OnOk result (IfSome (offered self.old.outer interface id) (λ outer. self.new
            ≡ record self.old {
              members = self.old.members
                  ++ members.Alias (aliases.Outer 1 outer) ∷ [];
            })) }
        ensures index { IfOk result (λ index. index ≡ types_in self.old.members) }
        ensures kept { OnErr result (self.new ≡ self.old) }
        ensures makes { Makes (member_trees P.surroundings [] self.old.members)
            (member_trees P.surroundings [] self.new.members) result (OfValues (tree_in
            (placed P.surroundings P.origin self.old.outer self.old.interface
            self.old.passed.now) (Some (Id id)))) }
        ensures setting { placed P.surroundings P.origin self.new.outer self.new.interface
            self.new.passed.now
            ≡ placed P.surroundings P.origin self.old.outer self.old.interface self.old.passed.now }
        ensures maps { self.new.maps ≡ self.old.maps }
        ensures follows { (self.new.outer ≡ self.old.outer)
            × (self.new.interface ≡ self.old.interface)
            × (self.new.passed ≡ self.old.passed)
            × MembersGrow P.surroundings self.old.members self.new.members }
        ensures cause { IfErr result (IsCause is_full self.new.members) }
    {
        match self.outer.index_of(interface, id) {
            Some(index) => {
                let alias = Alias::Outer { count: 1, index };
                self.members.add_type(Member::Alias(alias))
            }
            None => unreachable!(),
        }
    }

    fn type_encoding_maps(&mut self) -> &mut TypeEncodingMaps {
        &mut self.maps
    }

    fn interface(&self) -> Option<InterfaceId> {
        Some(self.interface)
    }
}
