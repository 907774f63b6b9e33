//! Types: definitions, and imports.

ghost use Rattle.std.specs.Prelude.{◌≡◌, IfOk, Some, None, get_or, slice_get};
ghost use Rattle.comp_builder.specs.Built.{Adds};
ghost use Rattle.comp_builder.specs.Optional.{option_now};
ghost use Rattle.comp_trees.specs.Trees.{ResourceAt, ImportedAt, DefinedAt};
ghost use Rattle.comp_trees.specs.DefinedTrees.{OfValues, OfFunctions, OfOthers, defined_tree, function_tree};
ghost use Rattle.comp_trees.specs.DefinedScopes.{Denotes};
ghost use Rattle.comp_inventories.specs.Inventories.{OfInstances, inventory, scope_of};
ghost use Rattle.comp_terms.specs.Terms.{imports_in, IsResource};

use crate::items::ComponentItems;
use byte_encoding::BuildFault;
use comp_bytes::{
    Def, DefinedType, Description, ExternName, FuncTypeDef, InstanceType, Item, Space, TypeDef,
};

impl ComponentItems {
    /// Adds a type of values.
    pub fn defined_type(&mut self, ty: DefinedType) -> Result<u32, BuildFault>
        ensures adds { Adds self.old self.new result Space.Type
            (Def.Item (Item.Type (TypeDef.Defined ty))) None }
        ensures denotes { IfOk result (λ index. Denotes (scope_of self.new.defs) index
            (OfValues (defined_tree (scope_of self.old.defs) ty))) }
    {
        let index = self.component.type_defined(None, ty)?;
        Ok(index)
    }

    /// Adds a type of functions.
    pub fn function_type(&mut self, ty: FuncTypeDef) -> Result<u32, BuildFault>
        ensures adds { Adds self.old self.new result Space.Type
            (Def.Item (Item.Type (TypeDef.Func ty))) None }
        ensures denotes { IfOk result (λ index. Denotes (scope_of self.new.defs) index
            (OfFunctions (function_tree (scope_of self.old.defs) ty))) }
    {
        let index = self.component.type_function(None, ty)?;
        Ok(index)
    }

    /// Adds a resource, which the component defines, with the core function that is its destructor,
    /// if it has one. It is known by how many resources were defined before it.
    pub fn resource_type(
        &mut self,
        debug: Option<&str>,
        destructor: Option<u32>,
    ) -> Result<u32, BuildFault>
        ensures adds { Adds self.old self.new result Space.Type
            (Def.Item (Item.Type (TypeDef.Resource destructor))) (option_now debug.entry) }
        ensures defined { IfOk result (λ index. IsResource self.new.defs index
            (DefinedAt (inventory self.old.defs).resources)) }
    {
        let index = self.component.type_resource(debug, destructor)?;
        Ok(index)
    }

    /// Adds a type of instances. It has these members, in a scope whose types are those that were added before.
    pub fn instance_type(
        &mut self,
        debug: Option<&str>,
        ty: InstanceType,
    ) -> Result<u32, BuildFault>
        ensures adds { Adds self.old self.new result Space.Type (Def.Item (Item.InstanceType ty))
            (option_now debug.entry) }
        ensures made { IfOk result (λ index. slice_get (inventory self.new.defs).types index
            ≡ Some (OfInstances (scope_of self.old.defs) ty.members)) }
    {
        let index = self.component.type_instance(debug, ty)?;
        Ok(index)
    }

    /// Adds an import of the type with this index, under a name of its own.
    pub fn import_type(&mut self, name: ExternName, ty: u32) -> Result<u32, BuildFault>
        ensures adds { Adds self.old self.new result Space.Type
            (Def.Item (Item.Import name (Description.TypeEqual ty))) None }
        ensures denotes { IfOk result (λ index. Denotes (scope_of self.new.defs) index
            (get_or (scope_of self.old.defs) ty OfOthers)) }
    {
        let index = self.component.import(name, Description::TypeEqual(ty))?;
        Ok(index)
    }

    /// Adds an import of a resource. It is known by how many imports are before it.
    pub fn import_resource(&mut self, name: ExternName) -> Result<u32, BuildFault>
        ensures adds { Adds self.old self.new result Space.Type
            (Def.Item (Item.Import name Description.SubResource)) None }
        ensures denotes { IfOk result (λ index. Denotes (scope_of self.new.defs) index
            (OfValues (ResourceAt (ImportedAt
            (record { number = imports_in self.old.defs; inner = None }))))) }
    {
        let index = self.component.import(name, Description::SubResource)?;
        Ok(index)
    }
}
