//! Instances: imports, and aliases of what an imported instance exports.
//!
//! These aliases are not found again: each call adds one. They have no debug names. Component model, explainer: import
//! and export definitions; alias definitions.
#![tactic(auto, using(crate::proofs::Extending::extending))]

ghost use Rattle.std.specs.Prelude.{◌≡◌, ℕ, List, [], IfOk, Some, None, slice_get};
ghost use Rattle.comp_bytes.specs.declared.types.Member.{Member};
ghost use Rattle.comp_builder.specs.Built.{Adds};
ghost use Rattle.comp_trees.specs.Trees.{FunctionTree};
ghost use Rattle.comp_trees.specs.DefinedTrees.{TypeTree, OfFunctions};
ghost use Rattle.comp_trees.specs.DefinedScopes.{Denotes};
ghost use Rattle.comp_trees.specs.Members.{member_trees, type_exported, function_exported};
ghost use Rattle.comp_inventories.specs.Inventories.{OfInstances, ImportedInstance, surroundings_of, inventory, scope_of};
ghost use Rattle.comp_terms.specs.Terms.{IsImportedFunction, imports_in};

use crate::items::ComponentItems;
use byte_encoding::BuildFault;
use comp_bytes::{Alias, ComponentExportKind, Def, Description, ExternName, Item, Space};
use comp_lists::Text;

impl ComponentItems {
    /// Adds an import of an instance of the type with this index. It is known by how many imports are before it.
    pub fn import_instance(&mut self, name: ExternName, ty: u32) -> Result<u32, BuildFault>
        ensures adds { Adds self.old self.new result Space.Instance
            (Def.Item (Item.Import name (Description.Instance ty))) None }
        ensures imported { IfOk result (λ index. (outer : List TypeTree) (members : List Member)
            → slice_get (inventory self.old.defs).types ty ≡ Some (OfInstances outer members)
            → slice_get (inventory self.new.defs).instances index
            ≡ Some (ImportedInstance (imports_in self.old.defs) outer members)) }
    {
        let index = self.component.import(name, Description::Instance(ty))?;
        Ok(index)
    }

    /// Adds an alias of the function that an instance exports under this name. Of an imported instance it is an
    /// imported function, known by the import of the instance and by this name.
    pub fn alias_function(&mut self, instance: u32, name: &Text) -> Result<u32, BuildFault>
        ensures adds { Adds self.old self.new result Space.Func
            (Def.Item (Item.Alias (Alias.Export ComponentExportKind.Func instance name.now))) None }
        ensures imported { IfOk result (λ index. (number : ℕ) (outer : List TypeTree)
            (members : List Member) (type : FunctionTree)
            → slice_get (inventory self.old.defs).instances instance
            ≡ Some (ImportedInstance number outer members)
            → function_exported (member_trees (surroundings_of number outer) [] members) name.now
            members
            ≡ OfFunctions type
            → IsImportedFunction self.new.defs index
            (record { number = number; inner = Some name.now }) type) }
    {
        let index = self
            .component
            .alias_export(instance, name.as_str(), ComponentExportKind::Func)?;
        Ok(index)
    }

    /// Adds an alias of the type that an instance exports under this name. Of an imported instance it is what the
    /// members of the instance's type say; a resource is known by the import of the instance and by this name.
    pub fn alias_type(&mut self, instance: u32, name: &Text) -> Result<u32, BuildFault>
        ensures adds { Adds self.old self.new result Space.Type
            (Def.Item (Item.Alias (Alias.Export ComponentExportKind.Type instance name.now))) None }
        ensures denotes { IfOk result (λ index. (number : ℕ) (outer : List TypeTree)
            (members : List Member)
            → slice_get (inventory self.old.defs).instances instance
            ≡ Some (ImportedInstance number outer members)
            → Denotes (scope_of self.new.defs) index (type_exported (surroundings_of number outer)
            (member_trees (surroundings_of number outer) [] members) name.now members)) }
    {
        let index = self
            .component
            .alias_export(instance, name.as_str(), ComponentExportKind::Type)?;
        Ok(index)
    }
}
