//! Functions: imports, lowerings, lifts and exports.
#![tactic(auto, using(crate::proofs::Extending::extending))]

ghost use Rattle.std.specs.Prelude.{◌≡◌, ℕ, List, IfOk, Some, None, slice_get};
ghost use Rattle.std.specs.List.{AllZip};
ghost use Rattle.comp_bytes.specs.Spaces.{sort_space};
ghost use Rattle.comp_builder.specs.Built.{Adds, Full};
ghost use Rattle.comp_builder.specs.Optional.{option_now};
ghost use Rattle.comp_trees.specs.Trees.{Origin, FunctionTree};
ghost use Rattle.comp_trees.specs.DefinedTrees.{OfFunctions};
ghost use Rattle.comp_inventories.specs.Inventories.{inventory};
ghost use Rattle.comp_terms.specs.Terms.{CoreExport, TermOption, IsFunctionType, IsImportedFunction, IsExported, IsOption, IsLowering, IsLifting, imports_in};
ghost use Rattle.standard_kinds.specs.declared.kinds.ExportKind.TheVariants as kinds;

use crate::items::ComponentItems;
use byte_encoding::BuildFault;
use comp_bytes::{CanonicalOption, Def, Description, ExternName, Item, Sort, Space};
use comp_lists::Seq;

impl ComponentItems {
    /// Adds an import of a function of the type with this index. It is known by how many imports are before it.
    pub fn import_function(&mut self, name: ExternName, ty: u32) -> Result<u32, BuildFault>
        ensures adds { Adds self.old self.new result Space.Func
            (Def.Item (Item.Import name (Description.Func ty))) None }
        ensures imported { IfOk result (λ index. (type : FunctionTree)
            → IsFunctionType self.old.defs ty type
            → IsImportedFunction self.new.defs index
            (record { number = imports_in self.old.defs; inner = None }) type) }
    {
        let index = self.component.import(name, Description::Func(ty))?;
        Ok(index)
    }

    /// Adds a lowering of a function, with options.
    pub fn lower_function(
        &mut self,
        debug: Option<&str>,
        function: u32,
        options: Seq<CanonicalOption>,
    ) -> Result<u32, BuildFault>
        ensures adds { Adds self.old self.new result Space.CoreFunc
            (Def.Item (Item.Lower function options)) (option_now debug.entry) }
        ensures lowered { IfOk result (λ index. (origin : Origin) (type : FunctionTree)
            (written : List TermOption)
            → IsImportedFunction self.old.defs function origin type
            → AllZip (IsOption self.old.defs) options written
            → IsLowering self.new.defs index origin type written) }
    {
        let index = self.component.lower_func(debug, function, options)?;
        Ok(index)
    }

    /// Adds a lift of a core function to the type with this index, with options.
    pub fn lift_function(
        &mut self,
        debug: Option<&str>,
        core: u32,
        ty: u32,
        options: Seq<CanonicalOption>,
    ) -> Result<u32, BuildFault>
        ensures adds { Adds self.old self.new result Space.Func
            (Def.Item (Item.Lift core options ty)) (option_now debug.entry) }
        ensures lifted { IfOk result (λ index. (entry : CoreExport) (written : List TermOption)
            (type : FunctionTree)
            → entry.kind ≡ kinds.Func
            → IsExported self.old.defs core entry
            → AllZip (IsOption self.old.defs) options written
            → IsFunctionType self.old.defs ty type
            → IsLifting self.new.defs index entry written type) }
        ensures typed { IfOk result (λ index. (type : FunctionTree)
            → IsFunctionType self.old.defs ty type
            → slice_get (inventory self.new.defs).functions index
            ≡ Some (record { origin = None; type = OfFunctions type })) }
    {
        let index = self.component.lift_func(debug, core, ty, options)?;
        Ok(index)
    }

    /// Adds an export of an item, with a name of its own, and with no description.
    pub fn export(&mut self, name: ExternName, sort: Sort, index: u32) -> Result<u32, BuildFault>
        ensures adds { Adds self.old self.new result (sort_space sort)
            (Def.Item (Item.Export name sort index None)) None }
    {
        let index = self.component.export(name, sort, index, None)?;
        Ok(index)
    }
}
