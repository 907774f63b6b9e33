//! A scope in which types are defined.

ghost use Rattle.std.specs.Prelude.{◌≡◌, ◌<◌, ℕ, List, length, get_or, Some, true, IsTrue, IfOk, IfErr};
ghost use Rattle.std.specs.Borrow.{sem, Lends};
ghost use Rattle.comp_bytes.specs.References.{defined_references, type_references};
ghost use Rattle.comp_bytes.specs.declared.types.TypeDef.TheVariants as definitions;
ghost use Rattle.comp_trees.specs.Trees.{ResourceAt, is_known, is_known_function};
ghost use Rattle.comp_trees.specs.DefinedTrees.{TypeTree, OfValues, OfFunctions, OfOthers, defined_tree, function_tree};
ghost use Rattle.wit_data.specs.declared.types.Type.TheVariants.{Id};
ghost use Rattle.wit_types.specs.Settings.{Setting, tree_in, NamesType};
ghost use Rattle.wit_types.specs.Denoting.{AreTypes, Makes, MayMake, IsCause, exported_or};
ghost use Rattle.wit_types.specs.contracts.maps.TypeEncodingMaps.{the_row as maps_row};

use crate::maps::TypeEncodingMaps;
use byte_encoding::BuildFault;
use comp_bytes::{DefinedType, ExternName, FuncTypeDef};
use wit_data::{InterfaceId, TypeId};

/// A scope in which types are defined: a component, or an instance type. A call that defines,
/// exports or imports a type adds that type at the end of the scope, and no other.
pub trait ValtypeEncoder {
    ghost use Rattle.wit_types.specs.declared.maps.TypeEncodingMaps.{TypeEncodingMaps};

    /// What the definitions take as given. It stays the same.
    ghost setting: { Self → Setting };

    /// What each type index denotes.
    ghost scope: { Self → List TypeTree };

    /// The tables, and the scope with other ones.
    ghost maps: { Self → TypeEncodingMaps };

    ghost with_maps: { Self → TypeEncodingMaps → Self };

    /// What else holds between a scope and one that it has become.
    ghost follows: { Self → Self → Type 0 };

    /// Which index a name has: that of the export, or that of the type in a scope that doesn't export it.
    ghost names: { Self → List ℕ → ℕ → Type 0 };

    /// What is known of that from which types of other interfaces are imported.
    ghost offers: { Self → Type 0 };

    /// The counts for which a call may refuse, and leave the scope so.
    ghost refuses: { Self → ℕ → Type 0 };

    ghost follows_itself: { (e : Self) → follows e e };

    ghost follows_on: { (a b c : Self) → follows a b → follows b c → follows a c };

    ghost names_kept: { (a b : Self) → follows a b → (name : List ℕ) → (index : ℕ) → names a name index → names b name index };

    ghost offers_kept: { (a b : Self) → follows a b → offers a → offers b };

    ghost follows_maps: { (e : Self) → (m : TypeEncodingMaps) → follows e (with_maps e m) };

    ghost maps_given: { (e : Self) → (m : TypeEncodingMaps) → maps (with_maps e m) ≡ m };

    ghost scope_kept: { (e : Self) → (m : TypeEncodingMaps) → scope (with_maps e m) ≡ scope e };

    ghost setting_kept: { (e : Self) → (m : TypeEncodingMaps) → setting (with_maps e m) ≡ setting e };

    /// Defines a type of values, in which nothing is unknown.
    fn defined_type(&mut self, ty: DefinedType) -> Result<u32, BuildFault>
        requires present { AreTypes (length (scope self.old)) (defined_references ty) }
        requires known { is_known (defined_tree (scope self.old) ty) ≡ true }
        ensures makes { Makes (scope self.old) (scope self.new) result
            (OfValues (defined_tree (scope self.old) ty)) }
        ensures setting { setting self.new ≡ setting self.old }
        ensures maps { maps self.new ≡ maps self.old }
        ensures follows { follows self.old self.new }
        ensures cause { IfErr result (IsCause refuses self.new) };

    /// Defines a type of functions, in which nothing is unknown.
    fn define_function_type(&mut self, ty: FuncTypeDef) -> Result<u32, BuildFault>
        requires present { AreTypes (length (scope self.old))
            (type_references (definitions.Func ty)) }
        requires known { is_known_function (function_tree (scope self.old) ty) ≡ true }
        ensures makes { Makes (scope self.old) (scope self.new) result
            (OfFunctions (function_tree (scope self.old) ty)) }
        ensures setting { setting self.new ≡ setting self.old }
        ensures maps { maps self.new ≡ maps self.old }
        ensures follows { follows self.old self.new }
        ensures cause { IfErr result (IsCause refuses self.new) };

    /// Exports a type under its name, where the scope exports its types, and returns the index of the export.
    fn export_type(&mut self, index: u32, name: ExternName) -> Result<Option<u32>, BuildFault>
        requires present { index < length (scope self.old) }
        requires named { NamesType (setting self.old) name
            (get_or (scope self.old) index OfOthers) }
        ensures names { IfOk result
            (λ exported. names self.new name.name (exported_or exported index)) }
        ensures makes { MayMake (scope self.old) (scope self.new) result
            (get_or (scope self.old) index OfOthers) }
        ensures setting { setting self.new ≡ setting self.old }
        ensures maps { maps self.new ≡ maps self.old }
        ensures follows { follows self.old self.new }
        ensures cause { IfErr result (IsCause refuses self.new) };

    /// Exports the resource that is known by a name.
    fn export_resource(&mut self, name: ExternName) -> Result<u32, BuildFault>
        requires may { IsTrue ((setting self.old).may_export name.name) }
        requires named { NamesType (setting self.old) name
            (OfValues (ResourceAt ((setting self.old).resource name.name))) }
        ensures names { IfOk result (λ index. names self.new name.name index) }
        ensures makes { Makes (scope self.old) (scope self.new) result
            (OfValues (ResourceAt ((setting self.old).resource name.name))) }
        ensures setting { setting self.new ≡ setting self.old }
        ensures maps { maps self.new ≡ maps self.old }
        ensures follows { follows self.old self.new }
        ensures cause { IfErr result (IsCause refuses self.new) };

    /// Imports a type of another interface.
    fn import_type(&mut self, interface: InterfaceId, id: TypeId) -> Result<u32, BuildFault>
        requires may { IsTrue ((setting self.old).may_import interface id) }
        requires offers { offers self.old }
        ensures makes { Makes (scope self.old) (scope self.new) result
            (OfValues (tree_in (setting self.old) (Some (Id id)))) }
        ensures setting { setting self.new ≡ setting self.old }
        ensures maps { maps self.new ≡ maps self.old }
        ensures follows { follows self.old self.new }
        ensures cause { IfErr result (IsCause refuses self.new) };

    /// The tables of the types that were met.
    fn type_encoding_maps(&mut self) -> &mut TypeEncodingMaps
        ensures now { result.now ≡ maps self.old }
        ensures* lends { sem 𝓛 (Lends Self.row maps_row self.entry result (with_maps self.old)) };

    /// The interface whose types are defined here.
    fn interface(&self) -> Option<InterfaceId>
        ensures { result ≡ (setting self.now).interface };
}
