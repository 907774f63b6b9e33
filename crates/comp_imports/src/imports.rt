//! All that a component imports, in order.
#![tactic(auto, using(root_imports::proofs::Growth::growing))]

ghost use Rattle.std.specs.Prelude.{◌≡◌, IfOk, IfErr, OnOk};
ghost use Rattle.comp_items.specs.Items.{Extends};
ghost use Rattle.comp_terms.specs.Rules.{Grows, imports_marked};
ghost use Rattle.comp_terms.specs.Terms.{imports_in};
ghost use Rattle.comp_worlds.specs.Encodable.{IsEncodable};
ghost use Rattle.root_imports.specs.Imports.{FindsImports, FindsUsed};
ghost use Rattle.comp_imports.specs.Names.{naming_of};
ghost use Rattle.root_imports.specs.RootScopes.{AreTablesRight, ArePassed, IsRefusal};

use crate::import_names::ImportNames;
use crate::interfaces::import_interfaces;
use byte_encoding::BuildFault;
use comp_lists::{Keyed, Text};
use comp_worlds::ComponentWorld;
use root_imports::RootScope;

/// Imports the interfaces of which the component needs something, then the types of the world, and
/// then the root functions that imports of user modules use, each in the order of the world and
/// under its name; the names of interfaces are made by `names`. Returns the indices of the
/// functions by their names. What the scope knew before of types and instances is forgotten.
///
/// Refused when out of memory, and where a space would have more than 2^32 - 1 items.
pub fn import_all(
    root: &mut RootScope<'_, ComponentWorld>,
    names: &ImportNames<'_>,
) -> Result<Keyed<Text, u32>, BuildFault>
    requires valid { IsEncodable root.old.world.now }
    requires first { imports_in root.old.items.defs ≡ 0 }
    ensures world { root.new.world ≡ root.old.world }
    ensures extends { Extends root.old.items root.new.items }
    ensures grows { OnOk result (Grows root.old.world.now root.old.items.defs root.new.items.defs
        (imports_marked (naming_of names.now) root.old.world.now)) }
    ensures tables { OnOk result (AreTablesRight root.old.world.now root.new.met root.new.instances
        root.new.items.defs root.new.maps) }
    ensures passed { OnOk result (ArePassed root.old.world.now root.new.met) }
    ensures imports { IfOk result (FindsImports root.old.world.now root.new.items.defs) }
    ensures found { IfOk result (FindsUsed root.old.world.now) }
    ensures cause { IfErr result IsRefusal }
{
    import_interfaces(root, names)?;
    root.forget_types();
    root.import_types()?;
    let functions = root.import_functions()?;
    Ok(functions)
}
