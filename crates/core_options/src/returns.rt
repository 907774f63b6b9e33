//! Returns from functions that the world exports.
//!
//! Canonical ABI: `canon task.return`.
#![tactic(auto, using(comp_items::proofs::Extending::extends_none, comp_items::proofs::Extending::extends_same, comp_items::proofs::Extending::extends_then))]

ghost use Rattle.std.specs.Prelude.{[], List, IfOk, IfErr, OnOk};
ghost use Rattle.std.specs.List.{AllByRecursion};
ghost use Rattle.comp_links.specs.Targets.{TargetOption};
ghost use Rattle.comp_terms.specs.Rules.{Grows, IsOptionRight};
ghost use Rattle.comp_worlds.specs.Encodable.{IsEncodable};
ghost use Rattle.core_options.specs.MainOptions.{NameOptions, IsReturn};
ghost use Rattle.root_imports.specs.Imports.{IsResult};
ghost use Rattle.root_imports.specs.Keeping.{RootKept};
ghost use Rattle.root_imports.specs.Met.{IsSuppliedFor};
ghost use Rattle.root_imports.specs.RootScopes.{AreTablesRight, ArePassed, IsRefusal};

use byte_encoding::BuildFault;
use comp_bytes::{CanonicalOption, Intrinsic};
use comp_lists::Seq;
use comp_worlds::ComponentWorld;
use root_imports::RootScope;
use wit_data::{InterfaceId, Type};

/// The return of a result of this type, with these options (`canon task.return`), from a function of
/// an exported interface; or, where no interface is given, from one at the root that is exported.
pub fn return_from(
    root: &mut RootScope<'_, ComponentWorld>,
    interface: Option<InterfaceId>,
    ty: Option<Type>,
    options: Seq<CanonicalOption>,
) -> Result<u32, BuildFault>
    requires valid { IsEncodable root.old.world.now }
    requires of { IsResult root.old.world.now interface ty }
    requires passed { ArePassed root.old.world.now root.old.met }
    requires supplied { IsSuppliedFor root.old.world.now root.old.met interface }
    requires tables { AreTablesRight root.old.world.now root.old.met root.old.instances
        root.old.items.defs root.old.maps }
    requires options { AllByRecursion (IsOptionRight root.old.items.defs) options }
    ensures kept { RootKept root.old.world.now root.old root.new }
    ensures grows { OnOk result
        (Grows root.old.world.now root.old.items.defs root.new.items.defs []) }
    ensures returned { IfOk result (λ index. (wanted : List TargetOption)
        → NameOptions root.old.world.now root.old.items.defs options wanted
        → IsReturn root.old.world.now root.new.items.defs ty wanted index) }
    ensures cause { IfErr result IsRefusal }
{
    let returned = root.result_type(interface, ty)?;
    let index = root.items.built_in(Intrinsic::TaskReturn {
        result: returned,
        options,
    })?;
    Ok(index)
}
