//! The names of definitions, one definition after the other.

ghost use Rattle.std.specs.Prelude.{◌≡◌, List, ℕ, [], ◌∷◌};
ghost use Rattle.std.specs.List.{flat_map};
ghost use Rattle.comp_bytes.specs.ScopeNames.{inner_names, member_export};
ghost use Rattle.comp_names.specs.Names.{item_extern_names};
ghost use Rattle.comp_names.specs.Judged.{Judges};

use crate::fault::NameFault;
use crate::form::is_formed;
use crate::listing::apart;
use crate::lists::{Entries, Exports, Imports};
use comp_bytes::{
    Argument, CoreArgument, CoreInlineExport, Def, ExternName, InstanceType, Item, Member,
};
use std::alloc::Global;

/// A definition with names: lists in which each name has to be distinct, and names of imports and exports,
/// which have to be well formed.
pub(crate) trait Named {
    ghost lists: { Self → List (List (List ℕ)) };

    ghost externs: { Self → List (List ℕ) };

    fn check(&self, alloc: Global) -> Result<(), NameFault>
        ensures { Judges (lists self.now) (externs self.now) result };
}

/// Whether the names of all entries are right.
pub(crate) fn each<T: Named>(alloc: Global, entries: &[T]) -> Result<(), NameFault>
    ensures { Judges (flat_map T.lists entries.now) (flat_map T.externs entries.now) result }
{
    for entry in entries {
        entry.check(alloc)?;
    }
    Ok(())
}

/// Whether the name of an import or an export is well formed.
fn form(alloc: Global, name: &ExternName) -> Result<(), NameFault>
    ensures { Judges [] (name.now.name ∷ []) result }
{
    if is_formed(alloc, name.name.as_str())? {
        Ok(())
    } else {
        Err(NameFault::Form {
            name: name.name.clone(alloc)?,
        })
    }
}

impl Named for Member {
    ghost lists = { λ m. [] };

    ghost externs = { member_export };

    fn check(&self, alloc: Global) -> Result<(), NameFault> {
        match self {
            Member::Export { name, .. } => form(alloc, name),
            _ => Ok(()),
        }
    }
}

/// Whether the names of an instance type are right.
fn instance_type(alloc: Global, ty: &InstanceType) -> Result<(), NameFault>
    ensures { Judges (flat_map member_export ty.now.members ∷ [])
        (flat_map member_export ty.now.members) result }
{
    let members = ty.members.as_slice();
    apart::<Member, Exports>(alloc, members)?;
    each::<Member>(alloc, members)
}

impl Named for Item {
    ghost use Rattle.comp_bytes.specs.ScopeNames.{item_names};

    ghost lists = { item_names };

    ghost externs = { item_extern_names };

    fn check(&self, alloc: Global) -> Result<(), NameFault> {
        match self {
            Item::CoreInstantiate { args, .. } => {
                apart::<CoreArgument, Entries>(alloc, args.as_slice())
            }
            Item::CoreExports(entries) => {
                apart::<CoreInlineExport, Entries>(alloc, entries.as_slice())
            }
            Item::Instantiate { args, .. } => apart::<Argument, Entries>(alloc, args.as_slice()),
            Item::InstanceType(ty) => instance_type(alloc, ty),
            Item::Import { name, .. } => form(alloc, name),
            Item::Export { name, .. } => form(alloc, name),
            _ => Ok(()),
        }
    }
}

/// Whether the names of a nested component are right.
fn nested(alloc: Global, inner: &[Item]) -> Result<(), NameFault>
    ensures { Judges (inner_names inner.now) (flat_map item_extern_names inner.now) result }
{
    apart::<Item, Imports>(alloc, inner)?;
    apart::<Item, Exports>(alloc, inner)?;
    each::<Item>(alloc, inner)
}

impl Named for Def {
    ghost use Rattle.comp_bytes.specs.ScopeNames.{def_names};
    ghost use Rattle.comp_names.specs.Names.{def_extern_names};

    ghost lists = { def_names };

    ghost externs = { def_extern_names };

    fn check(&self, alloc: Global) -> Result<(), NameFault> {
        match self {
            Def::Item(item) => item.check(alloc),
            Def::Component(inner) => nested(alloc, inner.as_slice()),
        }
    }
}
