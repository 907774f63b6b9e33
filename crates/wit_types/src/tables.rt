//! What the tables of a scope have, and what is added to them.

ghost use Rattle.std.specs.Prelude.{◌≡◌, ℕ, map, Some, None, false, OnOk};
ghost use Rattle.std.specs.Option.{IfSome};
ghost use Rattle.comp_trees.specs.WitTrees.{kind_tree};
ghost use Rattle.comp_trees.specs.DefinedTrees.{OfValues, OfFunctions};
ghost use Rattle.wit_data.specs.Parts.{parts};
ghost use Rattle.wit_data.specs.declared.types.Type.TheVariants.{Id};
ghost use Rattle.wit_types.specs.Settings.{tree_in};
ghost use Rattle.comp_trees.specs.DefinedScopes.{Denotes};
ghost use Rattle.wit_types.specs.Maps.{Faithful, HasIndex, IsNamed, key_tree};

use crate::encoder::ValtypeEncoder;
use crate::maps::FuncTypeKey;
use std::alloc::AllocError;
use wit_data::{TypeDefKind, TypeId};

/// The index of a type that was met.
pub(crate) fn met_type<E: ValtypeEncoder>(encoder: &mut E, id: TypeId) -> Option<u32>
    requires faithful { Faithful (E.setting encoder.old) (E.scope encoder.old) (E.names encoder.old)
        (E.offers encoder.old) (E.maps encoder.old) }
    ensures denotes { IfSome result (λ index. Denotes (E.scope encoder.old) index
        (OfValues (tree_in (E.setting encoder.old) (Some (Id id))))) }
    ensures recorded { IfSome result (λ index. HasIndex (E.maps encoder.new) id) }
    ensures named { IfSome result
        (λ index. IsNamed (E.setting encoder.old) (E.names encoder.new) id index) }
    ensures unmet { result ≡ None → (E.setting encoder.old).met id ≡ false }
    ensures scope { E.scope encoder.new ≡ E.scope encoder.old }
    ensures setting { E.setting encoder.new ≡ E.setting encoder.old }
    ensures faithful { Faithful (E.setting encoder.new) (E.scope encoder.new) (E.names encoder.new)
        (E.offers encoder.new) (E.maps encoder.new) }
    ensures follows { E.follows encoder.old encoder.new }
{
    encoder.type_encoding_maps().type_index(id)
}

/// Records the index of a type that was met.
pub(crate) fn record_type<E: ValtypeEncoder>(
    encoder: &mut E,
    id: TypeId,
    index: u32,
) -> Result<(), AllocError>
    requires faithful { Faithful (E.setting encoder.old) (E.scope encoder.old) (E.names encoder.old)
        (E.offers encoder.old) (E.maps encoder.old) }
    requires denotes { Denotes (E.scope encoder.old) index
        (OfValues (tree_in (E.setting encoder.old) (Some (Id id)))) }
    requires named { IsNamed (E.setting encoder.old) (E.names encoder.old) id index }
    ensures recorded { OnOk result (HasIndex (E.maps encoder.new) id) }
    ensures named { IsNamed (E.setting encoder.old) (E.names encoder.new) id index }
    ensures scope { E.scope encoder.new ≡ E.scope encoder.old }
    ensures setting { E.setting encoder.new ≡ E.setting encoder.old }
    ensures faithful { Faithful (E.setting encoder.new) (E.scope encoder.new) (E.names encoder.new)
        (E.offers encoder.new) (E.maps encoder.new) }
    ensures follows { E.follows encoder.old encoder.new }
{
    encoder.type_encoding_maps().record_type(id, index)
}

/// The index of a type without a name of this kind that was met.
pub(crate) fn met_kind<E: ValtypeEncoder>(encoder: &mut E, kind: &TypeDefKind) -> Option<u32>
    requires faithful { Faithful (E.setting encoder.old) (E.scope encoder.old) (E.names encoder.old)
        (E.offers encoder.old) (E.maps encoder.old) }
    ensures denotes { IfSome result (λ index. (n : ℕ)
        → Denotes (E.scope encoder.old) index (OfValues (kind_tree (E.setting encoder.old).origin n
        kind.now (map (tree_in (E.setting encoder.old)) (parts kind.now))))) }
    ensures scope { E.scope encoder.new ≡ E.scope encoder.old }
    ensures setting { E.setting encoder.new ≡ E.setting encoder.old }
    ensures faithful { Faithful (E.setting encoder.new) (E.scope encoder.new) (E.names encoder.new)
        (E.offers encoder.new) (E.maps encoder.new) }
    ensures follows { E.follows encoder.old encoder.new }
{
    encoder.type_encoding_maps().kind_index(kind)
}

/// Records the index of a type without a name that was met, by its kind.
pub(crate) fn record_kind<E: ValtypeEncoder>(
    encoder: &mut E,
    kind: TypeDefKind,
    index: u32,
) -> Result<(), AllocError>
    requires faithful { Faithful (E.setting encoder.old) (E.scope encoder.old) (E.names encoder.old)
        (E.offers encoder.old) (E.maps encoder.old) }
    requires denotes { (n : ℕ)
        → Denotes (E.scope encoder.old) index (OfValues (kind_tree (E.setting encoder.old).origin n
        kind (map (tree_in (E.setting encoder.old)) (parts kind)))) }
    ensures scope { E.scope encoder.new ≡ E.scope encoder.old }
    ensures setting { E.setting encoder.new ≡ E.setting encoder.old }
    ensures faithful { Faithful (E.setting encoder.new) (E.scope encoder.new) (E.names encoder.new)
        (E.offers encoder.new) (E.maps encoder.new) }
    ensures follows { E.follows encoder.old encoder.new }
{
    encoder.type_encoding_maps().record_kind(kind, index)
}

/// The index of the type of functions of this key that was met.
pub(crate) fn met_function<E: ValtypeEncoder>(encoder: &mut E, key: &FuncTypeKey) -> Option<u32>
    requires faithful { Faithful (E.setting encoder.old) (E.scope encoder.old) (E.names encoder.old)
        (E.offers encoder.old) (E.maps encoder.old) }
    ensures denotes { IfSome result (λ index. Denotes (E.scope encoder.old) index
        (OfFunctions (key_tree (E.setting encoder.old) key.now))) }
    ensures scope { E.scope encoder.new ≡ E.scope encoder.old }
    ensures setting { E.setting encoder.new ≡ E.setting encoder.old }
    ensures faithful { Faithful (E.setting encoder.new) (E.scope encoder.new) (E.names encoder.new)
        (E.offers encoder.new) (E.maps encoder.new) }
    ensures follows { E.follows encoder.old encoder.new }
{
    encoder.type_encoding_maps().function_index(key)
}

/// Records the index of the type of functions that was met, by its key.
pub(crate) fn record_function<E: ValtypeEncoder>(
    encoder: &mut E,
    key: FuncTypeKey,
    index: u32,
) -> Result<(), AllocError>
    requires faithful { Faithful (E.setting encoder.old) (E.scope encoder.old) (E.names encoder.old)
        (E.offers encoder.old) (E.maps encoder.old) }
    requires denotes { Denotes (E.scope encoder.old) index
        (OfFunctions (key_tree (E.setting encoder.old) key)) }
    ensures scope { E.scope encoder.new ≡ E.scope encoder.old }
    ensures setting { E.setting encoder.new ≡ E.setting encoder.old }
    ensures faithful { Faithful (E.setting encoder.new) (E.scope encoder.new) (E.names encoder.new)
        (E.offers encoder.new) (E.maps encoder.new) }
    ensures follows { E.follows encoder.old encoder.new }
{
    encoder.type_encoding_maps().record_function(key, index)
}
