//! Built-in functions of streams and futures.
//!
//! Canonical ABI: `canon stream.new`, `canon future.new` and their neighbours.
#![tactic(auto, using(comp_items::proofs::Extending::extends_none, comp_items::proofs::Extending::extends_same, comp_items::proofs::Extending::extends_then))]

ghost use Rattle.std.specs.Prelude.{◌≡◌, false, [], List, Some, unwrap_or, IfOk, IfErr, OnOk, IsSome};
ghost use Rattle.std.specs.List.{AllByRecursion};
ghost use Rattle.std.specs.Option.{option_and_then};
ghost use Rattle.built_ins.specs.Payloads.{PayloadCall, named_call, called_payload, is_access};
ghost use Rattle.comp_bytes.specs.declared.types.ComponentValType.TheVariants.{Defined};
ghost use Rattle.comp_inventories.specs.Inventories.{scope_of};
ghost use Rattle.comp_items.specs.Items.{Extends};
ghost use Rattle.comp_links.specs.Roles.{encodings_of, payload_encoding};
ghost use Rattle.comp_links.specs.Targets.{TargetOption};
ghost use Rattle.comp_roles.specs.Functions.{of_function};
ghost use Rattle.comp_terms.specs.Rules.{Grows, IsOptionRight};
ghost use Rattle.comp_terms.specs.Terms.{IsBuiltIn};
ghost use Rattle.comp_trees.specs.DefinedScopes.{Denotes};
ghost use Rattle.comp_trees.specs.DefinedTrees.{OfValues};
ghost use Rattle.comp_trees.specs.Operands.{operand_in};
ghost use Rattle.comp_trees.specs.Trees.{Tree};
ghost use Rattle.comp_worlds.specs.Encodable.{IsEncodable};
ghost use Rattle.comp_worlds.specs.Payloads.{payload_scope};
ghost use Rattle.core_options.specs.MainOptions.{NameOptions, IsPayloadFunction, IsAccess, access_intrinsic};
ghost use Rattle.interface_needs.specs.RootNeeds.{IsPayloadFor};
ghost use Rattle.root_imports.specs.Keeping.{RootKept};
ghost use Rattle.root_imports.specs.Met.{IsSuppliedFor};
ghost use Rattle.root_imports.specs.RootScopes.{AreTablesRight, ArePassed, IsRefusal};
ghost use Rattle.standard_kinds.specs.declared.kinds.StringEncoding.TheVariants.{UTF8};

use crate::options::encoding_of;
use built_ins::payload_intrinsic;
use byte_encoding::BuildFault;
use comp_bytes::{CanonicalOption, Intrinsic};
use comp_lists::{Keyed, Seq, Text};
use comp_worlds::{
    ComponentWorld, FunctionKey, Import, PayloadFuncKind, PayloadInfo, PayloadType, ValidatedModule,
};
use root_imports::RootScope;
use standard_kinds::StringEncoding;
use std::alloc::{AllocError, Global};
use wit_data::WorldKey;

/// The function that an import of this role is given, where its type is at this index.
fn function_of_type(
    root: &mut RootScope<'_, ComponentWorld>,
    role: &Import,
    ty: u32,
) -> Result<u32, BuildFault>
    requires called { IsSome (called_payload role.now) }
    requires apart { is_access role.now ≡ false }
    requires known { IsSome (operand_in (scope_of root.old.items.defs) (Some (Defined ty))) }
    ensures same { root.new ≡ record root.old { items = root.new.items } }
    ensures extends { Extends root.old.items root.new.items }
    ensures grows { OnOk result
        (Grows root.old.world.now root.old.items.defs root.new.items.defs []) }
    ensures made { IfOk result (λ index. (c : PayloadCall) (tree : Tree)
        → named_call role.now ≡ Some c
        → Denotes (scope_of root.old.items.defs) ty (OfValues tree)
        → IsBuiltIn root.new.items.defs index c.intrinsic (Some tree) []) }
    ensures cause { IfErr result IsRefusal }
{
    match payload_intrinsic(role, ty) {
        Some(intrinsic) => {
            let index = root.items.built_in(intrinsic)?;
            Ok(index)
        }
        None => unreachable!(),
    }
}

/// The function of a stream or a future that an import of this role is given, which has no options
/// (`canon stream.new` and its neighbours). The type of the stream or the future is defined, where it
/// is not yet.
pub fn payload_function(
    root: &mut RootScope<'_, ComponentWorld>,
    role: &Import,
    info: &PayloadInfo,
) -> Result<u32, BuildFault>
    requires valid { IsEncodable root.old.world.now }
    requires called { called_payload role.now ≡ Some info.now }
    requires apart { is_access role.now ≡ false }
    requires of { IsPayloadFor root.old.world.now (payload_scope info.now) info.now.ty }
    requires passed { ArePassed root.old.world.now root.old.met }
    requires supplied { IsSuppliedFor root.old.world.now root.old.met (payload_scope info.now) }
    requires tables { AreTablesRight root.old.world.now root.old.met root.old.instances
        root.old.items.defs root.old.maps }
    ensures kept { RootKept root.old.world.now root.old root.new }
    ensures grows { OnOk result
        (Grows root.old.world.now root.old.items.defs root.new.items.defs []) }
    ensures made { IfOk result (λ index. (c : PayloadCall) → named_call role.now ≡ Some c
        → IsPayloadFunction root.old.world.now root.new.items.defs c index) }
    ensures cause { IfErr result IsRefusal }
{
    let ty = root.payload_type(info)?;
    let index = function_of_type(root, role, ty)?;
    Ok(index)
}

/// The built-in function that reads or writes, of the type at this index, with these options.
fn access_of_type(kind: PayloadFuncKind, ty: u32, options: Seq<CanonicalOption>) -> Intrinsic
    ensures { result ≡ access_intrinsic kind ty options }
{
    match kind {
        PayloadFuncKind::FutureRead => Intrinsic::FutureRead { ty, options },
        PayloadFuncKind::FutureWrite => Intrinsic::FutureWrite { ty, options },
        PayloadFuncKind::StreamRead => Intrinsic::StreamRead { ty, options },
        PayloadFuncKind::StreamWrite => Intrinsic::StreamWrite { ty, options },
    }
}

/// A read from a stream or a future, or a write to it, with these options (`canon stream.read` and its
/// neighbours). The type of the stream or the future is defined, where it is not yet.
pub fn access_function(
    root: &mut RootScope<'_, ComponentWorld>,
    info: &PayloadInfo,
    kind: PayloadFuncKind,
    options: Seq<CanonicalOption>,
) -> Result<u32, BuildFault>
    requires valid { IsEncodable root.old.world.now }
    requires of { IsPayloadFor root.old.world.now (payload_scope info.now) info.now.ty }
    requires passed { ArePassed root.old.world.now root.old.met }
    requires supplied { IsSuppliedFor root.old.world.now root.old.met (payload_scope info.now) }
    requires tables { AreTablesRight root.old.world.now root.old.met root.old.instances
        root.old.items.defs root.old.maps }
    requires options { AllByRecursion (IsOptionRight root.old.items.defs) options }
    ensures kept { RootKept root.old.world.now root.old root.new }
    ensures grows { OnOk result
        (Grows root.old.world.now root.old.items.defs root.new.items.defs []) }
    ensures made { IfOk result (λ index. (wanted : List TargetOption)
        → NameOptions root.old.world.now root.old.items.defs options wanted
        → IsAccess root.old.world.now root.new.items.defs kind info.now.ty wanted index) }
    ensures cause { IfErr result IsRefusal }
{
    let ty = root.payload_type(info)?;
    let intrinsic = access_of_type(kind, ty, options);
    let index = root.items.built_in(intrinsic)?;
    Ok(index)
}

/// The string encodings of the functions that a module imports, or of those that it exports.
fn encodings_of(found: &ValidatedModule, imported: bool) -> &Keyed<FunctionKey, StringEncoding>
    ensures { result.now ≡ encodings_of imported found.now }
{
    if imported {
        &found.metadata.import_encodings
    } else {
        &found.metadata.export_encodings
    }
}

/// The string encoding of the function of this name at a key, if there is a key, and it has one.
fn encoding_at(
    alloc: Global,
    encodings: &Keyed<FunctionKey, StringEncoding>,
    key: &Option<WorldKey>,
    function: &Text,
) -> Result<Option<StringEncoding>, AllocError>
    ensures { IfOk result (λ encoding. encoding
        ≡ option_and_then (λ key. of_function key function.now encodings.now) key.now) }
{
    match key {
        Some(key) => encoding_of(alloc, encodings, key, function),
        None => Ok(None),
    }
}

fn or_utf8(known: Option<StringEncoding>) -> StringEncoding
    ensures { result ≡ unwrap_or known UTF8 }
{
    match known {
        Some(encoding) => encoding,
        None => StringEncoding::UTF8,
    }
}

/// The string encoding with which a module reads from a stream or a future, or writes to it: that of
/// the function of which it is, as the module imports or exports that. Where it passes nothing, or
/// the function has none, any would do.
pub fn payload_encoding(
    alloc: Global,
    found: &ValidatedModule,
    info: &PayloadInfo,
) -> Result<StringEncoding, AllocError>
    ensures { IfOk result (λ encoding. encoding
        ≡ payload_encoding info.now info.now.ty found.now) }
{
    match &info.ty {
        PayloadType::Typed { function, .. } => {
            let encodings = encodings_of(found, info.imported);
            let known = encoding_at(alloc, encodings, &info.key, function)?;
            Ok(or_utf8(known))
        }
        PayloadType::UnitFuture | PayloadType::UnitStream => Ok(StringEncoding::UTF8),
    }
}
