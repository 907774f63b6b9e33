//! Types of functions in a scope.

ghost use Rattle.std.specs.Prelude.{◌≡◌, IfOk, IfErr, IsTrue, Some, length, true, map, option_map, option_to_list};
ghost use Rattle.std.specs.List.{AllByRecursion};
ghost use Rattle.comp_bytes.specs.References.{type_references};
ghost use Rattle.comp_bytes.specs.declared.types.TypeDef.TheVariants as definitions;
ghost use Rattle.comp_trees.specs.WitTrees.{is_async};
ghost use Rattle.comp_trees.specs.DefinedTrees.{OfFunctions, function_tree};
ghost use Rattle.wit_data.specs.Parts.{RefersBack, IsBelow};
ghost use Rattle.wit_types.specs.Settings.{tree_in};
ghost use Rattle.comp_trees.specs.DefinedScopes.{Denotes};
ghost use Rattle.wit_types.specs.Denoting.{Longer, AddsOne, AreTypes, IsCause};
ghost use Rattle.wit_types.specs.Order.{IsEncoded, AreEncoded, AddsFunction, MayAddFunction};
ghost use Rattle.wit_types.specs.Definitions.{PartDenotes};
ghost use Rattle.wit_types.specs.Maps.{Faithful, key_params, key_of, key_tree};
ghost use Rattle.wit_types.specs.Functions.{FieldDenotes, FieldsDenote};
ghost use Rattle.wit_types.specs.Allowing.{is_allowed, MayEncode};

use crate::encoder::ValtypeEncoder;
use crate::encoding::encode_type;
use crate::maps::FuncTypeKey;
use crate::tables::{met_function, record_function};
use byte_encoding::BuildFault;
use comp_bytes::{ComponentValType, Field, FuncTypeDef};
use comp_lists::Seq;
use std::alloc::{AllocError, Global};
use wit_data::{Field as WitField, Function, FunctionKind, Param, Type, TypeDef};

/// The index of the type of a function.
pub(crate) fn encode_function<E: ValtypeEncoder>(
    alloc: Global,
    encoder: &mut E,
    types: &[TypeDef],
    function: &Function,
) -> Result<u32, BuildFault>
    requires back { RefersBack types.now }
    requires same { (E.setting encoder.old).types ≡ types.now }
    requires faithful { Faithful (E.setting encoder.old) (E.scope encoder.old) (E.names encoder.old)
        (E.offers encoder.old) (E.maps encoder.old) }
    requires params { AllByRecursion (λ p. MayEncode (E.setting encoder.old) types.now (Some p.ty))
        (key_of function.now).params }
    requires result { MayEncode (E.setting encoder.old) types.now function.now.result }
    ensures denotes { IfOk result (λ index. Denotes (E.scope encoder.new) index
        (OfFunctions (key_tree (E.setting encoder.old) (key_of function.now)))) }
    ensures adds { IfOk result (λ index. MayAddFunction (E.scope encoder.old) (E.scope encoder.new)
        (key_tree (E.setting encoder.old) (key_of function.now))) }
    ensures grows { Longer (E.scope encoder.old) (E.scope encoder.new) }
    ensures setting { E.setting encoder.new ≡ E.setting encoder.old }
    ensures faithful { Faithful (E.setting encoder.new) (E.scope encoder.new) (E.names encoder.new)
        (E.offers encoder.new) (E.maps encoder.new) }
    ensures follows { E.follows encoder.old encoder.new }
    ensures cause { IfErr result (IsCause E.refuses encoder.new) }
{
    let key = function_key(alloc, function)?;
    match met_function(encoder, &key) {
        Some(index) => Ok(index),
        None => encode_key(alloc, encoder, types, key),
    }
}

/// What the type of a function is made of.
fn function_key(alloc: Global, function: &Function) -> Result<FuncTypeKey, AllocError>
    ensures { IfOk result (λ key. key ≡ key_of function.now) }
{
    Ok(FuncTypeKey {
        params: key_params(alloc, function.params.as_slice())?,
        result: function.result,
        is_async: is_async(function.kind),
    })
}

/// The names and types of parameters.
fn key_params(alloc: Global, params: &[Param]) -> Result<Seq<WitField>, AllocError>
    ensures { IfOk result (λ fields. fields ≡ key_params params.now) }
{
    let mut fields = Seq::new(alloc);
    for param in params {
        let name = param.name.clone(alloc)?;
        fields.push(WitField { name, ty: param.ty })?;
    }
    Ok(fields)
}

/// Whether a function of this kind is asynchronous.
fn is_async(kind: FunctionKind) -> bool
    ensures { result ≡ is_async kind }
{
    match kind {
        FunctionKind::Freestanding => false,
        FunctionKind::AsyncFreestanding => true,
        FunctionKind::Method(_) => false,
        FunctionKind::AsyncMethod(_) => true,
        FunctionKind::Static(_) => false,
        FunctionKind::AsyncStatic(_) => true,
        FunctionKind::Constructor(_) => false,
    }
}

/// The index of the type of functions of a key that was not met.
fn encode_key<E: ValtypeEncoder>(
    alloc: Global,
    encoder: &mut E,
    types: &[TypeDef],
    key: FuncTypeKey,
) -> Result<u32, BuildFault>
    requires back { RefersBack types.now }
    requires same { (E.setting encoder.old).types ≡ types.now }
    requires faithful { Faithful (E.setting encoder.old) (E.scope encoder.old) (E.names encoder.old)
        (E.offers encoder.old) (E.maps encoder.old) }
    requires params { AllByRecursion (λ p. MayEncode (E.setting encoder.old) types.now (Some p.ty))
        key.params }
    requires result { MayEncode (E.setting encoder.old) types.now key.result }
    ensures denotes { IfOk result (λ index. Denotes (E.scope encoder.new) index
        (OfFunctions (key_tree (E.setting encoder.old) key))) }
    ensures adds { IfOk result (λ index. AddsFunction (E.scope encoder.old) (E.scope encoder.new)
        (key_tree (E.setting encoder.old) key)) }
    ensures grows { Longer (E.scope encoder.old) (E.scope encoder.new) }
    ensures setting { E.setting encoder.new ≡ E.setting encoder.old }
    ensures faithful { Faithful (E.setting encoder.new) (E.scope encoder.new) (E.names encoder.new)
        (E.offers encoder.new) (E.maps encoder.new) }
    ensures follows { E.follows encoder.old encoder.new }
    ensures cause { IfErr result (IsCause E.refuses encoder.new) }
{
    let index = define_function(alloc, encoder, types, &key)?;
    record_function(encoder, key, index)?;
    Ok(index)
}

/// Defines the type of functions of a key.
fn define_function<E: ValtypeEncoder>(
    alloc: Global,
    encoder: &mut E,
    types: &[TypeDef],
    key: &FuncTypeKey,
) -> Result<u32, BuildFault>
    requires back { RefersBack types.now }
    requires same { (E.setting encoder.old).types ≡ types.now }
    requires faithful { Faithful (E.setting encoder.old) (E.scope encoder.old) (E.names encoder.old)
        (E.offers encoder.old) (E.maps encoder.old) }
    requires params { AllByRecursion (λ p. MayEncode (E.setting encoder.old) types.now (Some p.ty))
        key.now.params }
    requires result { MayEncode (E.setting encoder.old) types.now key.now.result }
    ensures denotes { IfOk result (λ index. Denotes (E.scope encoder.new) index
        (OfFunctions (key_tree (E.setting encoder.old) key.now))) }
    ensures adds { IfOk result (λ index. AddsFunction (E.scope encoder.old) (E.scope encoder.new)
        (key_tree (E.setting encoder.old) key.now)) }
    ensures grows { Longer (E.scope encoder.old) (E.scope encoder.new) }
    ensures setting { E.setting encoder.new ≡ E.setting encoder.old }
    ensures faithful { Faithful (E.setting encoder.new) (E.scope encoder.new) (E.names encoder.new)
        (E.offers encoder.new) (E.maps encoder.new) }
    ensures follows { E.follows encoder.old encoder.new }
    ensures cause { IfErr result (IsCause E.refuses encoder.new) }
{
    let params = encode_params(alloc, encoder, types, key.params.as_slice())?;
    let returned = encode_payload(alloc, encoder, types, key.result)?;
    define_made(encoder, key, params, returned)
}

/// Defines the type of functions of a key, whose parameters and result have these value types.
fn define_made<E: ValtypeEncoder>(
    encoder: &mut E,
    key: &FuncTypeKey,
    params: Seq<Field>,
    returned: Option<ComponentValType>,
) -> Result<u32, BuildFault>
    requires faithful { Faithful (E.setting encoder.old) (E.scope encoder.old) (E.names encoder.old)
        (E.offers encoder.old) (E.maps encoder.old) }
    requires params { FieldsDenote (E.setting encoder.old) (E.scope encoder.old) params
        key.now.params }
    requires result { PartDenotes (E.setting encoder.old) (E.scope encoder.old) returned
        key.now.result }
    ensures denotes { IfOk result (λ index. Denotes (E.scope encoder.new) index
        (OfFunctions (key_tree (E.setting encoder.old) key.now))) }
    ensures adds { IfOk result (λ index. AddsOne (E.scope encoder.old) (E.scope encoder.new)
        (OfFunctions (key_tree (E.setting encoder.old) key.now))) }
    ensures grows { Longer (E.scope encoder.old) (E.scope encoder.new) }
    ensures setting { E.setting encoder.new ≡ E.setting encoder.old }
    ensures faithful { Faithful (E.setting encoder.new) (E.scope encoder.new) (E.names encoder.new)
        (E.offers encoder.new) (E.maps encoder.new) }
    ensures follows { E.follows encoder.old encoder.new }
    ensures cause { IfErr result (IsCause E.refuses encoder.new) }
{
    encoder.define_function_type(FuncTypeDef {
        async_: key.is_async,
        params,
        result: returned,
    })
}

/// The parameters of a function, with their value types.
fn encode_params<E: ValtypeEncoder>(
    alloc: Global,
    encoder: &mut E,
    types: &[TypeDef],
    params: &[WitField],
) -> Result<Seq<Field>, BuildFault>
    requires back { RefersBack types.now }
    requires same { (E.setting encoder.old).types ≡ types.now }
    requires faithful { Faithful (E.setting encoder.old) (E.scope encoder.old) (E.names encoder.old)
        (E.offers encoder.old) (E.maps encoder.old) }
    requires params { AllByRecursion (λ p. MayEncode (E.setting encoder.old) types.now (Some p.ty))
        params.now }
    ensures fields { IfOk result
        (λ fields. FieldsDenote (E.setting encoder.old) (E.scope encoder.new) fields params.now) }
    ensures adds { IfOk result (λ fields. AreEncoded (E.scope encoder.old)
        (map (λ p. tree_in (E.setting encoder.old) (Some p.ty)) params.now)
        (E.scope encoder.new)) }
    ensures grows { Longer (E.scope encoder.old) (E.scope encoder.new) }
    ensures setting { E.setting encoder.new ≡ E.setting encoder.old }
    ensures faithful { Faithful (E.setting encoder.new) (E.scope encoder.new) (E.names encoder.new)
        (E.offers encoder.new) (E.maps encoder.new) }
    ensures follows { E.follows encoder.old encoder.new }
    ensures cause { IfErr result (IsCause E.refuses encoder.new) }
{
    let mut fields = Seq::new(alloc);
    for n in 0..params.len() {
        fields.push(encode_param(alloc, encoder, types, &params[n])?)?;
    }
    Ok(fields)
}

/// A parameter, with its value type.
fn encode_param<E: ValtypeEncoder>(
    alloc: Global,
    encoder: &mut E,
    types: &[TypeDef],
    param: &WitField,
) -> Result<Field, BuildFault>
    requires back { RefersBack types.now }
    requires same { (E.setting encoder.old).types ≡ types.now }
    requires faithful { Faithful (E.setting encoder.old) (E.scope encoder.old) (E.names encoder.old)
        (E.offers encoder.old) (E.maps encoder.old) }
    requires param { MayEncode (E.setting encoder.old) types.now (Some param.now.ty) }
    ensures field { IfOk result
        (λ field. FieldDenotes (E.setting encoder.old) (E.scope encoder.new) field param.now) }
    ensures adds { IfOk result (λ field. IsEncoded (E.scope encoder.old) (E.scope encoder.new)
        (tree_in (E.setting encoder.old) (Some param.now.ty))) }
    ensures grows { Longer (E.scope encoder.old) (E.scope encoder.new) }
    ensures setting { E.setting encoder.new ≡ E.setting encoder.old }
    ensures faithful { Faithful (E.setting encoder.new) (E.scope encoder.new) (E.names encoder.new)
        (E.offers encoder.new) (E.maps encoder.new) }
    ensures follows { E.follows encoder.old encoder.new }
    ensures cause { IfErr result (IsCause E.refuses encoder.new) }
{
    let name = param.name.clone(alloc)?;
    let ty = encode_type(alloc, encoder, types, param.ty)?;
    Ok(Field { name, ty })
}

/// The value type of a type, where there is one.
fn encode_payload<E: ValtypeEncoder>(
    alloc: Global,
    encoder: &mut E,
    types: &[TypeDef],
    part: Option<Type>,
) -> Result<Option<ComponentValType>, BuildFault>
    requires back { RefersBack types.now }
    requires same { (E.setting encoder.old).types ≡ types.now }
    requires faithful { Faithful (E.setting encoder.old) (E.scope encoder.old) (E.names encoder.old)
        (E.offers encoder.old) (E.maps encoder.old) }
    requires part { MayEncode (E.setting encoder.old) types.now part }
    ensures value { IfOk result
        (λ v. PartDenotes (E.setting encoder.old) (E.scope encoder.new) v part) }
    ensures adds { IfOk result (λ v. AreEncoded (E.scope encoder.old)
        (option_to_list (option_map (λ t. tree_in (E.setting encoder.old) (Some t)) part))
        (E.scope encoder.new)) }
    ensures grows { Longer (E.scope encoder.old) (E.scope encoder.new) }
    ensures setting { E.setting encoder.new ≡ E.setting encoder.old }
    ensures faithful { Faithful (E.setting encoder.new) (E.scope encoder.new) (E.names encoder.new)
        (E.offers encoder.new) (E.maps encoder.new) }
    ensures follows { E.follows encoder.old encoder.new }
    ensures cause { IfErr result (IsCause E.refuses encoder.new) }
{
    match part {
        None => Ok(None),
        Some(ty) => Ok(Some(encode_type(alloc, encoder, types, ty)?)),
    }
}
