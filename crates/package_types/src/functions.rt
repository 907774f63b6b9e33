//! Entries of declared types, and functions of a name.
//!
//! Component model, binary format: `deftype`, `functype`.

ghost use Rattle.std.specs.Prelude.{◌≡◌, ℕ, List, [], map, option_map, slice_get, IfOk};
ghost use Rattle.package_types.specs.Types.{Gives, value_nodes};
ghost use Rattle.package_types.specs.Functions.{params_checked, param_of, signature, signature_of, function_entry, type_entry, entry_of, is_constructor, function, named_signature, function_by};

use crate::fault::{Cause, TypeFault};
use crate::nodes::{defined_nodes, value_nodes};
use crate::scopes::{Entry, Signature};
use crate::types::{defined_size, optional_size, value_size};
use comp_bytes::{ComponentValType, DefinedType, Field, FuncTypeDef, TypeDef};
use comp_lists::{Seq, Text, TryClone};
use record_values::{Func, Node, Typed};
use std::alloc::{AllocError, Global};

fn check_params(scope: &[Entry], params: &[Field]) -> Result<(), Cause>
    ensures { result ≡ params_checked scope.now params.now }
{
    for param in params {
        value_size(scope, param.ty)?;
    }
    Ok(())
}

fn param(alloc: Global, scope: &[Entry], field: &Field) -> Result<Typed, AllocError>
    ensures { IfOk result (λ p. p ≡ param_of scope.now field.now) }
{
    Ok(Typed {
        name: field.name.clone(alloc)?,
        nodes: value_nodes(alloc, scope, field.ty)?,
    })
}

fn params(alloc: Global, scope: &[Entry], fields: &[Field]) -> Result<Seq<Typed>, AllocError>
    ensures { IfOk result (λ ps. ps ≡ map (param_of scope.now) fields.now) }
{
    let mut params = Seq::new(alloc);
    for field in fields {
        params.push(param(alloc, scope, field)?)?;
    }
    Ok(params)
}

fn result_of(
    alloc: Global,
    scope: &[Entry],
    ty: Option<ComponentValType>,
) -> Result<Option<Seq<Node>>, AllocError>
    ensures { IfOk result (λ r. r ≡ option_map (λ t. value_nodes scope.now t) ty) }
{
    match ty {
        Some(ty) => Ok(Some(value_nodes(alloc, scope, ty)?)),
        None => Ok(None),
    }
}

fn signature(alloc: Global, scope: &[Entry], ty: &FuncTypeDef) -> Result<Signature, AllocError>
    ensures { IfOk result (λ s. s ≡ signature scope.now ty.now) }
{
    let params = params(alloc, scope, ty.params.as_slice())?;
    let result = result_of(alloc, scope, ty.result)?;
    Ok(Signature {
        is_async: ty.async_,
        params,
        result,
    })
}

#[tactic(auto, unfolding(crate::specs::Functions::signature_of))]
fn signature_of(alloc: Global, scope: &[Entry], ty: &FuncTypeDef) -> Result<Signature, TypeFault>
    ensures { Gives (λ s. s) result (signature_of scope.now ty.now) }
{
    check_params(scope, ty.params.as_slice())?;
    optional_size(scope, ty.result)?;
    Ok(signature(alloc, scope, ty)?)
}

fn function_entry(alloc: Global, scope: &[Entry], ty: &FuncTypeDef) -> Result<Entry, TypeFault>
    ensures { Gives (λ e. e) result (function_entry scope.now ty.now) }
{
    Ok(Entry::Function(signature_of(alloc, scope, ty)?))
}

fn type_entry(alloc: Global, scope: &[Entry], ty: &DefinedType) -> Result<Entry, TypeFault>
    ensures { Gives (λ e. e) result (type_entry scope.now ty.now) }
{
    let size = defined_size(scope, ty)?;
    let nodes = defined_nodes(alloc, scope, ty)?;
    Ok(Entry::Type { nodes, size })
}

/// The entry that a declaration of a type adds to its scope.
pub fn entry_of(alloc: Global, scope: &[Entry], ty: &TypeDef) -> Result<Entry, TypeFault>
    ensures { Gives (λ e. e) result (entry_of scope.now ty.now) }
{
    match ty {
        TypeDef::Func(ty) => function_entry(alloc, scope, ty),
        TypeDef::Resource(_) => Err(TypeFault::Refused(Cause::ResourceType)),
        TypeDef::Defined(ty) => type_entry(alloc, scope, ty),
    }
}

fn is_constructor(name: &str) -> bool
    ensures { result ≡ is_constructor name.now }
{
    name.as_bytes().starts_with(b"[constructor]")
}

fn function(alloc: Global, name: &Text, signature: &Signature) -> Result<Func, AllocError>
    ensures { IfOk result (λ f. f ≡ function name.now signature.now) }
{
    Ok(Func {
        name: name.clone(alloc)?,
        is_async: signature.is_async,
        params: signature.params.clone(alloc)?,
        result: signature.result.try_clone(alloc)?,
    })
}

fn named_signature(alloc: Global, name: &Text, signature: &Signature) -> Result<Func, TypeFault>
    ensures { Gives (λ f. f) result (named_signature name.now signature.now) }
{
    if signature.is_async && is_constructor(name.as_str()) {
        return Err(TypeFault::Refused(Cause::AsyncConstructor));
    }
    Ok(function(alloc, name, signature)?)
}

/// A function of this name, of the type at an index.
pub fn named_function(
    alloc: Global,
    scope: &[Entry],
    name: &Text,
    index: u32,
) -> Result<Func, TypeFault>
    ensures { Gives (λ f. f) result (function_by name.now (slice_get scope.now index)) }
{
    match scope.get(index as usize) {
        Some(Entry::Function(signature)) => named_signature(alloc, name, signature),
        _ => Err(TypeFault::Refused(Cause::Index)),
    }
}
