//! The functions of core exports: in which form each is called, which export implements it, and
//! which is its post-return or its callback.
//!
//! Canonical ABI: `canon lift`, with its options `post-return` and `callback`.

ghost use Rattle.std.specs.Prelude.{◌≡◌, [], IfOk, OnOk};
ghost use Rattle.comp_roles.specs.Functions.{is_same_function};
ghost use Rattle.world_values.specs.CoreExports.{function_key, at_root, lifted_function, post_return_function, callback_function, implemented_by, returned_by, called_back_by, lifted_functions, implementations, post_returns, callbacks};
ghost use Rattle.world_values.specs.Tables.{with_all};

use comp_lists::{Keyed, Text, TryClone};
use comp_roles::{Export, FunctionKey};
use std::alloc::{AllocError, Global};
use wit_data::{AbiVariant, WorldKey};

/// The function of a name at a key.
pub fn function_key(alloc: Global, key: &WorldKey, name: &Text) -> Result<FunctionKey, AllocError>
    ensures { IfOk result (λ f. f ≡ function_key key.now name.now) }
{
    let key = key.try_clone(alloc)?;
    let function = name.clone(alloc)?;
    Ok(FunctionKey { key, function })
}

/// The function of the world itself at a key.
fn at_root(alloc: Global, key: &WorldKey) -> Result<Option<FunctionKey>, AllocError>
    ensures { IfOk result (λ f. f ≡ at_root key.now) }
{
    match key {
        WorldKey::Name(text) => Ok(Some(function_key(alloc, key, text)?)),
        WorldKey::Interface(_) => Ok(None),
    }
}

/// The function whose post-return an export is.
pub fn post_return_function(
    alloc: Global,
    export: &Export,
) -> Result<Option<FunctionKey>, AllocError>
    ensures { IfOk result (λ f. f ≡ post_return_function export.now) }
{
    match export {
        Export::WorldFuncPostReturn(key) => at_root(alloc, key),
        Export::InterfaceFuncPostReturn(key, name) => Ok(Some(function_key(alloc, key, name)?)),
        _ => Ok(None),
    }
}

/// The function whose callback an export is.
pub fn callback_function(alloc: Global, export: &Export) -> Result<Option<FunctionKey>, AllocError>
    ensures { IfOk result (λ f. f ≡ callback_function export.now) }
{
    match export {
        Export::WorldFuncCallback(key) => at_root(alloc, key),
        Export::InterfaceFuncCallback(key, name) => Ok(Some(function_key(alloc, key, name)?)),
        _ => Ok(None),
    }
}

/// Adds the function that an export lifts, if it lifts one.
fn add_lifted(
    alloc: Global,
    abis: &mut Keyed<FunctionKey, AbiVariant>,
    export: &Export,
) -> Result<(), AllocError>
    ensures { OnOk result
        (abis.new ≡ with_all is_same_function abis.old (lifted_function export.now)) }
{
    match export {
        Export::WorldFunc(key, name, abi) => {
            abis.insert_if_absent(function_key(alloc, key, name)?, *abi)
        }
        Export::InterfaceFunc(key, _, name, abi) => {
            abis.insert_if_absent(function_key(alloc, key, name)?, *abi)
        }
        _ => Ok(()),
    }
}

/// Adds an export, if it implements a function.
fn add_implementation(
    alloc: Global,
    table: &mut Keyed<FunctionKey, Text>,
    name: &Text,
    export: &Export,
) -> Result<(), AllocError>
    ensures { OnOk result
        (table.new ≡ with_all is_same_function table.old (implemented_by (name.now, export.now))) }
{
    match export {
        Export::WorldFunc(key, function, _) => {
            table.insert_if_absent(function_key(alloc, key, function)?, name.clone(alloc)?)
        }
        Export::InterfaceFunc(key, _, function, _) => {
            table.insert_if_absent(function_key(alloc, key, function)?, name.clone(alloc)?)
        }
        _ => Ok(()),
    }
}

/// Adds an export, if it is the post-return of a function.
fn add_post_return(
    alloc: Global,
    table: &mut Keyed<FunctionKey, Text>,
    name: &Text,
    export: &Export,
) -> Result<(), AllocError>
    ensures { OnOk result
        (table.new ≡ with_all is_same_function table.old (returned_by (name.now, export.now))) }
{
    match post_return_function(alloc, export)? {
        Some(function) => table.insert_if_absent(function, name.clone(alloc)?),
        None => Ok(()),
    }
}

/// Adds an export, if it is the callback of a function.
fn add_callback(
    alloc: Global,
    table: &mut Keyed<FunctionKey, Text>,
    name: &Text,
    export: &Export,
) -> Result<(), AllocError>
    ensures { OnOk result
        (table.new ≡ with_all is_same_function table.old (called_back_by (name.now, export.now))) }
{
    match callback_function(alloc, export)? {
        Some(function) => table.insert_if_absent(function, name.clone(alloc)?),
        None => Ok(()),
    }
}

/// The functions that exports lift, each with the form in which it is called. Of several exports of
/// one function the first counts, here and in the tables below.
#[tactic(auto, using(crate::proofs::Entering::after_item))]
pub fn lifted_functions(
    alloc: Global,
    exports: &Keyed<Text, Export>,
) -> Result<Keyed<FunctionKey, AbiVariant>, AllocError>
    ensures { IfOk result (λ t. t ≡ with_all is_same_function [] (lifted_functions exports.now)) }
{
    let mut abis = Keyed::new(alloc);
    for (_, export) in exports.iter() {
        add_lifted(alloc, &mut abis, export)?;
    }
    Ok(abis)
}

/// The exports that implement functions, by these.
#[tactic(auto, using(crate::proofs::Entering::after_item))]
pub fn implementations(
    alloc: Global,
    exports: &Keyed<Text, Export>,
) -> Result<Keyed<FunctionKey, Text>, AllocError>
    ensures { IfOk result (λ t. t ≡ with_all is_same_function [] (implementations exports.now)) }
{
    let mut table = Keyed::new(alloc);
    for (name, export) in exports.iter() {
        add_implementation(alloc, &mut table, name, export)?;
    }
    Ok(table)
}

/// The exports that are post-returns of functions, by these.
#[tactic(auto, using(crate::proofs::Entering::after_item))]
pub fn post_returns(
    alloc: Global,
    exports: &Keyed<Text, Export>,
) -> Result<Keyed<FunctionKey, Text>, AllocError>
    ensures { IfOk result (λ t. t ≡ with_all is_same_function [] (post_returns exports.now)) }
{
    let mut table = Keyed::new(alloc);
    for (name, export) in exports.iter() {
        add_post_return(alloc, &mut table, name, export)?;
    }
    Ok(table)
}

/// The exports that are callbacks of functions, by these.
#[tactic(auto, using(crate::proofs::Entering::after_item))]
pub fn callbacks(
    alloc: Global,
    exports: &Keyed<Text, Export>,
) -> Result<Keyed<FunctionKey, Text>, AllocError>
    ensures { IfOk result (λ t. t ≡ with_all is_same_function [] (callbacks exports.now)) }
{
    let mut table = Keyed::new(alloc);
    for (name, export) in exports.iter() {
        add_callback(alloc, &mut table, name, export)?;
    }
    Ok(table)
}
