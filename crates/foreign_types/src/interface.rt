//! A walk through the types that an interface lists, and then through its functions.

ghost use Rattle.std.specs.Prelude.{◌≡◌, ◌<◌, length, true, Some, IfOk, OnOk};
ghost use Rattle.std.specs.List.{AllByRecursion, list_all};
ghost use Rattle.wit_data.specs.Parts.{RefersBack, IsBelow};
ghost use Rattle.wit_data.specs.Sound.{IsSound, HasFunction, HasTypeId};
ghost use Rattle.wit_data.specs.declared.types.Type.TheVariants.{Id};
ghost use Rattle.foreign_types.specs.Foreign.{is_covered, is_function_covered, AreForeignTypes};
ghost use Rattle.foreign_types.specs.Walking.{IsWalk, Lists, ListedPass, ParamsPass, FunctionPasses, EntriesPass};

use crate::meeting::{meet_part, meet_type};
use crate::walk::Walk;
use comp_lists::{Keyed, Seq, Text};
use std::alloc::{AllocError, Global};
use wit_data::{Function, InterfaceId, Param, Resolve, TypeDef, TypeId};

/// Walks through types that are listed, in their order.
fn meet_listed(
    types: &[TypeDef],
    here: InterfaceId,
    walk: &mut Walk,
    listed: &Keyed<Text, TypeId>,
) -> Result<(), AllocError>
    requires back { RefersBack types.now }
    requires present { AllByRecursion (λ t. t.1.index < length types.now) listed.now }
    requires right { IsWalk types.now here walk.old }
    ensures right { OnOk result (IsWalk types.now here walk.new) }
    ensures covered { OnOk result (AllByRecursion
        (λ t. is_covered types.now here walk.new.listed (Some (Id t.1)) ≡ true) listed.now) }
    ensures lists { OnOk result
        (Lists types.now walk.old.listed walk.new.listed (ListedPass types.now listed.now)) }
{
    for (_, id) in listed.iter() {
        meet_type(types, here, walk, *id)?;
    }
    Ok(())
}

/// Walks through the types of parameters, in their order.
fn meet_params(
    types: &[TypeDef],
    here: InterfaceId,
    walk: &mut Walk,
    params: &[Param],
) -> Result<(), AllocError>
    requires back { RefersBack types.now }
    requires present { AllByRecursion (λ p. IsBelow (length types.now) (Some p.ty)) params.now }
    requires right { IsWalk types.now here walk.old }
    ensures right { OnOk result (IsWalk types.now here walk.new) }
    ensures covered { OnOk result
        (list_all (λ p. is_covered types.now here walk.new.listed (Some p.ty)) params.now ≡ true) }
    ensures lists { OnOk result
        (Lists types.now walk.old.listed walk.new.listed (ParamsPass types.now params.now)) }
{
    for n in 0..params.len() {
        meet_part(types, here, walk, Some(params[n].ty))?;
    }
    Ok(())
}

/// Walks through the types of a function: those of its parameters, and then that of its result.
fn meet_function(
    resolve: &Resolve,
    here: InterfaceId,
    walk: &mut Walk,
    function: &Function,
) -> Result<(), AllocError>
    requires sound { IsSound resolve.now }
    requires present { HasFunction resolve.now function.now }
    requires right { IsWalk resolve.now.types here walk.old }
    ensures right { OnOk result (IsWalk resolve.now.types here walk.new) }
    ensures covered { OnOk result
        (is_function_covered resolve.now.types here walk.new.listed function.now ≡ true) }
    ensures lists { OnOk result (Lists resolve.now.types walk.old.listed walk.new.listed
        (FunctionPasses resolve.now.types function.now)) }
{
    let types = resolve.types.as_slice();
    meet_params(types, here, walk, function.params.as_slice())?;
    meet_part(types, here, walk, function.result)?;
    Ok(())
}

/// Walks through the types of functions, in their order.
fn meet_functions(
    resolve: &Resolve,
    here: InterfaceId,
    walk: &mut Walk,
    functions: &Keyed<Text, Function>,
) -> Result<(), AllocError>
    requires sound { IsSound resolve.now }
    requires present { AllByRecursion (λ e. HasFunction resolve.now e.1) functions.now }
    requires right { IsWalk resolve.now.types here walk.old }
    ensures right { OnOk result (IsWalk resolve.now.types here walk.new) }
    ensures covered { OnOk result (AllByRecursion
        (λ e. is_function_covered resolve.now.types here walk.new.listed e.1 ≡ true)
        functions.now) }
    ensures lists { OnOk result (Lists resolve.now.types walk.old.listed walk.new.listed
        (EntriesPass resolve.now.types functions.now)) }
{
    for (_, function) in functions.iter() {
        meet_function(resolve, here, walk, function)?;
    }
    Ok(())
}

/// The types of other interfaces of which these types of an interface, and then these functions,
/// are made, each once and behind those of which it is made itself.
pub fn all_foreign_types(
    alloc: Global,
    resolve: &Resolve,
    interface: InterfaceId,
    types: &Keyed<Text, TypeId>,
    functions: &Keyed<Text, Function>,
) -> Result<Seq<TypeId>, AllocError>
    requires sound { IsSound resolve.now }
    requires types { AllByRecursion (λ t. HasTypeId resolve.now t.1) types.now }
    requires functions { AllByRecursion (λ e. HasFunction resolve.now e.1) functions.now }
    ensures { IfOk result (AreForeignTypes resolve.now.types interface types.now functions.now) }
{
    let mut walk = Walk::new(alloc);
    meet_listed(resolve.types.as_slice(), interface, &mut walk, types)?;
    meet_functions(resolve, interface, &mut walk, functions)?;
    Ok(walk.into_listed())
}
