//! The functions of an interface, in its instance type.

ghost use Rattle.std.specs.Prelude.{◌≡◌, [], ◌∷◌, ◌++◌, map, true, IsTrue, IfErr, OnOk};
ghost use Rattle.std.specs.List.{AllByRecursion};
ghost use Rattle.wit_data.specs.Sound.{IsSound, HasFunction};
ghost use Rattle.wit_types.specs.Denoting.{IsCause};
ghost use Rattle.wit_types.specs.Allowing.{allows_function};
ghost use Rattle.comp_trees.specs.Members.{member_trees};
ghost use Rattle.type_scopes.specs.Members.{is_full};
ghost use Rattle.type_scopes.specs.Exports.{exports_of, function_exports, MembersExtend};
ghost use Rattle.type_scopes.specs.Offers.{placed};
ghost use Rattle.type_scopes.specs.Interfaces.{AddsFunctions, FunctionsIn, IsRight, used_function, used_among};

use crate::instance_type::InstanceTypeEncoder;
use crate::placement::Placement;
use byte_encoding::BuildFault;
use comp_bytes::ExternName;
use comp_lists::{Keyed, Text};
use std::alloc::Global;
use wit_data::{Function, Resolve};
use wit_types::encode_func_type;

/// Encodes those of these functions whose names are used, one after the other.
pub(crate) fn encode_functions<P: Placement>(
    alloc: Global,
    encoder: &mut InstanceTypeEncoder<'_, P>,
    resolve: &Resolve,
    used: &Keyed<Text, ()>,
    functions: &Keyed<Text, Function>,
) -> Result<(), BuildFault>
    requires sound { IsSound resolve.now }
    requires same { encoder.old.outer.types ≡ resolve.now.types }
    requires present { AllByRecursion (λ e. HasFunction resolve.now e.1) functions.now }
    requires allowed { AllByRecursion (λ f. allows_function (placed P.surroundings P.origin
        encoder.old.outer encoder.old.interface encoder.old.passed.now) f
        ≡ true) (used_among used.now functions.now) }
    requires right { IsRight P.surroundings P.origin encoder.old.outer encoder.old.interface
        encoder.old.passed.now encoder.old.members encoder.old.maps }
    requires first { function_exports encoder.old.members ≡ [] }
    ensures functions { OnOk result (FunctionsIn (placed P.surroundings P.origin encoder.old.outer
        encoder.old.interface encoder.old.passed.now)
        (member_trees P.surroundings [] encoder.new.members)
        (function_exports encoder.new.members) (used_among used.now functions.now)) }
    ensures names { OnOk result (exports_of encoder.new.members
        ≡ exports_of encoder.old.members
        ++ map (λ f. f.name) (used_among used.now functions.now)) }
    ensures extends { MembersExtend P.surroundings encoder.old.members encoder.new.members }
    ensures cause { IfErr result (IsCause is_full encoder.new.members) }
{
    for (name, function) in functions.iter() {
        encode_used(alloc, encoder, resolve, used, name, function)?;
    }
    Ok(())
}

/// Encodes a function, if its name is used.
fn encode_used<P: Placement>(
    alloc: Global,
    encoder: &mut InstanceTypeEncoder<'_, P>,
    resolve: &Resolve,
    used: &Keyed<Text, ()>,
    name: &Text,
    function: &Function,
) -> Result<(), BuildFault>
    requires sound { IsSound resolve.now }
    requires same { encoder.old.outer.types ≡ resolve.now.types }
    requires present { HasFunction resolve.now function.now }
    requires allowed { AllByRecursion (λ f. allows_function (placed P.surroundings P.origin
        encoder.old.outer encoder.old.interface encoder.old.passed.now) f
        ≡ true) (used_function used.now (name.now, function.now)) }
    requires right { IsRight P.surroundings P.origin encoder.old.outer encoder.old.interface
        encoder.old.passed.now encoder.old.members encoder.old.maps }
    ensures functions { OnOk result (AddsFunctions (placed P.surroundings P.origin encoder.old.outer
        encoder.old.interface encoder.old.passed.now)
        (member_trees P.surroundings [] encoder.new.members) encoder.old.members
        encoder.new.members (used_function used.now (name.now, function.now))) }
    ensures extends { MembersExtend P.surroundings encoder.old.members encoder.new.members }
    ensures setting { placed P.surroundings P.origin encoder.new.outer encoder.new.interface
        encoder.new.passed.now
        ≡ placed P.surroundings P.origin encoder.old.outer encoder.old.interface
        encoder.old.passed.now }
    ensures right { IsRight P.surroundings P.origin encoder.new.outer encoder.new.interface
        encoder.new.passed.now encoder.new.members encoder.new.maps }
    ensures cause { IfErr result (IsCause is_full encoder.new.members) }
{
    if used.contains_key(name) {
        encode_function(alloc, encoder, resolve, function)
    } else {
        Ok(())
    }
}

/// Encodes the type of a function, and exports the function under its name.
fn encode_function<P: Placement>(
    alloc: Global,
    encoder: &mut InstanceTypeEncoder<'_, P>,
    resolve: &Resolve,
    function: &Function,
) -> Result<(), BuildFault>
    requires sound { IsSound resolve.now }
    requires same { encoder.old.outer.types ≡ resolve.now.types }
    requires present { HasFunction resolve.now function.now }
    requires allowed { IsTrue (allows_function (placed P.surroundings P.origin encoder.old.outer
        encoder.old.interface encoder.old.passed.now) function.now) }
    requires right { IsRight P.surroundings P.origin encoder.old.outer encoder.old.interface
        encoder.old.passed.now encoder.old.members encoder.old.maps }
    ensures function { OnOk result (AddsFunctions (placed P.surroundings P.origin encoder.old.outer
        encoder.old.interface encoder.old.passed.now)
        (member_trees P.surroundings [] encoder.new.members) encoder.old.members
        encoder.new.members (function.now ∷ [])) }
    ensures extends { MembersExtend P.surroundings encoder.old.members encoder.new.members }
    ensures setting { placed P.surroundings P.origin encoder.new.outer encoder.new.interface
        encoder.new.passed.now
        ≡ placed P.surroundings P.origin encoder.old.outer encoder.old.interface
        encoder.old.passed.now }
    ensures right { IsRight P.surroundings P.origin encoder.new.outer encoder.new.interface
        encoder.new.passed.now encoder.new.members encoder.new.maps }
    ensures cause { IfErr result (IsCause is_full encoder.new.members) }
{
    let index = encode_func_type(alloc, encoder, resolve, function)?;
    let name = function.name.clone(alloc)?;
    let version_suffix = None;
    encoder.add_function(
        ExternName {
            name,
            version_suffix,
        },
        index,
    )?;
    Ok(())
}
