//! The functions of an interface, which are imported and exported again.

ghost use Rattle.std.specs.Prelude.{◌≡◌, ◌∷◌, [], true, IsTrue, IfErr, OnOk};
ghost use Rattle.std.specs.List.{AllByRecursion, AllZip};
ghost use Rattle.wit_data.specs.Sound.{IsSound, HasFunction};
ghost use Rattle.wit_types.specs.Denoting.{IsCause};
ghost use Rattle.wit_types.specs.Allowing.{allows_function};
ghost use Rattle.type_scopes.specs.Members.{IsExcess};
ghost use Rattle.nested_components.specs.Functions.{functions_of, type_of, nested_functions, IsTyped};
ghost use Rattle.nested_components.specs.Homes.{nested_setting, IsExporting};
ghost use Rattle.nested_components.specs.Counts.{is_full};
ghost use Rattle.nested_components.specs.Growing.{scope_of, AreTablesRight, Grows, ExportsOne, ExportsAll, function_at, IsTypedAt};

use crate::nested_encoder::NestedEncoder;
use crate::placement::Placement;
use byte_encoding::{BuildFault, next_count};
use comp_lists::{Keyed, Text};
use std::alloc::Global;
use wit_data::{Function, Resolve};
use wit_types::encode_func_type;

/// Imports the functions, one after the other, each under its name, and each right behind its type.
pub(crate) fn import_functions<P: Placement>(
    alloc: Global,
    encoder: &mut NestedEncoder<'_, P>,
    resolve: &Resolve,
    names: &[Text],
    functions: &Keyed<Text, Function>,
) -> Result<(), BuildFault>
    requires sound { IsSound resolve.now }
    requires same { encoder.old.home.types ≡ resolve.now.types }
    requires present { AllByRecursion (λ e. HasFunction resolve.now e.1) functions.now }
    requires allowed { AllByRecursion
        (λ f. allows_function (nested_setting P.origin encoder.old.home encoder.old.stage) f ≡ true)
        (functions_of functions.now) }
    requires right { AreTablesRight P.given P.origin encoder.old.home encoder.old.stage
        encoder.old.contents.items encoder.old.maps }
    ensures grows { OnOk result (Grows P.given P.origin encoder.old.home encoder.old.stage
        encoder.old.contents encoder.new.contents (nested_functions P.origin
        encoder.old.home.types (functions_of functions.now) names.now)) }
    ensures home { OnOk result (encoder.new.home ≡ encoder.old.home) }
    ensures stage { OnOk result (encoder.new.stage ≡ encoder.old.stage) }
    ensures right { OnOk result (AreTablesRight P.given P.origin encoder.old.home encoder.old.stage
        encoder.new.contents.items encoder.new.maps) }
    ensures cause { IfErr result (IsCause is_full encoder.new.contents.items) }
{
    let mut rest = names;
    for (_, function) in functions.iter() {
        let Some((name, others)) = rest.split_first() else {
            return Ok(());
        };
        import_function(alloc, encoder, resolve, name, function)?;
        rest = others;
    }
    Ok(())
}

/// Encodes the type of a function, and imports a function of that type.
fn import_function<P: Placement>(
    alloc: Global,
    encoder: &mut NestedEncoder<'_, P>,
    resolve: &Resolve,
    name: &Text,
    function: &Function,
) -> Result<(), BuildFault>
    requires sound { IsSound resolve.now }
    requires same { encoder.old.home.types ≡ resolve.now.types }
    requires present { HasFunction resolve.now function.now }
    requires allowed { IsTrue (allows_function
        (nested_setting P.origin encoder.old.home encoder.old.stage) function.now) }
    requires right { AreTablesRight P.given P.origin encoder.old.home encoder.old.stage
        encoder.old.contents.items encoder.old.maps }
    ensures grows { OnOk result (Grows P.given P.origin encoder.old.home encoder.old.stage
        encoder.old.contents encoder.new.contents (record {
          argument = name.now;
          type = type_of P.origin encoder.old.home.types function.now;
        } ∷ [])) }
    ensures home { OnOk result (encoder.new.home ≡ encoder.old.home) }
    ensures stage { OnOk result (encoder.new.stage ≡ encoder.old.stage) }
    ensures right { OnOk result (AreTablesRight P.given P.origin encoder.old.home encoder.old.stage
        encoder.new.contents.items encoder.new.maps) }
    ensures cause { IfErr result (IsCause is_full encoder.new.contents.items) }
{
    let ty = encode_func_type(alloc, encoder, resolve, function)?;
    let name = name.clone(alloc)?;
    encoder.add_import(name, ty)?;
    Ok(())
}

/// Exports the functions of the nested component, one after the other, each under the name that it
/// has in the interface, and each right behind its type.
pub(crate) fn export_functions<P: Placement>(
    alloc: Global,
    encoder: &mut NestedEncoder<'_, P>,
    resolve: &Resolve,
    functions: &Keyed<Text, Function>,
) -> Result<(), BuildFault>
    requires sound { IsSound resolve.now }
    requires same { encoder.old.home.types ≡ resolve.now.types }
    requires stage { IsExporting encoder.old.stage }
    requires present { AllByRecursion (λ e. HasFunction resolve.now e.1) functions.now }
    requires allowed { AllByRecursion
        (λ f. allows_function (nested_setting P.origin encoder.old.home encoder.old.stage) f ≡ true)
        (functions_of functions.now) }
    requires right { AreTablesRight P.given P.origin encoder.old.home encoder.old.stage
        encoder.old.contents.items encoder.old.maps }
    requires typed { AllZip (IsTyped P.origin encoder.old.home.types)
        (scope_of P.given encoder.old.contents.items).functions (functions_of functions.now) }
    ensures exports { OnOk result (ExportsAll P.given encoder.old.contents encoder.new.contents
        (functions_of functions.now)) }
    ensures cause { IfErr result IsExcess }
{
    let mut index: u32 = 0;
    for (_, function) in functions.iter() {
        export_function(alloc, encoder, resolve, index, function)?;
        index = next_count(index)?;
    }
    Ok(())
}

/// Encodes the type of a function, and exports the function with an index as one of that type.
fn export_function<P: Placement>(
    alloc: Global,
    encoder: &mut NestedEncoder<'_, P>,
    resolve: &Resolve,
    index: u32,
    function: &Function,
) -> Result<(), BuildFault>
    requires sound { IsSound resolve.now }
    requires same { encoder.old.home.types ≡ resolve.now.types }
    requires stage { IsExporting encoder.old.stage }
    requires present { HasFunction resolve.now function.now }
    requires allowed { IsTrue (allows_function
        (nested_setting P.origin encoder.old.home encoder.old.stage) function.now) }
    requires right { AreTablesRight P.given P.origin encoder.old.home encoder.old.stage
        encoder.old.contents.items encoder.old.maps }
    requires typed { IsTypedAt P.origin encoder.old.home.types
        (scope_of P.given encoder.old.contents.items) index function.now }
    ensures exports { OnOk result (ExportsOne P.given encoder.old.contents encoder.new.contents
        function.now.name (function_at (scope_of P.given encoder.old.contents.items) index)) }
    ensures home { OnOk result (encoder.new.home ≡ encoder.old.home) }
    ensures stage { OnOk result (encoder.new.stage ≡ encoder.old.stage) }
    ensures right { OnOk result (AreTablesRight P.given P.origin encoder.old.home encoder.old.stage
        encoder.new.contents.items encoder.new.maps) }
    ensures cause { IfErr result (IsCause is_full encoder.new.contents.items) }
{
    let ty = encode_func_type(alloc, encoder, resolve, function)?;
    let name = function.name.clone(alloc)?;
    encoder.add_export(name, index, ty)?;
    Ok(())
}
