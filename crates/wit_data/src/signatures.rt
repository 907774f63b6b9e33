//! Core signatures of functions (Canonical ABI: `flatten_functype`).

ghost use Rattle.std.specs.Prelude.{◌≡◌, ◌<◌, ◌≤◌, ◌++◌, ◌∷◌, length, min, is_some, Some, IfOk, OnOk, if◌then◌else◌, [], nat_lt};
ghost use Rattle.std.specs.List.{AllByRecursion, flat_map};
ghost use Rattle.wit_data.specs.Parts.{RefersBack, IsBelow};
ghost use Rattle.wit_data.specs.Flat.{flat};
ghost use Rattle.wit_data.specs.Sound.{IsSound, HasFunction};
ghost use Rattle.wit_data.specs.Signatures as signatures;
ghost use Rattle.wit_data.specs.declared.functions.AbiVariant.TheVariants.{GuestImport};
ghost use Rattle.wit_data.specs.declared.signatures.WasmType.TheVariants.{I32};

use crate::flattening::{MANY, flat_count, flatten};
use crate::functions::{AbiVariant, Function, Param, returning};
use crate::resolve::Resolve;
use crate::types::TypeDef;
use comp_lists::Seq;
use std::alloc::{AllocError, Global};

/// A type of a core value, of the four number types.
#[derive(Clone, Copy, Debug, PartialEq, Eq)]
pub enum WasmType {
    I32,
    I64,
    F32,
    F64,
}

/// The core signature of a function (Canonical ABI: `flatten_functype`).
#[derive(Debug, Drop, PartialEq, Eq)]
pub struct WasmSignature {
    pub params: Seq<WasmType>,
    pub results: Seq<WasmType>,
    /// Whether the parameters are in memory, and one pointer to them is passed.
    pub indirect_params: bool,
    /// Whether the result is in memory.
    pub retptr: bool,
}

/// How many core parameters there may be; more are passed in memory.
fn most_params(abi: AbiVariant) -> usize
    ensures most { result ≡ signatures.most_params abi }
    ensures few { result < 17 }
{
    match abi {
        AbiVariant::GuestImportAsync => 4,
        _ => 16,
    }
}

/// How many core values the parameters have, or 17 if there are more.
fn param_count(types: &[TypeDef], params: &[Param]) -> usize
    requires back { RefersBack types.now }
    requires present { AllByRecursion (λ p. IsBelow (length types.now) (Some p.ty)) params.now }
    ensures { result ≡ min (length (flat_map (λ p. flat types.now (Some p.ty)) params.now)) 17 }
{
    let mut total: usize = 0;
    for index in 0..params.len() {
        total += flat_count(types, Some(params[index].ty));
        if total >= MANY {
            return MANY;
        }
    }
    total
}

/// The core values of the parameters, one after the other.
fn flat_params(
    types: &[TypeDef],
    params: &[Param],
    alloc: Global,
) -> Result<Vec<WasmType>, AllocError>
    requires back { RefersBack types.now }
    requires present { AllByRecursion (λ p. IsBelow (length types.now) (Some p.ty)) params.now }
    ensures { IfOk result
        (λ values. values.items ≡ flat_map (λ p. flat types.now (Some p.ty)) params.now) }
{
    let mut values = Vec::new(alloc);
    for index in 0..params.len() {
        flatten(types, Some(params[index].ty), alloc, &mut values)?;
    }
    Ok(values)
}

/// One pointer.
fn one_pointer(alloc: Global) -> Result<Vec<WasmType>, AllocError>
    ensures { IfOk result (λ values. values.items ≡ I32 ∷ []) }
{
    let mut values = Vec::new(alloc);
    values.push(WasmType::I32)?;
    Ok(values)
}

impl Resolve {
    /// Whether the parameters of a function are in memory, and one pointer to them is passed. It takes no memory.
    pub fn is_indirect(&self, abi: AbiVariant, function: &Function) -> bool
        requires sound { IsSound self.now }
        requires present { HasFunction self.now function.now }
        ensures { result ≡ signatures.is_indirect abi self.now.types function.now }
    {
        param_count(self.types.as_slice(), function.params.as_slice()) > most_params(abi)
    }

    /// Whether the result of a function is in memory. It takes no memory.
    pub fn is_returned_in_memory(&self, abi: AbiVariant, function: &Function) -> bool
        requires sound { IsSound self.now }
        requires present { HasFunction self.now function.now }
        ensures { result ≡ signatures.is_returned_in_memory abi self.now.types function.now }
    {
        match abi {
            AbiVariant::GuestImport => flat_count(self.types.as_slice(), function.result) > 1,
            AbiVariant::GuestExport => flat_count(self.types.as_slice(), function.result) > 1,
            AbiVariant::GuestImportAsync => function.result.is_some(),
            AbiVariant::GuestExportAsync => false,
            AbiVariant::GuestExportAsyncStackful => false,
        }
    }

    /// The core signature of a function.
    pub fn wasm_signature(
        &self,
        alloc: Global,
        abi: AbiVariant,
        function: &Function,
    ) -> Result<WasmSignature, AllocError>
        requires sound { IsSound self.now }
        requires present { HasFunction self.now function.now }
        ensures { IfOk result (λ s. s ≡ signatures.signature abi self.now.types function.now) }
    {
        let indirect_params = self.is_indirect(abi, function);
        let retptr = self.is_returned_in_memory(abi, function);
        let mut params = self.passed_params(alloc, function, indirect_params)?;
        push_result_pointer(&mut params, abi, retptr)?;
        let results = self.core_results(alloc, abi, function, retptr)?;
        Ok(WasmSignature {
            params: Seq::from_vec(params),
            results: Seq::from_vec(results),
            indirect_params,
            retptr,
        })
    }

    /// The core signature of `task.return` of a function, which takes the core values of its result.
    #[tactic(auto, using(crate::proofs::ReturnTypes::returning_present))]
    pub fn task_return_signature(
        &self,
        alloc: Global,
        function: &Function,
    ) -> Result<WasmSignature, AllocError>
        requires sound { IsSound self.now }
        requires present { HasFunction self.now function.now }
        ensures { IfOk result (λ s. s
            ≡ signatures.signature GuestImport self.now.types (signatures.returning function.now)) }
    {
        let returned = returning(alloc, function)?;
        let signature = self.wasm_signature(alloc, AbiVariant::GuestImport, &returned)?;
        Ok(signature)
    }

    /// The core values of the parameters, or one pointer to them.
    fn passed_params(
        &self,
        alloc: Global,
        function: &Function,
        indirect: bool,
    ) -> Result<Vec<WasmType>, AllocError>
        requires sound { IsSound self.now }
        requires present { HasFunction self.now function.now }
        ensures { IfOk result (λ values. values.items
            ≡ (if indirect
            then I32 ∷ []
            else signatures.flat_params self.now.types function.now)) }
    {
        if indirect {
            one_pointer(alloc)
        } else {
            flat_params(self.types.as_slice(), function.params.as_slice(), alloc)
        }
    }

    /// The core results of a call whose result is in memory or not.
    fn core_results(
        &self,
        alloc: Global,
        abi: AbiVariant,
        function: &Function,
        in_memory: bool,
    ) -> Result<Vec<WasmType>, AllocError>
        requires sound { IsSound self.now }
        requires present { HasFunction self.now function.now }
        ensures { IfOk result (λ values. values.items
            ≡ signatures.core_results abi in_memory
            (signatures.flat_result self.now.types function.now)) }
    {
        match abi {
            AbiVariant::GuestImport => self.import_results(alloc, function, in_memory),
            AbiVariant::GuestExport => self.export_results(alloc, function, in_memory),
            AbiVariant::GuestImportAsync => one_pointer(alloc),
            AbiVariant::GuestExportAsync => one_pointer(alloc),
            AbiVariant::GuestExportAsyncStackful => Ok(Vec::new(alloc)),
        }
    }

    fn import_results(
        &self,
        alloc: Global,
        function: &Function,
        in_memory: bool,
    ) -> Result<Vec<WasmType>, AllocError>
        requires sound { IsSound self.now }
        requires present { HasFunction self.now function.now }
        ensures { IfOk result (λ values. values.items
            ≡ (if in_memory then [] else signatures.flat_result self.now.types function.now)) }
    {
        if in_memory {
            Ok(Vec::new(alloc))
        } else {
            self.flat_result(alloc, function)
        }
    }

    fn export_results(
        &self,
        alloc: Global,
        function: &Function,
        in_memory: bool,
    ) -> Result<Vec<WasmType>, AllocError>
        requires sound { IsSound self.now }
        requires present { HasFunction self.now function.now }
        ensures { IfOk result (λ values. values.items
            ≡ (if in_memory
            then I32 ∷ []
            else signatures.flat_result self.now.types function.now)) }
    {
        if in_memory {
            one_pointer(alloc)
        } else {
            self.flat_result(alloc, function)
        }
    }

    /// The core values of the result.
    fn flat_result(&self, alloc: Global, function: &Function) -> Result<Vec<WasmType>, AllocError>
        requires sound { IsSound self.now }
        requires present { HasFunction self.now function.now }
        ensures { IfOk result
            (λ values. values.items ≡ signatures.flat_result self.now.types function.now) }
    {
        let mut values = Vec::new(alloc);
        flatten(self.types.as_slice(), function.result, alloc, &mut values)?;
        Ok(values)
    }
}

/// Appends the pointer to which an import writes its result.
fn push_result_pointer(
    params: &mut Vec<WasmType>,
    abi: AbiVariant,
    in_memory: bool,
) -> Result<(), AllocError>
    ensures { OnOk result
        (params.new.items ≡ params.old.items ++ signatures.result_pointer abi in_memory) }
{
    match abi {
        AbiVariant::GuestImport => push_pointer_if(params, in_memory),
        AbiVariant::GuestImportAsync => push_pointer_if(params, in_memory),
        _ => Ok(()),
    }
}

fn push_pointer_if(params: &mut Vec<WasmType>, is_passed: bool) -> Result<(), AllocError>
    ensures { OnOk result
        (params.new.items ≡ params.old.items ++ (if is_passed then I32 ∷ [] else [])) }
{
    if is_passed {
        params.push(WasmType::I32)?;
    }
    Ok(())
}
