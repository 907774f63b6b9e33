//! An ordered set of types.
//!
//! Core standard, structure: types, modules (type indices).

ghost use Rattle.std.specs.Prelude.{◌≡◌, ◌+◌, ◌<◌, ◌^◌, [], Some, false, length, slice_get, take, OnOk, OnErr, IfOk, IfErr};
ghost use Rattle.std.specs.List.{IsDistinct, list_any};
ghost use Rattle.interned_types.specs.Interning.{is_type, interned, type_index, IsFull};

use byte_encoding::{BuildFault, next_count};
use core_bytes::TypeSection;
use core_types::FuncType;
use indexmap::IndexSet;
use std::alloc::{AllocError, Global};
use std::marker::Model;

/// Types of functions, each once, in the order in which they were first interned. Contracts see the list.
pub struct CoreTypes {
    types: IndexSet<FuncType>,
}

impl Drop for CoreTypes {
    fn drop(self) {
        let CoreTypes { types: _ } = self;
    }
}

impl Model for CoreTypes {
    ghost use Rattle.std.specs.Prelude.{List, ◌<◌, ◌^◌, length};
    ghost use Rattle.core_types.specs.declared.types.FuncType.{FuncType};

    ghost Value = { List FuncType };

    ghost view = { λ t. t.types.keys };

    ghost invariant = { λ t. length t.types.keys < 2 ^ 32 };
}

impl CoreTypes {
    /// No types. It takes no memory.
    pub fn new(alloc: Global) -> CoreTypes
        ensures { result ≡ [] }
    {
        CoreTypes {
            types: IndexSet::new(alloc),
        }
    }

    /// How many types there are.
    pub fn len(&self) -> u32
        ensures { result ≡ length self.now }
    {
        self.types.len() as u32
    }

    /// The types by their indices. No two are equal.
    pub fn as_slice(&self) -> &[FuncType]
        ensures types { result.now ≡ self.now }
        ensures distinct { IsDistinct is_type self.now }
    {
        self.types.as_slice()
    }

    /// The index of a type. A type that wasn't there is appended.
    ///
    /// It fails with [`BuildFault::TooMany`] exactly where there would be more than 2^32 - 1 types, and with
    /// [`BuildFault::Memory`] when out of memory; then the types are as they were.
    #[tactic(auto, using(crate::proofs::TypeIndices::at_earlier))]
    pub fn intern(&mut self, ty: FuncType) -> Result<u32, BuildFault>
        ensures ok { OnOk result (self.new ≡ interned self.old ty) }
        ensures index { IfOk result (λ index. index ≡ type_index self.old ty) }
        ensures at { IfOk result (λ index. slice_get self.new index ≡ Some ty) }
        ensures fits { OnOk result (length self.new < 2 ^ 32) }
        ensures err { OnErr result (self.new ≡ self.old) }
        ensures cause { IfErr result (IsFull self.old ty) }
    {
        match self.types.get_index_of(&ty) {
            Some(index) => Ok(index as u32),
            None => self.append(ty),
        }
    }

    /// Appends a type that isn't there.
    #[tactic(auto, using(crate::proofs::TypeIndices::index_is, crate::proofs::TypeIndices::at_end))]
    fn append(&mut self, ty: FuncType) -> Result<u32, BuildFault>
        requires { list_any (is_type ty) self.old ≡ false }
        ensures ok { OnOk result (self.new ≡ interned self.old ty) }
        ensures index { IfOk result (λ index. index ≡ type_index self.old ty) }
        ensures at { IfOk result (λ index. slice_get self.new index ≡ Some ty) }
        ensures fits { OnOk result (length self.new < 2 ^ 32) }
        ensures err { OnErr result (self.new ≡ self.old) }
        ensures cause { IfErr result (IsFull self.old ty) }
    {
        let index = self.len();
        next_count(index)?;
        self.types.insert(ty)?;
        Ok(index)
    }

    /// Forgets all types but the first ones, so many.
    pub fn truncate(&mut self, count: u32)
        ensures { self.new ≡ take count self.old }
    {
        self.types.truncate(count as usize);
    }

    /// The type section of a module with these types.
    pub fn section(&self, alloc: Global) -> Result<TypeSection, AllocError>
        ensures { IfOk result (λ section. section ≡ self.now) }
    {
        type_section(alloc, self.as_slice())
    }
}

/// The type section with these types.
fn type_section(alloc: Global, types: &[FuncType]) -> Result<TypeSection, AllocError>
    ensures { IfOk result (λ section. section ≡ types.now) }
{
    let mut section = TypeSection::new(alloc);
    for ty in types {
        section.function(ty.params.as_slice(), ty.results.as_slice())?;
    }
    Ok(section)
}
