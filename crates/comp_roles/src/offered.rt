//! What a core module imports, and what it offers to others, by its types.

ghost use Rattle.std.specs.Prelude.{◌≡◌};
ghost use Rattle.std.specs.List.{list_all};
ghost use Rattle.comp_roles.specs.Matching.{kind_of, at_most, bounded_by, limits_match, matches, is_number, has_numbers};

use comp_lists::Text;
use core_types::{FuncType, GlobalType, MemoryType, TableType, ValType};
use standard_kinds::ExportKind;

/// The type of what a core module imports or exports.
///
/// Core standard, structure: external types.
#[derive(Drop)]
pub enum ExternType {
    Func(FuncType),
    Table(TableType),
    Memory(MemoryType),
    Global(GlobalType),
}

/// A core import: the names of the module and the field that it is imported from, and its type.
///
/// Core standard, structure: imports.
#[derive(Drop)]
pub struct ImportType {
    pub module_name: Text,
    pub field: Text,
    pub ty: ExternType,
}

impl ExternType {
    /// The kind of an item of this type.
    pub fn kind(&self) -> ExportKind
        ensures { result ≡ kind_of self.now }
    {
        match self {
            ExternType::Func(_) => ExportKind::Func,
            ExternType::Table(_) => ExportKind::Table,
            ExternType::Memory(_) => ExportKind::Memory,
            ExternType::Global(_) => ExportKind::Global,
        }
    }

    /// Whether an item of the offered type may be given where one of this type is imported:
    /// functions and globals of the same type, tables and memories whose limits match.
    ///
    /// Core standard, validation: import matching.
    pub fn is_matched_by(&self, offered: &ExternType) -> bool
        ensures { result ≡ matches self.now offered.now }
    {
        match (self, offered) {
            (ExternType::Func(f), ExternType::Func(g)) => f == g,
            (ExternType::Table(t), ExternType::Table(u)) => {
                t.element_type == u.element_type
                    && limits_match(t.minimum, t.maximum, u.minimum, u.maximum)
            }
            (ExternType::Memory(m), ExternType::Memory(n)) => {
                limits_match(m.minimum, m.maximum, n.minimum, n.maximum)
            }
            (ExternType::Global(g), ExternType::Global(h)) => g == h,
            _ => false,
        }
    }
}

/// Whether an offered size is at most a required maximum, where there is one.
fn at_most(most: Option<u32>, size: u32) -> bool
    ensures { result ≡ at_most most size }
{
    match most {
        Some(most) => size <= most,
        None => true,
    }
}

/// Whether what is offered has a maximum where one is required, and no larger one.
fn bounded_by(most: Option<u32>, maximum: Option<u32>) -> bool
    ensures { result ≡ bounded_by most maximum }
{
    match (most, maximum) {
        (None, _) => true,
        (Some(_), None) => false,
        (Some(most), Some(maximum)) => maximum <= most,
    }
}

/// Whether offered limits, the last two, match required ones.
fn limits_match(least: u32, most: Option<u32>, minimum: u32, maximum: Option<u32>) -> bool
    ensures { result ≡ limits_match least most minimum maximum }
{
    least <= minimum && bounded_by(most, maximum) && at_most(most, minimum)
}

/// Whether values of a type are numbers.
fn is_number(ty: &ValType) -> bool
    ensures { result ≡ is_number ty.now }
{
    match ty {
        ValType::I32 | ValType::I64 | ValType::F32 | ValType::F64 => true,
        ValType::Ref(_) => false,
    }
}

/// Whether values of all these types are numbers.
fn are_numbers(types: &[ValType]) -> bool
    ensures { result ≡ list_all is_number types.now }
{
    for ty in types {
        if !is_number(ty) {
            return false;
        }
    }
    true
}

/// Whether a function takes and returns numbers alone, and no references.
pub fn has_numbers(ty: &FuncType) -> bool
    ensures { result ≡ has_numbers ty.now }
{
    are_numbers(ty.params.as_slice()) && are_numbers(ty.results.as_slice())
}
