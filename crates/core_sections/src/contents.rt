//! The encoding of types, imports and exports.

ghost use Rattle.std.specs.Prelude.{◌≡◌, ◌^◌};
ghost use Rattle.core_sections.specs.Numbers.{leb_at, name_at};
ghost use Rattle.core_sections.specs.Reading.{Gives};
ghost use Rattle.core_sections.specs.Contents.{byte_at, span_of, heap_at, heap_of, ref_type_at, val_type_at, func_type_at, number_at, limits_at, limits_of, maximum_at, mutable_of, function_at, memory_at, global_at, table_at, tag_at, entity_at, import_at, kind_of, export_at};

use crate::entries::{
    CoreExport, CoreImport, EntityType, ExportIndex, ExportKind, FuncType, Limits, ValType,
};
use crate::numbers::{read_below, read_name, read_u32, read_u64};
use crate::reading::{Read, ReadFault, read_vec};
use comp_lists::Text;
use std::alloc::Global;

pub(crate) fn read_byte(bytes: &[u8]) -> Result<(u8, &[u8]), ReadFault>
    ensures { Gives (λ x. (x.0, x.1.now)) result (byte_at bytes.now) }
{
    match bytes {
        [] => Err(ReadFault::Malformed),
        [first, rest @ ..] => Ok((*first, rest)),
    }
}

pub(crate) fn read_index(bytes: &[u8]) -> Result<(u32, &[u8]), ReadFault>
    ensures { Gives (λ x. (x.0, x.1.now)) result (leb_at (2 ^ 32) bytes.now) }
{
    read_u32(bytes).ok_or(ReadFault::Malformed)
}

fn read_text(alloc: Global, bytes: &[u8]) -> Result<(Text, &[u8]), ReadFault>
    ensures { Gives (λ x. (x.0, x.1.now)) result (name_at bytes.now) }
{
    let Some((name, rest)) = read_name(bytes) else {
        return Err(ReadFault::Malformed);
    };
    Ok((Text::from_str(alloc, name)?, rest))
}

/// How many values so many bytes of a number can have.
pub(crate) fn span_of(bytes: usize) -> u128
    ensures { result ≡ span_of bytes }
{
    match bytes {
        1 => 1 << 7,
        2 => 1 << 14,
        3 => 1 << 21,
        4 => 1 << 28,
        5 => 1 << 35,
        6 => 1 << 42,
        7 => 1 << 49,
        8 => 1 << 56,
        9 => 1 << 63,
        _ => 1 << 70,
    }
}

/// Whether a signed number of 33 bits, given by its bits and their span, is the heap type of all
/// functions: an index of a type isn't, and a negative number is one of the abstract heap types.
fn heap_type(bits: u128, span: u128) -> Result<bool, ReadFault>
    ensures { Gives (λ x. x) result (heap_of bits span) }
{
    if bits < span / 2 {
        return if bits < 1 << 32 {
            Ok(false)
        } else {
            Err(ReadFault::Malformed)
        };
    }
    if bits > span {
        return Err(ReadFault::Malformed);
    }
    match span - bits {
        16 => Ok(true),
        12..=23 => Ok(false),
        _ => Err(ReadFault::Malformed),
    }
}

pub(crate) fn read_heap(bytes: &[u8]) -> Result<(bool, &[u8]), ReadFault>
    ensures { Gives (λ x. (x.0, x.1.now)) result (heap_at bytes.now) }
{
    let Some((bits, rest)) = read_below(1 << 35, bytes) else {
        return Err(ReadFault::Malformed);
    };
    let is_func = heap_type(bits, span_of(bytes.len() - rest.len()))?;
    Ok((is_func, rest))
}

fn read_ref_type(kind: u8, bytes: &[u8]) -> Result<(ValType, &[u8]), ReadFault>
    ensures { Gives (λ x. (x.0, x.1.now)) result (ref_type_at kind bytes.now) }
{
    match kind {
        0x70 => Ok((ValType::FuncRef, bytes)),
        0x69..=0x74 => Ok((ValType::OtherRef, bytes)),
        0x63 => {
            let (is_func, rest) = read_heap(bytes)?;
            let ty = if is_func {
                ValType::FuncRef
            } else {
                ValType::OtherRef
            };
            Ok((ty, rest))
        }
        0x64 => {
            let (_, rest) = read_heap(bytes)?;
            Ok((ValType::OtherRef, rest))
        }
        _ => Err(ReadFault::Malformed),
    }
}

impl Read for ValType {
    ghost use Rattle.core_sections.specs.Contents.{val_type_at};

    type Value = ValType;

    ghost at = { val_type_at };

    #[tactic(auto, unfolding(crate::specs::Contents::val_type_at))]
    fn read(_alloc: Global, bytes: &[u8]) -> Result<(ValType, &[u8]), ReadFault> {
        let (byte, rest) = read_byte(bytes)?;
        match byte {
            0x7f => Ok((ValType::I32, rest)),
            0x7e => Ok((ValType::I64, rest)),
            0x7d => Ok((ValType::F32, rest)),
            0x7c => Ok((ValType::F64, rest)),
            0x7b => Ok((ValType::V128, rest)),
            kind => read_ref_type(kind, rest),
        }
    }
}

impl Read for FuncType {
    ghost use Rattle.core_sections.specs.Contents.{func_type_at};

    type Value = FuncType;

    ghost at = { func_type_at };

    #[tactic(auto, unfolding(crate::specs::Contents::func_type_at))]
    fn read(alloc: Global, bytes: &[u8]) -> Result<(FuncType, &[u8]), ReadFault> {
        let (byte, rest) = read_byte(bytes)?;
        if byte != 0x60 {
            return Err(ReadFault::Malformed);
        }
        let (params, rest) = read_vec::<ValType>(alloc, rest)?;
        let (results, rest) = read_vec::<ValType>(alloc, rest)?;
        Ok((FuncType { params, results }, rest))
    }
}

/// A number of 64 bits, or of 32.
fn read_number(is_long: bool, bytes: &[u8]) -> Result<(u64, &[u8]), ReadFault>
    ensures { Gives (λ x. (x.0, x.1.now)) result (number_at is_long bytes.now) }
{
    if is_long {
        return read_u64(bytes).ok_or(ReadFault::Malformed);
    }
    let (number, rest) = read_index(bytes)?;
    Ok((number as u64, rest))
}

fn read_maximum(
    is_there: bool,
    is_long: bool,
    bytes: &[u8],
) -> Result<(Option<u64>, &[u8]), ReadFault>
    ensures { Gives (λ x. (x.0, x.1.now)) result (maximum_at is_there is_long bytes.now) }
{
    if !is_there {
        return Ok((None, bytes));
    }
    let (number, rest) = read_number(is_long, bytes)?;
    Ok((Some(number), rest))
}

/// What follows the byte of flags.
fn read_limits_of(
    is_long: bool,
    has_maximum: bool,
    is_wide: bool,
    bytes: &[u8],
) -> Result<(Limits, &[u8]), ReadFault>
    ensures { Gives (λ x. (x.0, x.1.now)) result (limits_of is_long has_maximum is_wide bytes.now) }
{
    let (minimum, rest) = read_number(is_long, bytes)?;
    let (maximum, rest) = read_maximum(has_maximum, is_long, rest)?;
    let limits = Limits {
        minimum,
        maximum,
        is_wide,
    };
    Ok((limits, rest))
}

impl Read for Limits {
    ghost use Rattle.core_sections.specs.Contents.{limits_at};

    type Value = Limits;

    ghost at = { limits_at };

    #[tactic(auto, unfolding(crate::specs::Contents::limits_at))]
    fn read(_alloc: Global, bytes: &[u8]) -> Result<(Limits, &[u8]), ReadFault> {
        let (flags, rest) = read_byte(bytes)?;
        match flags {
            0 => read_limits_of(false, false, false, rest),
            1 => read_limits_of(false, true, false, rest),
            2 => read_limits_of(false, false, true, rest),
            3 => read_limits_of(false, true, true, rest),
            4 | 6 => read_limits_of(true, false, true, rest),
            5 | 7 => read_limits_of(true, true, true, rest),
            _ => Err(ReadFault::Malformed),
        }
    }
}

fn mutable(byte: u8) -> Result<bool, ReadFault>
    ensures { Gives (λ x. x) result (mutable_of byte) }
{
    match byte {
        0 => Ok(false),
        1 => Ok(true),
        _ => Err(ReadFault::Malformed),
    }
}

pub(crate) fn read_function(bytes: &[u8]) -> Result<(EntityType, &[u8]), ReadFault>
    ensures { Gives (λ x. (x.0, x.1.now)) result (function_at bytes.now) }
{
    let (index, rest) = read_index(bytes)?;
    Ok((EntityType::Function(index), rest))
}

pub(crate) fn read_memory(alloc: Global, bytes: &[u8]) -> Result<(EntityType, &[u8]), ReadFault>
    ensures { Gives (λ x. (x.0, x.1.now)) result (memory_at bytes.now) }
{
    let (limits, rest) = Limits::read(alloc, bytes)?;
    Ok((EntityType::Memory(limits), rest))
}

pub(crate) fn read_global(alloc: Global, bytes: &[u8]) -> Result<(EntityType, &[u8]), ReadFault>
    ensures { Gives (λ x. (x.0, x.1.now)) result (global_at bytes.now) }
{
    let (val_type, rest) = ValType::read(alloc, bytes)?;
    let (byte, rest) = read_byte(rest)?;
    let mutable = mutable(byte)?;
    Ok((EntityType::Global { val_type, mutable }, rest))
}

pub(crate) fn read_table(alloc: Global, bytes: &[u8]) -> Result<(EntityType, &[u8]), ReadFault>
    ensures { Gives (λ x. (x.0, x.1.now)) result (table_at bytes.now) }
{
    let (kind, rest) = read_byte(bytes)?;
    let (element, rest) = read_ref_type(kind, rest)?;
    let (limits, rest) = Limits::read(alloc, rest)?;
    Ok((EntityType::Table { element, limits }, rest))
}

fn read_tag(bytes: &[u8]) -> Result<(EntityType, &[u8]), ReadFault>
    ensures { Gives (λ x. (x.0, x.1.now)) result (tag_at bytes.now) }
{
    let (attribute, rest) = read_byte(bytes)?;
    if attribute != 0 {
        return Err(ReadFault::Malformed);
    }
    let (index, rest) = read_index(rest)?;
    Ok((EntityType::Tag(index), rest))
}

impl Read for EntityType {
    ghost use Rattle.core_sections.specs.Contents.{entity_at};

    type Value = EntityType;

    ghost at = { entity_at };

    #[tactic(auto, unfolding(crate::specs::Contents::entity_at))]
    fn read(alloc: Global, bytes: &[u8]) -> Result<(EntityType, &[u8]), ReadFault> {
        let (kind, rest) = read_byte(bytes)?;
        match kind {
            0 => read_function(rest),
            1 => read_table(alloc, rest),
            2 => read_memory(alloc, rest),
            3 => read_global(alloc, rest),
            4 => read_tag(rest),
            _ => Err(ReadFault::Malformed),
        }
    }
}

impl Read for CoreImport {
    ghost use Rattle.core_sections.specs.Contents.{import_at};

    type Value = CoreImport;

    ghost at = { import_at };

    #[tactic(auto, unfolding(crate::specs::Contents::import_at))]
    fn read(alloc: Global, bytes: &[u8]) -> Result<(CoreImport, &[u8]), ReadFault> {
        let (module, rest) = read_text(alloc, bytes)?;
        let (field, rest) = read_text(alloc, rest)?;
        let (entity, rest) = EntityType::read(alloc, rest)?;
        let import = CoreImport {
            module,
            field,
            entity,
        };
        Ok((import, rest))
    }
}

fn export_kind(byte: u8) -> Result<ExportKind, ReadFault>
    ensures { Gives (λ x. x) result (kind_of byte) }
{
    match byte {
        0 => Ok(ExportKind::Function),
        1 => Ok(ExportKind::Table),
        2 => Ok(ExportKind::Memory),
        3 => Ok(ExportKind::Global),
        4 => Ok(ExportKind::Tag),
        _ => Err(ReadFault::Malformed),
    }
}

impl Read for CoreExport {
    ghost use Rattle.core_sections.specs.Contents.{export_at};

    type Value = CoreExport;

    ghost at = { export_at };

    #[tactic(auto, unfolding(crate::specs::Contents::export_at))]
    fn read(alloc: Global, bytes: &[u8]) -> Result<(CoreExport, &[u8]), ReadFault> {
        let (name, rest) = read_text(alloc, bytes)?;
        let (byte, rest) = read_byte(rest)?;
        let kind = export_kind(byte)?;
        let (index, rest) = read_index(rest)?;
        let index = ExportIndex { kind, index };
        Ok((CoreExport { name, index }, rest))
    }
}
