//! Types at the end of a buffer.
#![tactic(auto, using(byte_encoding::proofs::Pieces::writing))]

ghost use Rattle.std.specs.Prelude.{◌≡◌, ◌++◌, List, ℕ, OnOk, if◌then◌else◌};
ghost use Rattle.byte_encoding.specs.Encoding.{signed_leb, raw, octet, number, quantity, each, listed, named, sized, Encoding, Fits, ◌⊕◌};
ghost use Rattle.byte_encoding.specs.Written.{Writes};
ghost use Rattle.core_types.specs.Grammar.{reference_type, value_type, function_type, limits, table_type, memory_type, global_type};

use crate::types::{FuncType, GlobalType, MemoryType, RefType, TableType, ValType};
use byte_encoding::{
    BuildFault, Encode, byte_of_flag, put_bytes, put_index, put_tagged, put_type_index,
};

fn put_concrete(out: &mut Vec<u8>, type_index: u32) -> Result<(), BuildFault>
    ensures { Writes out.old.items out.new.items result (octet 0x64 ⊕ raw (signed_leb type_index)) }
{
    put_bytes(out, &[0x64])?;
    put_type_index(out, type_index)?;
    Ok(())
}

impl Encode for RefType {
    ghost encoding = { reference_type };

    fn put(&self, out: &mut Vec<u8>) -> Result<(), BuildFault> {
        match *self {
            RefType::FuncRef => put_bytes(out, &[0x70]),
            RefType::Concrete(type_index) => put_concrete(out, type_index),
        }
    }
}

impl Encode for ValType {
    ghost encoding = { value_type };

    fn put(&self, out: &mut Vec<u8>) -> Result<(), BuildFault> {
        match self {
            ValType::I32 => put_bytes(out, &[0x7f]),
            ValType::I64 => put_bytes(out, &[0x7e]),
            ValType::F32 => put_bytes(out, &[0x7d]),
            ValType::F64 => put_bytes(out, &[0x7c]),
            ValType::Ref(ty) => ty.put(out),
        }
    }
}

impl Encode for FuncType {
    ghost encoding = { function_type };

    fn put(&self, out: &mut Vec<u8>) -> Result<(), BuildFault> {
        put_tagged(out, 0x60, &self.params)?;
        self.results.put(out)?;
        Ok(())
    }
}

fn put_range(out: &mut Vec<u8>, minimum: u32, maximum: u32) -> Result<(), BuildFault>
    ensures { Writes out.old.items out.new.items result
        (octet 0x01 ⊕ number minimum ⊕ number maximum) }
{
    put_tagged(out, 0x01, &minimum)?;
    put_index(out, maximum)?;
    Ok(())
}

fn put_limits(out: &mut Vec<u8>, minimum: u32, maximum: Option<u32>) -> Result<(), BuildFault>
    ensures { Writes out.old.items out.new.items result (limits minimum maximum) }
{
    match maximum {
        None => put_tagged(out, 0x00, &minimum),
        Some(maximum) => put_range(out, minimum, maximum),
    }
}

impl Encode for TableType {
    ghost encoding = { table_type };

    fn put(&self, out: &mut Vec<u8>) -> Result<(), BuildFault> {
        self.element_type.put(out)?;
        put_limits(out, self.minimum, self.maximum)?;
        Ok(())
    }
}

impl Encode for MemoryType {
    ghost encoding = { memory_type };

    fn put(&self, out: &mut Vec<u8>) -> Result<(), BuildFault> {
        put_limits(out, self.minimum, self.maximum)
    }
}

impl Encode for GlobalType {
    ghost encoding = { global_type };

    fn put(&self, out: &mut Vec<u8>) -> Result<(), BuildFault> {
        self.val_type.put(out)?;
        put_bytes(out, &[byte_of_flag(self.mutable)])?;
        Ok(())
    }
}
