//! Each value at the end of a buffer.
#![tactic(auto, using(byte_encoding::proofs::Pieces::writing))]

ghost use Rattle.std.specs.Prelude.{◌≡◌, ◌++◌, List, ℕ, OnOk, if◌then◌else◌};
ghost use Rattle.byte_encoding.specs.Encoding.{raw, octet, number, quantity, each, listed, named, sized, Encoding, Fits, ◌⊕◌};
ghost use Rattle.byte_encoding.specs.Written.{Writes};
ghost use Rattle.core_bytes.specs.Signed.{signed};
ghost use Rattle.core_bytes.specs.declared.entity.ConstExpr.TheVariants as constants;
ghost use Rattle.core_bytes.specs.Grammar.{entity_type, instruction, expression, constant, import_entry, defined_global, export_entry, element_segment, data_segment, local_run, body, code_entry, naming};

use crate::code::{Body, Instruction, LocalRun};
use crate::entity::{ConstExpr, EntityType};
use crate::entries::Entries;
use crate::entry::{DataSegment, DefinedGlobal, ElementSegment, Export, Import, Naming};
use crate::number::{put_blob, put_signed};
use byte_encoding::{BuildFault, Encode, put_bytes, put_count, put_each, put_index, put_tagged};
use comp_lists::Seq;
use standard_kinds::byte_of_kind;

impl<T: Encode> Encode for Entries<T> {
    ghost encoding = { listed T.encoding };

    fn put(&self, out: &mut Vec<u8>) -> Result<(), BuildFault> {
        put_count(out, self.len())?;
        put_each(out, self.as_slice())?;
        Ok(())
    }
}

impl Encode for EntityType {
    ghost encoding = { entity_type };

    fn put(&self, out: &mut Vec<u8>) -> Result<(), BuildFault> {
        match self {
            EntityType::Function(type_index) => put_tagged(out, 0x00, type_index),
            EntityType::Table(ty) => put_tagged(out, 0x01, ty),
            EntityType::Memory(ty) => put_tagged(out, 0x02, ty),
            EntityType::Global(ty) => put_tagged(out, 0x03, ty),
        }
    }
}

/// Writes the opcode of a constant, and its number.
fn put_constant(out: &mut Vec<u8>, opcode: u8, value: i64) -> Result<(), BuildFault>
    ensures { Writes out.old.items out.new.items result (octet opcode ⊕ raw (signed value)) }
{
    put_bytes(out, &[opcode])?;
    put_signed(out, value)?;
    Ok(())
}

fn put_call_indirect(out: &mut Vec<u8>, type_index: u32, table: u32) -> Result<(), BuildFault>
    ensures { Writes out.old.items out.new.items result
        (octet 0x11 ⊕ number type_index ⊕ number table) }
{
    put_tagged(out, 0x11, &type_index)?;
    put_index(out, table)?;
    Ok(())
}

impl Encode for Instruction {
    ghost encoding = { instruction };

    fn put(&self, out: &mut Vec<u8>) -> Result<(), BuildFault> {
        match self {
            Instruction::Unreachable => put_bytes(out, &[0x00]),
            Instruction::Call(function) => put_tagged(out, 0x10, function),
            Instruction::CallIndirect { type_index, table } => {
                put_call_indirect(out, *type_index, *table)
            }
            Instruction::ReturnCallRef(type_index) => put_tagged(out, 0x15, type_index),
            Instruction::Select => put_bytes(out, &[0x1b]),
            Instruction::LocalGet(local_index) => put_tagged(out, 0x20, local_index),
            Instruction::LocalSet(local_index) => put_tagged(out, 0x21, local_index),
            Instruction::GlobalGet(index) => put_tagged(out, 0x23, index),
            Instruction::GlobalSet(index) => put_tagged(out, 0x24, index),
            Instruction::I32Store => put_bytes(out, &[0x36, 0x02, 0x00]),
            Instruction::I32Const(value) => put_constant(out, 0x41, i64::from(*value)),
            Instruction::I64Const(value) => put_constant(out, 0x42, *value),
            Instruction::I32Add => put_bytes(out, &[0x6a]),
            Instruction::RefFunc(function) => put_tagged(out, 0xd2, function),
        }
    }
}

fn put_ended_constant(out: &mut Vec<u8>, opcode: u8, value: i64) -> Result<(), BuildFault>
    ensures { Writes out.old.items out.new.items result
        (octet opcode ⊕ raw (signed value) ⊕ octet 0x0b) }
{
    put_constant(out, opcode, value)?;
    put_bytes(out, &[0x0b])?;
    Ok(())
}

fn put_ended_function(out: &mut Vec<u8>, function: u32) -> Result<(), BuildFault>
    ensures { Writes out.old.items out.new.items result
        (octet 0xd2 ⊕ number function ⊕ octet 0x0b) }
{
    put_tagged(out, 0xd2, &function)?;
    put_bytes(out, &[0x0b])?;
    Ok(())
}

impl Encode for ConstExpr {
    ghost encoding = { constant };

    fn put(&self, out: &mut Vec<u8>) -> Result<(), BuildFault> {
        match *self {
            ConstExpr::I32(value) => put_ended_constant(out, 0x41, i64::from(value)),
            ConstExpr::I64(value) => put_ended_constant(out, 0x42, value),
            ConstExpr::RefFunc(function) => put_ended_function(out, function),
        }
    }
}

impl Encode for Import {
    ghost encoding = { import_entry };

    fn put(&self, out: &mut Vec<u8>) -> Result<(), BuildFault> {
        self.module_name.put(out)?;
        self.field.put(out)?;
        self.entity.put(out)?;
        Ok(())
    }
}

impl Encode for DefinedGlobal {
    ghost encoding = { defined_global };

    fn put(&self, out: &mut Vec<u8>) -> Result<(), BuildFault> {
        self.global_type.put(out)?;
        self.init.put(out)?;
        Ok(())
    }
}

impl Encode for Export {
    ghost encoding = { export_entry };

    fn put(&self, out: &mut Vec<u8>) -> Result<(), BuildFault> {
        self.name.put(out)?;
        put_bytes(out, &[byte_of_kind(self.kind)])?;
        put_index(out, self.index)?;
        Ok(())
    }
}

fn put_on_first(out: &mut Vec<u8>, offset: i32, functions: &Seq<u32>) -> Result<(), BuildFault>
    ensures { Writes out.old.items out.new.items result
        (octet 0x00 ⊕ constant (constants.I32 offset) ⊕ listed number functions.now) }
{
    put_tagged(out, 0x00, &ConstExpr::I32(offset))?;
    functions.put(out)?;
    Ok(())
}

fn put_on_table(
    out: &mut Vec<u8>,
    table: u32,
    offset: i32,
    functions: &Seq<u32>,
) -> Result<(), BuildFault>
    ensures { Writes out.old.items out.new.items result (octet 0x02 ⊕ number table
        ⊕ constant (constants.I32 offset) ⊕ octet 0x00 ⊕ listed number functions.now) }
{
    put_tagged(out, 0x02, &table)?;
    ConstExpr::I32(offset).put(out)?;
    put_bytes(out, &[0x00])?;
    functions.put(out)?;
    Ok(())
}

fn put_declared(out: &mut Vec<u8>, functions: &Seq<u32>) -> Result<(), BuildFault>
    ensures { Writes out.old.items out.new.items result
        (octet 0x03 ⊕ octet 0x00 ⊕ listed number functions.now) }
{
    put_bytes(out, &[0x03, 0x00])?;
    functions.put(out)?;
    Ok(())
}

impl Encode for ElementSegment {
    ghost encoding = { element_segment };

    fn put(&self, out: &mut Vec<u8>) -> Result<(), BuildFault> {
        match self {
            ElementSegment::Active {
                table: None,
                offset,
                functions,
            } => put_on_first(out, *offset, functions),
            ElementSegment::Active {
                table: Some(table),
                offset,
                functions,
            } => put_on_table(out, *table, *offset, functions),
            ElementSegment::Declared(functions) => put_declared(out, functions),
        }
    }
}

impl Encode for DataSegment {
    ghost encoding = { data_segment };

    fn put(&self, out: &mut Vec<u8>) -> Result<(), BuildFault> {
        put_tagged(out, 0x00, &ConstExpr::I32(self.offset))?;
        put_blob(out, self.bytes.as_slice())?;
        Ok(())
    }
}

impl Encode for LocalRun {
    ghost encoding = { local_run };

    fn put(&self, out: &mut Vec<u8>) -> Result<(), BuildFault> {
        put_index(out, self.count)?;
        self.val_type.put(out)?;
        Ok(())
    }
}

fn put_expression(out: &mut Vec<u8>, code: &[Instruction]) -> Result<(), BuildFault>
    ensures { Writes out.old.items out.new.items result (expression code.now) }
{
    put_each(out, code)?;
    put_bytes(out, &[0x0b])?;
    Ok(())
}

fn put_body(out: &mut Vec<u8>, code: &Body) -> Result<(), BuildFault>
    ensures { Writes out.old.items out.new.items result (body code.now) }
{
    code.locals.put(out)?;
    put_expression(out, code.instructions.as_slice())?;
    Ok(())
}

impl Encode for Body {
    ghost encoding = { code_entry };

    fn put(&self, out: &mut Vec<u8>) -> Result<(), BuildFault> {
        let mut buffer = Vec::new(*out.allocator());
        put_body(&mut buffer, self)?;
        put_blob(out, buffer.as_slice())
    }
}

impl Encode for Naming {
    ghost encoding = { naming };

    fn put(&self, out: &mut Vec<u8>) -> Result<(), BuildFault> {
        put_index(out, self.index)?;
        self.name.put(out)?;
        Ok(())
    }
}
