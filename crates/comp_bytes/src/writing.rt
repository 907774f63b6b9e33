//! Each definition at the end of a buffer.

ghost use Rattle.std.specs.Prelude.{◌≡◌, ◌++◌, List, ℕ, OnOk, if◌then◌else◌};
ghost use Rattle.byte_encoding.specs.Encoding.{signed_leb, raw, octet, number, quantity, each, listed, named, optional, Encoding, Fits, ◌⊕◌};
ghost use Rattle.measured_bytes.specs.Outputs.{Puts};
ghost use Rattle.standard_kinds.specs.Bytes.{kind_byte};
ghost use Rattle.comp_bytes.specs.Grammar.{export_byte, sort_bytes, primitive_byte, value_type, field, case_of, defined_type, function_result, function_type, resource_type, type_def, extern_name, description_bytes, alias_bytes, member, instance_type, option_bytes, intrinsic_bytes, context_byte, core_argument, core_inline_export, argument};
ghost use Rattle.byte_encoding.specs.Encoding.{flag};

use crate::canon::{CanonicalOption, ContextType, Intrinsic};
use crate::def::{Argument, CoreArgument, CoreInlineExport};
use crate::space::{ComponentExportKind, Sort};
use crate::types::{
    Alias, Case, ComponentValType, DefinedType, Description, ExternName, Field, FuncTypeDef,
    InstanceType, Member, TypeDef,
};
use byte_encoding::byte_of_flag;
use comp_lists::{Seq, Text};
use measured_bytes::{Emit, Output, put_bytes, put_index, put_tagged, put_type_index};
use standard_kinds::{Primitive, byte_of_kind};

fn byte_of_export(kind: ComponentExportKind) -> u8
    ensures { result ≡ export_byte kind }
{
    match kind {
        ComponentExportKind::Func => 0x01,
        ComponentExportKind::Type => 0x03,
        ComponentExportKind::Component => 0x04,
        ComponentExportKind::Instance => 0x05,
    }
}

fn byte_of_primitive(primitive: Primitive) -> u8
    ensures { result ≡ primitive_byte primitive }
{
    match primitive {
        Primitive::Bool => 0x7f,
        Primitive::S8 => 0x7e,
        Primitive::U8 => 0x7d,
        Primitive::S16 => 0x7c,
        Primitive::U16 => 0x7b,
        Primitive::S32 => 0x7a,
        Primitive::U32 => 0x79,
        Primitive::S64 => 0x78,
        Primitive::U64 => 0x77,
        Primitive::F32 => 0x76,
        Primitive::F64 => 0x75,
        Primitive::Char => 0x74,
        Primitive::String => 0x73,
        Primitive::ErrorContext => 0x64,
    }
}

impl Emit for Sort {
    ghost encoding = { sort_bytes };

    fn emit(&self, out: &mut Output) {
        match *self {
            Sort::Core(kind) => put_bytes(out, &[0x00, byte_of_kind(kind)]),
            Sort::Func => put_bytes(out, &[0x01]),
            Sort::Type => put_bytes(out, &[0x03]),
            Sort::Component => put_bytes(out, &[0x04]),
            Sort::Instance => put_bytes(out, &[0x05]),
        }
    }
}

impl Emit for ComponentValType {
    ghost encoding = { value_type };

    fn emit(&self, out: &mut Output) {
        match *self {
            ComponentValType::Primitive(primitive) => {
                put_bytes(out, &[byte_of_primitive(primitive)])
            }
            ComponentValType::Defined(index) => put_type_index(out, index),
        }
    }
}

impl Emit for Field {
    ghost encoding = { field };

    fn emit(&self, out: &mut Output) {
        self.name.emit(out);
        self.ty.emit(out);
    }
}

impl Emit for Case {
    ghost encoding = { case_of };

    fn emit(&self, out: &mut Output) {
        self.name.emit(out);
        self.ty.emit(out);
        put_bytes(out, &[0x00]);
    }
}

impl Emit for DefinedType {
    ghost encoding = { defined_type };

    fn emit(&self, out: &mut Output) {
        match self {
            DefinedType::Primitive(primitive) => put_bytes(out, &[byte_of_primitive(*primitive)]),
            DefinedType::Record(fields) => put_tagged(out, 0x72, fields),
            DefinedType::Variant(cases) => put_tagged(out, 0x71, cases),
            DefinedType::List(ty) => put_tagged(out, 0x70, ty),
            DefinedType::Tuple(types) => put_tagged(out, 0x6f, types),
            DefinedType::Flags(names) => put_tagged(out, 0x6e, names),
            DefinedType::Enum(names) => put_tagged(out, 0x6d, names),
            DefinedType::Option(ty) => put_tagged(out, 0x6b, ty),
            DefinedType::Result { ok, err } => put_result_type(out, ok, err),
            DefinedType::Own(index) => put_tagged(out, 0x69, index),
            DefinedType::Borrow(index) => put_tagged(out, 0x68, index),
            DefinedType::Stream(ty) => put_tagged(out, 0x66, ty),
            DefinedType::Future(ty) => put_tagged(out, 0x65, ty),
        }
    }
}

/// Writes two bytes that say what follows, and an index.
fn put_twice_tagged(out: &mut Output, first: u8, second: u8, index: u32)
    ensures { Puts out.old out.new (octet first ⊕ octet second ⊕ number index) }
{
    put_bytes(out, &[first, second]);
    put_index(out, index);
}

fn put_result_type(out: &mut Output, ok: &Option<ComponentValType>, err: &Option<ComponentValType>)
    ensures { Puts out.old out.new
        (octet 0x6a ⊕ optional value_type ok.now ⊕ optional value_type err.now) }
{
    put_tagged(out, 0x6a, ok);
    err.emit(out);
}

fn put_result(out: &mut Output, ty: &Option<ComponentValType>)
    ensures { Puts out.old out.new (function_result ty.now) }
{
    match ty {
        None => put_bytes(out, &[0x01, 0x00]),
        Some(ty) => put_tagged(out, 0x00, ty),
    }
}

fn put_function(out: &mut Output, tag: u8, params: &Seq<Field>, returned: &Option<ComponentValType>)
    ensures { Puts out.old out.new
        (octet tag ⊕ listed field params.now ⊕ function_result returned.now) }
{
    put_tagged(out, tag, params);
    put_result(out, returned);
}

impl Emit for FuncTypeDef {
    ghost encoding = { function_type };

    fn emit(&self, out: &mut Output) {
        let tag = if self.async_ { 0x43 } else { 0x40 };
        put_function(out, tag, &self.params, &self.result);
    }
}

fn put_resource(out: &mut Output, destructor: &Option<u32>)
    ensures { Puts out.old out.new (resource_type destructor.now) }
{
    put_bytes(out, &[0x3f, 0x7f]);
    destructor.emit(out);
}

impl Emit for TypeDef {
    ghost encoding = { type_def };

    fn emit(&self, out: &mut Output) {
        match self {
            TypeDef::Func(func) => func.emit(out),
            TypeDef::Resource(destructor) => put_resource(out, destructor),
            TypeDef::Defined(ty) => ty.emit(out),
        }
    }
}

fn put_versioned(out: &mut Output, name: &Text, suffix: &Text)
    ensures { Puts out.old out.new (octet 0x01 ⊕ named name.now ⊕ named suffix.now) }
{
    put_tagged(out, 0x01, name);
    suffix.emit(out);
}

impl Emit for ExternName {
    ghost encoding = { extern_name };

    fn emit(&self, out: &mut Output) {
        match &self.version_suffix {
            None => put_tagged(out, 0x00, &self.name),
            Some(suffix) => put_versioned(out, &self.name, suffix),
        }
    }
}

impl Emit for Description {
    ghost encoding = { description_bytes };

    fn emit(&self, out: &mut Output) {
        match self {
            Description::Func(index) => put_tagged(out, 0x01, index),
            Description::TypeEqual(index) => put_twice_tagged(out, 0x03, 0x00, *index),
            Description::SubResource => put_bytes(out, &[0x03, 0x01]),
            Description::Instance(index) => put_tagged(out, 0x05, index),
        }
    }
}

/// Writes what an alias names in an instance.
fn put_alias(out: &mut Output, tags: &[u8], instance: u32, name: &Text)
    ensures { Puts out.old out.new (raw tags.now ⊕ number instance ⊕ named name.now) }
{
    put_bytes(out, tags);
    put_index(out, instance);
    name.emit(out);
}

fn put_outer(out: &mut Output, count: u32, index: u32)
    ensures { Puts out.old out.new (octet 0x03 ⊕ octet 0x02 ⊕ number count ⊕ number index) }
{
    put_twice_tagged(out, 0x03, 0x02, count);
    put_index(out, index);
}

impl Emit for Alias {
    ghost encoding = { alias_bytes };

    fn emit(&self, out: &mut Output) {
        match self {
            Alias::Export {
                kind,
                instance,
                name,
            } => put_alias(out, &[byte_of_export(*kind), 0x00], *instance, name),
            Alias::CoreExport {
                kind,
                instance,
                name,
            } => put_alias(out, &[0x00, byte_of_kind(*kind), 0x01], *instance, name),
            Alias::Outer { count, index } => put_outer(out, *count, *index),
        }
    }
}

pub(crate) fn put_extern(out: &mut Output, name: &ExternName, description: Description)
    ensures { Puts out.old out.new (extern_name name.now ⊕ description_bytes description) }
{
    name.emit(out);
    description.emit(out);
}

fn put_tagged_extern(out: &mut Output, name: &ExternName, description: Description)
    ensures { Puts out.old out.new
        (octet 0x04 ⊕ extern_name name.now ⊕ description_bytes description) }
{
    put_tagged(out, 0x04, name);
    description.emit(out);
}

impl Emit for Member {
    ghost encoding = { member };

    fn emit(&self, out: &mut Output) {
        match self {
            Member::Type(ty) => put_tagged(out, 0x01, ty),
            Member::Alias(alias) => put_tagged(out, 0x02, alias),
            Member::Export { name, description } => put_tagged_extern(out, name, *description),
        }
    }
}

impl Emit for CanonicalOption {
    ghost encoding = { option_bytes };

    fn emit(&self, out: &mut Output) {
        match self {
            CanonicalOption::Utf8 => put_bytes(out, &[0x00]),
            CanonicalOption::Utf16 => put_bytes(out, &[0x01]),
            CanonicalOption::CompactUtf16 => put_bytes(out, &[0x02]),
            CanonicalOption::Memory(index) => put_tagged(out, 0x03, index),
            CanonicalOption::Realloc(index) => put_tagged(out, 0x04, index),
            CanonicalOption::PostReturn(index) => put_tagged(out, 0x05, index),
            CanonicalOption::Async => put_bytes(out, &[0x06]),
            CanonicalOption::Callback(index) => put_tagged(out, 0x07, index),
        }
    }
}

fn put_task_return(out: &mut Output, ty: &Option<ComponentValType>, options: &Seq<CanonicalOption>)
    ensures { Puts out.old out.new
        (octet 0x09 ⊕ function_result ty.now ⊕ listed option_bytes options.now) }
{
    put_bytes(out, &[0x09]);
    put_result(out, ty);
    options.emit(out);
}

fn put_with_options(out: &mut Output, tag: u8, index: u32, options: &Seq<CanonicalOption>)
    ensures { Puts out.old out.new (octet tag ⊕ number index ⊕ listed option_bytes options.now) }
{
    put_tagged(out, tag, &index);
    options.emit(out);
}

fn byte_of_context(ty: ContextType) -> u8
    ensures { result ≡ context_byte ty }
{
    match ty {
        ContextType::I32 => 0x7f,
        ContextType::I64 => 0x7e,
    }
}

fn put_context(out: &mut Output, tag: u8, ty: u8, slot: u32)
    ensures { Puts out.old out.new (octet tag ⊕ octet ty ⊕ number slot) }
{
    put_bytes(out, &[tag, ty]);
    put_index(out, slot);
}

fn put_with_flag(out: &mut Output, tag: u8, index: u32, flag: u8)
    ensures { Puts out.old out.new (octet tag ⊕ number index ⊕ octet flag) }
{
    put_tagged(out, tag, &index);
    put_bytes(out, &[flag]);
}

impl Emit for Intrinsic {
    ghost encoding = { intrinsic_bytes };

    fn emit(&self, out: &mut Output) {
        match self {
            Intrinsic::ResourceNew(index) => put_tagged(out, 0x02, index),
            Intrinsic::ResourceDrop(index) => put_tagged(out, 0x03, index),
            Intrinsic::ResourceRep(index) => put_tagged(out, 0x04, index),
            Intrinsic::TaskCancel => put_bytes(out, &[0x05]),
            Intrinsic::SubtaskCancel { async_ } => put_bytes(out, &[0x06, byte_of_flag(*async_)]),
            Intrinsic::TaskReturn { result, options } => put_task_return(out, result, options),
            Intrinsic::ContextGet { ty, slot } => put_context(
                out,
                0x0a,
                byte_of_context(*ty),
                *slot,
            ),
            Intrinsic::ContextSet { ty, slot } => put_context(
                out,
                0x0b,
                byte_of_context(*ty),
                *slot,
            ),
            Intrinsic::SubtaskDrop => put_bytes(out, &[0x0d]),
            Intrinsic::StreamNew(index) => put_tagged(out, 0x0e, index),
            Intrinsic::StreamRead { ty, options } => put_with_options(out, 0x0f, *ty, options),
            Intrinsic::StreamWrite { ty, options } => put_with_options(out, 0x10, *ty, options),
            Intrinsic::StreamCancelRead { ty, async_ } => put_with_flag(
                out,
                0x11,
                *ty,
                byte_of_flag(*async_),
            ),
            Intrinsic::StreamCancelWrite { ty, async_ } => put_with_flag(
                out,
                0x12,
                *ty,
                byte_of_flag(*async_),
            ),
            Intrinsic::StreamDropReadable(index) => put_tagged(out, 0x13, index),
            Intrinsic::StreamDropWritable(index) => put_tagged(out, 0x14, index),
            Intrinsic::FutureNew(index) => put_tagged(out, 0x15, index),
            Intrinsic::FutureRead { ty, options } => put_with_options(out, 0x16, *ty, options),
            Intrinsic::FutureWrite { ty, options } => put_with_options(out, 0x17, *ty, options),
            Intrinsic::FutureCancelRead { ty, async_ } => put_with_flag(
                out,
                0x18,
                *ty,
                byte_of_flag(*async_),
            ),
            Intrinsic::FutureCancelWrite { ty, async_ } => put_with_flag(
                out,
                0x19,
                *ty,
                byte_of_flag(*async_),
            ),
            Intrinsic::FutureDropReadable(index) => put_tagged(out, 0x1a, index),
            Intrinsic::FutureDropWritable(index) => put_tagged(out, 0x1b, index),
            Intrinsic::ErrorContextNew { options } => put_tagged(out, 0x1c, options),
            Intrinsic::ErrorContextDebugMessage { options } => put_tagged(out, 0x1d, options),
            Intrinsic::ErrorContextDrop => put_bytes(out, &[0x1e]),
            Intrinsic::WaitableSetNew => put_bytes(out, &[0x1f]),
            Intrinsic::WaitableSetWait { memory } => put_twice_tagged(out, 0x20, 0x00, *memory),
            Intrinsic::WaitableSetPoll { memory } => put_twice_tagged(out, 0x21, 0x00, *memory),
            Intrinsic::WaitableSetDrop => put_bytes(out, &[0x22]),
            Intrinsic::WaitableJoin => put_bytes(out, &[0x23]),
            Intrinsic::BackpressureInc => put_bytes(out, &[0x24]),
            Intrinsic::BackpressureDec => put_bytes(out, &[0x25]),
        }
    }
}

impl Emit for CoreArgument {
    ghost encoding = { core_argument };

    fn emit(&self, out: &mut Output) {
        self.name.emit(out);
        put_bytes(out, &[0x12]);
        put_index(out, self.instance);
    }
}

fn put_core_export(out: &mut Output, name: &Text, kind: u8, index: u32)
    ensures { Puts out.old out.new (named name.now ⊕ octet kind ⊕ number index) }
{
    name.emit(out);
    put_bytes(out, &[kind]);
    put_index(out, index);
}

impl Emit for CoreInlineExport {
    ghost encoding = { core_inline_export };

    fn emit(&self, out: &mut Output) {
        put_core_export(out, &self.name, byte_of_kind(self.kind), self.index);
    }
}

impl Emit for Argument {
    ghost encoding = { argument };

    fn emit(&self, out: &mut Output) {
        self.name.emit(out);
        self.sort.emit(out);
        put_index(out, self.index);
    }
}

impl Emit for InstanceType {
    ghost encoding = { instance_type };

    fn emit(&self, out: &mut Output) {
        put_tagged(out, 0x42, &self.members)
    }
}
