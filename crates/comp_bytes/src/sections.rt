//! Definitions in sections.

ghost use Rattle.std.specs.Prelude.{◌≡◌, ◌++◌, ◌<◌, ◌≤◌, ◌∷◌, List, ℕ, Bool, OnOk, IfOk, IfErr, length, take, drop, map, if◌then◌else◌};
ghost use Rattle.byte_encoding.specs.Encoding.{leb, raw, octet, number, quantity, each, listed, named, optional, sized, Encoding, Fits, ◌⊕◌};
ghost use Rattle.comp_bytes.specs.Sections.{Entry, shares, contents, section, sections, component, section_of};
ghost use Rattle.byte_encoding.specs.Written.{Refused};
ghost use Rattle.measured_bytes.specs.Outputs.{Puts, IsSize};
ghost use Rattle.comp_bytes.specs.Grammar.{Encodes, encoding_of, item, definition, core_argument, core_inline_export, argument, alias_bytes, option_bytes, extern_name, sort_bytes, description_bytes};

use crate::canon::CanonicalOption;
use crate::def::{Argument, CoreArgument, Def, Item};
use crate::space::Sort;
use crate::types::{Description, ExternName};
use crate::writing::put_extern;
use byte_encoding::{BuildFault, Excess};
use comp_lists::{Seq, Text};
use measured_bytes::{
    Emit, Output, encoded, encoded_size, put_bytes, put_count, put_index, put_sized, put_tagged,
};
use std::alloc::Global;

/// What a section contains.
pub(crate) trait Definition {
    ghost entry: { Self → Entry };

    fn section_id(&self) -> u8
        ensures { result ≡ (entry self.now).id };

    fn put_entry(&self, out: &mut Output)
        ensures { Puts out.old out.new (entry self.now).text };
}

fn is_shared(id: u8) -> bool
    ensures { result ≡ shares id }
{
    !(id == 0 || id == 1 || id == 4)
}

/// How many definitions at the front share a section: at least one.
fn run_len<T: Definition>(items: &[T]) -> usize
    requires { 0 < length items.now }
    ensures some { 0 < result }
    ensures within { result ≤ length items.now }
    ensures run { sections (map T.entry items.now)
        ≡ section_of (map T.entry (take result items.now))
        ∷ sections (map T.entry (drop result items.now)) }
{
    let id = items[0].section_id();
    if !is_shared(id) {
        return 1;
    }
    let mut n = 1usize;
    while n < items.len() && items[n].section_id() == id {
        n += 1;
    }
    n
}

fn put_run<T: Definition>(out: &mut Output, run: &[T])
    ensures { Puts out.old out.new (each (λ x. (T.entry x).text) run.now) }
{
    for item in run {
        item.put_entry(out);
    }
}

fn put_counted_run<T: Definition>(out: &mut Output, run: &[T])
    ensures { Puts out.old out.new (listed (λ x. (T.entry x).text) run.now) }
{
    put_count(out, run);
    put_run(out, run);
}

fn put_contents<T: Definition>(out: &mut Output, shared: bool, run: &[T])
    ensures { Puts out.old out.new (contents (λ x. (T.entry x).text) shared run.now) }
{
    if shared {
        put_counted_run(out, run)
    } else {
        put_run(out, run)
    }
}

/// The contents of a section.
#[derive(Drop)]
struct Contents<'a, T> {
    shared: bool,
    run: &'a [T],
}

impl<'a, T: Definition> Emit for Contents<'a, T> {
    ghost encoding = { λ c. contents (λ x. (T.entry x).text) c.shared c.run.now };

    fn emit(&self, out: &mut Output) {
        put_contents(out, self.shared, self.run);
    }
}

fn put_section<T: Definition>(out: &mut Output, run: &[T])
    requires { 0 < length run.now }
    ensures { Puts out.old out.new (section (section_of (map T.entry run.now))) }
{
    let id = run[0].section_id();
    put_bytes(out, &[id]);
    put_sized(
        out,
        &Contents {
            shared: is_shared(id),
            run,
        },
    );
}

fn put_sections<T: Definition>(out: &mut Output, items: &[T])
    ensures { Puts out.old out.new (each section (sections (map T.entry items.now))) }
{
    let mut rest = items;
    while !rest.is_empty() {
        let (run, after) = rest.split_at(run_len(rest));
        put_section(out, run);
        rest = after;
    }
}

pub(crate) fn put_component<T: Definition>(out: &mut Output, items: &[T])
    ensures { Puts out.old out.new (component (map T.entry items.now)) }
{
    put_bytes(out, &[0x00, 0x61, 0x73, 0x6d, 0x0d, 0x00, 0x01, 0x00]);
    put_sections(out, items);
}

fn put_core_instantiate(out: &mut Output, module: u32, args: &Seq<CoreArgument>)
    ensures { Puts out.old out.new (octet 0x00 ⊕ number «module» ⊕ listed core_argument args.now) }
{
    put_tagged(out, 0x00, &module);
    args.emit(out);
}

fn put_instantiate(out: &mut Output, component: u32, args: &Seq<Argument>)
    ensures { Puts out.old out.new (octet 0x00 ⊕ number component ⊕ listed argument args.now) }
{
    put_tagged(out, 0x00, &component);
    args.emit(out);
}

fn put_lower(out: &mut Output, func: u32, options: &Seq<CanonicalOption>)
    ensures { Puts out.old out.new
        (octet 0x01 ⊕ octet 0x00 ⊕ number func ⊕ listed option_bytes options.now) }
{
    put_bytes(out, &[0x01, 0x00]);
    put_index(out, func);
    options.emit(out);
}

fn put_lift(out: &mut Output, func: u32, options: &Seq<CanonicalOption>, ty: u32)
    ensures { Puts out.old out.new
        (octet 0x00 ⊕ octet 0x00 ⊕ number func ⊕ listed option_bytes options.now ⊕ number ty) }
{
    put_bytes(out, &[0x00, 0x00]);
    put_index(out, func);
    options.emit(out);
    put_index(out, ty);
}

fn put_export(
    out: &mut Output,
    name: &ExternName,
    sort: Sort,
    index: u32,
    description: &Option<Description>,
)
    ensures { Puts out.old out.new (extern_name name.now ⊕ sort_bytes sort ⊕ number index
        ⊕ optional description_bytes description.now) }
{
    name.emit(out);
    sort.emit(out);
    put_index(out, index);
    description.emit(out);
}

fn put_custom(out: &mut Output, name: &Text, contents: &[u8])
    ensures { Puts out.old out.new (named name.now ⊕ raw contents.now) }
{
    name.emit(out);
    put_bytes(out, contents);
}

impl Definition for Item {
    ghost entry = { item };

    fn section_id(&self) -> u8 {
        match self {
            Item::CoreModule(_) => 1,
            Item::CoreInstantiate { .. } => 2,
            Item::CoreExports(_) => 2,
            Item::Instantiate { .. } => 5,
            Item::Alias(_) => 6,
            Item::Type(_) => 7,
            Item::InstanceType(_) => 7,
            Item::Lift { .. } => 8,
            Item::Lower { .. } => 8,
            Item::Intrinsic(_) => 8,
            Item::Import { .. } => 10,
            Item::Export { .. } => 11,
            Item::Custom { .. } => 0,
        }
    }

    fn put_entry(&self, out: &mut Output) {
        match self {
            Item::CoreModule(module) => put_bytes(out, module.as_slice()),
            Item::CoreInstantiate { module, args } => put_core_instantiate(out, *module, args),
            Item::CoreExports(exports) => put_tagged(out, 0x01, exports),
            Item::Instantiate { component, args } => put_instantiate(out, *component, args),
            Item::Alias(alias) => alias.emit(out),
            Item::Type(ty) => ty.emit(out),
            Item::InstanceType(ty) => ty.emit(out),
            Item::Lift { func, options, ty } => put_lift(out, *func, options, *ty),
            Item::Lower { func, options } => put_lower(out, *func, options),
            Item::Intrinsic(intrinsic) => intrinsic.emit(out),
            Item::Import { name, description } => put_extern(out, name, *description),
            Item::Export {
                name,
                sort,
                index,
                description,
            } => put_export(out, name, *sort, *index, description),
            Item::Custom { name, contents } => put_custom(out, name, contents.as_slice()),
        }
    }
}

impl Definition for Def {
    ghost entry = { definition };

    fn section_id(&self) -> u8 {
        match self {
            Def::Item(item) => item.section_id(),
            Def::Component(_) => 4,
        }
    }

    fn put_entry(&self, out: &mut Output) {
        match self {
            Def::Item(item) => item.put_entry(out),
            Def::Component(items) => put_component(out, items.as_slice()),
        }
    }
}

/// A component, by its definitions.
#[derive(Drop)]
struct Component<'a> {
    definitions: &'a [Def],
}

impl<'a> Emit for Component<'a> {
    ghost encoding = { λ c. encoding_of c.definitions.now };

    fn emit(&self, out: &mut Output) {
        put_component(out, self.definitions);
    }
}

/// How many bytes a component has. It takes no memory, and is refused exactly where a count or a size in the
/// bytes, or how many there are, exceeds 2^32 - 1: with the first of these, or with 2^128 - 1 where that is more.
pub fn component_size(alloc: Global, definitions: &[Def]) -> Result<u32, Excess>
    ensures { IsSize (encoding_of definitions.now) result }
{
    encoded_size(alloc, &Component { definitions })
}

/// The bytes of a component: its preamble and its sections (`component`). They are measured, and written to one buffer
/// of that size. It fails with [`BuildFault::TooMany`] only where a count or a size among them exceeds 2^32 - 1, and
/// reports that one.
pub fn component_bytes(alloc: Global, definitions: &[Def]) -> Result<Vec<u8>, BuildFault>
    ensures ok { IfOk result (λ v. Encodes v.items definitions.now) }
    ensures err { IfErr result (Refused (encoding_of definitions.now).counts) }
{
    encoded(alloc, &Component { definitions })
}
