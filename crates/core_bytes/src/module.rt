//! Modules as lists of sections, and their bytes.
//!
//! Core standard, binary format: modules; appendix, custom sections: name section.
#![tactic(auto, using(byte_encoding::proofs::Pieces::writing))]

ghost use Rattle.std.specs.Prelude.{◌≡◌, [], ◌∷◌, ◌++◌, OnOk, OnErr, IfOk, IfErr};
ghost use Rattle.byte_encoding.specs.Encoding.{octet, named, Encoding, Fits, ◌⊕◌};
ghost use Rattle.byte_encoding.specs.Written.{Writes, Refused};
ghost use Rattle.core_bytes.specs.Modules.{name_section, with_id, name_map, module_names, section, encoding_of, Encodes};

use crate::entries::Entries;
use crate::number::{put_blob, put_with_id};
use crate::section::{ModuleNames, NameMap, Section};
use byte_encoding::{BuildFault, Encode, put_bytes, put_each};
use comp_bytes::CoreModule;
use comp_lists::{SharedBytes, Text};
use std::alloc::{AllocError, Global};

/// A core module: its sections, in their order in the module.
pub type Module = Entries<Section>;

fn put_names(out: &mut Vec<u8>, id: u8, names: &Option<NameMap>) -> Result<(), BuildFault>
    ensures { Writes out.old.items out.new.items result (name_map id names.now) }
{
    match names {
        None => Ok(()),
        Some(names) => put_with_id(out, id, names),
    }
}

/// Writes the name of the section, and that of the module.
fn put_own_name(out: &mut Vec<u8>, name: &Text) -> Result<(), BuildFault>
    ensures { Writes out.old.items out.new.items result
        (named name_section ⊕ with_id 0x00 (named name.now)) }
{
    put_blob(out, &[0x6e, 0x61, 0x6d, 0x65])?;
    put_with_id(out, 0x00, name)?;
    Ok(())
}

impl Encode for ModuleNames {
    ghost encoding = { module_names };

    fn put(&self, out: &mut Vec<u8>) -> Result<(), BuildFault> {
        put_own_name(out, &self.module_name)?;
        put_names(out, 0x01, &self.functions)?;
        put_names(out, 0x07, &self.globals)?;
        Ok(())
    }
}

impl Encode for Section {
    ghost encoding = { section };

    fn put(&self, out: &mut Vec<u8>) -> Result<(), BuildFault> {
        match self {
            Section::Types(entries) => put_with_id(out, 0x01, entries),
            Section::Imports(entries) => put_with_id(out, 0x02, entries),
            Section::Functions(entries) => put_with_id(out, 0x03, entries),
            Section::Tables(entries) => put_with_id(out, 0x04, entries),
            Section::Memories(entries) => put_with_id(out, 0x05, entries),
            Section::Globals(entries) => put_with_id(out, 0x06, entries),
            Section::Exports(entries) => put_with_id(out, 0x07, entries),
            Section::Start(function) => put_with_id(out, 0x08, function),
            Section::Elements(entries) => put_with_id(out, 0x09, entries),
            Section::Code(entries) => put_with_id(out, 0x0a, entries),
            Section::Data(entries) => put_with_id(out, 0x0b, entries),
            Section::Names(names) => put_with_id(out, 0x00, names),
        }
    }
}

impl Entries<Section> {
    /// Appends a section. Where memory is refused, the module is as it was.
    pub fn section(&mut self, section: Section) -> Result<(), AllocError>
        ensures ok { OnOk result (self.new ≡ self.old ++ section ∷ []) }
        ensures err { OnErr result (self.new ≡ self.old) }
    {
        self.add(section)
    }

    /// The bytes of the module: its preamble and its sections (`encoding_of`). It fails with
    /// [`BuildFault::TooMany`] only where a count or a size among them exceeds 2^32 - 1, and reports that
    /// one.
    pub fn bytes(&self, alloc: Global) -> Result<Vec<u8>, BuildFault>
        ensures ok { IfOk result (λ v. Encodes v.items self.now) }
        ensures err { IfErr result (Refused (encoding_of self.now).counts) }
    {
        let mut out = Vec::new(alloc);
        put_bytes(&mut out, &[0x00, 0x61, 0x73, 0x6d, 0x01, 0x00, 0x00, 0x00])?;
        put_each(&mut out, self.as_slice())?;
        Ok(out)
    }

    /// The module for a component, by the same bytes, with the same refusals.
    pub fn core_module(&self, alloc: Global) -> Result<CoreModule, BuildFault>
        ensures ok { IfOk result (λ m. Encodes m self.now) }
        ensures err { IfErr result (Refused (encoding_of self.now).counts) }
    {
        let bytes = SharedBytes::from_vec(self.bytes(alloc)?)?;
        match CoreModule::from_bytes(bytes) {
            Some(module) => Ok(module),
            None => unreachable!(),
        }
    }
}
