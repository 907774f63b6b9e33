//! A module without its component types.

ghost use Rattle.std.specs.Prelude.{◌≡◌, ◌++◌, ◌≤◌, ℕ, List, Ok, true, false, length, map, take, option_map, IfErr, IfOk, OnOk};
ghost use Rattle.std.specs.List.{flat_map, list_any};
ghost use Rattle.core_sections.specs.Sections.{Gives, Piece, preamble, view};
ghost use Rattle.core_sections.specs.Stripping.{record_of, kept, removed, is_package, stripped};
ghost use Rattle.core_sections.specs.Grammar.{IsModule, IsCutAt};

use crate::fault::SectionFault;
use crate::sections::{Content, PREAMBLE, Section, sections_of};
use std::alloc::{AllocError, Global};

const COMPONENT_PREAMBLE: [u8; 8] = [0, 0x61, 0x73, 0x6d, 0x0d, 0, 1, 0];

/// A module without its sections of component types, in two parts, and what these sections hold.
#[derive(Drop)]
pub struct Stripped<'a> {
    /// The length of the first part, in bytes: the module up to its first section of component types.
    pub prefix: usize,
    /// The second part: the other sections after that one.
    pub rest: Vec<u8>,
    pub records: Vec<&'a [u8]>,
}

impl<'a> Section<'a> {
    /// The bytes of a custom section of component types.
    pub fn record(&self) -> Option<&'a [u8]>
        ensures { option_map (λ x. x.now) result ≡ record_of (view self.now) }
    {
        match self.content {
            Content::Custom { name, bytes } => {
                if name.as_bytes().starts_with(b"component-type") {
                    Some(bytes)
                } else {
                    None
                }
            }
            Content::Coded { .. } => None,
        }
    }
}

/// The length of a module up to its first section of component types, and the sections from there on.
fn split_at_record<'s, 'a>(bytes: &[u8], sections: &'s [Section<'a>]) -> (usize, &'s [Section<'a>])
    requires { bytes.now ≡ preamble ++ flat_map (λ p. p.whole) (map view sections.now) }
    ensures within { result.0 ≤ length bytes.now }
    ensures kept { take result.0 bytes.now ++ kept (map view result.1.now)
        ≡ preamble ++ kept (map view sections.now) }
{
    let mut prefix = PREAMBLE.len();
    for (index, section) in sections.iter().enumerate() {
        if section.record().is_some() {
            return (prefix, &sections[index..]);
        }
        prefix += section.whole.len();
    }
    (prefix, &[])
}

fn append_kept(out: &mut Vec<u8>, sections: &[Section<'_>]) -> Result<(), AllocError>
    ensures { OnOk result (out.new.items ≡ out.old.items ++ kept (map view sections.now)) }
{
    for section in sections {
        if section.record().is_none() {
            out.extend_from_slice(section.whole)?;
        }
    }
    Ok(())
}

fn records<'a>(alloc: Global, sections: &[Section<'a>]) -> Result<Vec<&'a [u8]>, AllocError>
    ensures { IfOk result (λ v. map (λ x. x.now) v.items ≡ removed (map view sections.now)) }
{
    let mut records = Vec::new(alloc);
    for section in sections {
        if let Some(record) = section.record() {
            records.push(record)?;
        }
    }
    Ok(records)
}

fn is_package(bytes: &[u8]) -> bool
    ensures { result ≡ is_package bytes.now }
{
    bytes.starts_with(&COMPONENT_PREAMBLE)
}

fn has_package(records: &[&[u8]]) -> bool
    ensures { result ≡ list_any is_package (map (λ x. x.now) records.now) }
{
    for record in records {
        if is_package(record) {
            return true;
        }
    }
    false
}

#[tactic(auto, unfolding(crate::specs::Stripping::stripped))]
fn strip_sections(alloc: Global, bytes: &[u8]) -> Result<Stripped<'_>, SectionFault>
    ensures { Gives
        (λ s. (take s.prefix bytes.now ++ s.rest.items, map (λ x. x.now) s.records.items)) result
        (stripped bytes.now) }
{
    let sections = sections_of(alloc, bytes)?;
    let records = records(alloc, &sections)?;
    if has_package(&records) {
        return Err(SectionFault::PackageBinary);
    }
    let (prefix, sections) = split_at_record(bytes, &sections);
    let mut rest = Vec::with_capacity(alloc, bytes.len() - prefix)?;
    append_kept(&mut rest, sections)?;
    Ok(Stripped {
        prefix,
        rest,
        records,
    })
}

/// A module without its sections of component types, which are returned apart. What precedes the
/// first of these is not copied.
pub fn strip(alloc: Global, bytes: &[u8]) -> Result<Stripped<'_>, SectionFault>
    // What is kept are the sections of the module except those of component types, and what is
    // returned apart are those.
    ensures found { IfOk result (λ s. (ps : List Piece) × IsModule bytes.now ps
        × (take s.prefix bytes.now ++ s.rest.items ≡ preamble ++ kept ps) × (map (λ x. x.now) s.records.items ≡ removed ps)) }
    // A module with no package among its component types is accepted, unless memory runs out.
    ensures only { (ps : List Piece) → IsModule bytes.now ps → list_any is_package (removed ps) ≡ false
        → Gives {Y = List ℕ × List (List ℕ)} (λ s. (take s.prefix bytes.now ++ s.rest.items, map (λ x. x.now) s.records.items)) result
        (Ok (preamble ++ kept ps, removed ps)) }
    // A reported offset is the first at which no section begins.
    ensures cut { IfErr result
        (λ e. (offset : ℕ) → e ≡ SectionFault.Section offset → IsCutAt bytes.now offset) }
    // Without the preamble of a core module it is no module.
    ensures no_module { IfErr result
        (λ e. e ≡ SectionFault.NotModule → (rest : List ℕ) → bytes.now ≡ preamble ++ rest → ⊥) }
    // A reported package is in a section of component types.
    ensures package { IfErr result (λ e. e ≡ SectionFault.PackageBinary
        → (ps : List Piece) × IsModule bytes.now ps × (list_any is_package (removed ps) ≡ true)) }
    // Which fault it is.
    ensures exact { Gives
        (λ s. (take s.prefix bytes.now ++ s.rest.items, map (λ x. x.now) s.records.items)) result
        (stripped bytes.now) }
{
    strip_sections(alloc, bytes)
}
