//! A module without the sections that describe a component, and what these hold.

ghost use Rattle.std.specs.Prelude.{[], ◌≡◌, ◌++◌, ◌≤◌, length, take, map, IfOk, OnOk};
ghost use Rattle.std.specs.List.{flat_map};
ghost use Rattle.comp_lists.specs.Tables.{with_first};
ghost use Rattle.core_sections.specs.Sections.{preamble, view};
ghost use Rattle.core_sections.specs.Stripping.{kept, removed};
ghost use Rattle.package_lower.specs.Faults.{Gives};
ghost use Rattle.package_lower.specs.Sections.{divided, same_text, once_after};

use crate::fault::Failure;
use comp_lists::{Bytes, Keyed, Seq};
use core_sections::{Section, sections_of};
use std::alloc::{AllocError, Global};

/// The length of a module's preamble, in bytes.
const PREAMBLE: usize = 8;

/// A module without the sections that describe a component, in two parts, and what these hold.
#[derive(Drop)]
pub(crate) struct Divided<'a> {
    /// The length of the first part, in bytes: the module up to the first of these sections.
    pub prefix: usize,
    /// The second part: the other sections after that one.
    pub rest: Vec<u8>,
    pub texts: Vec<&'a [u8]>,
}

/// The length of a module up to its first section that describes a component, and the sections from there on.
fn split_at_text<'s, 'a>(bytes: &[u8], sections: &'s [Section<'a>]) -> (usize, &'s [Section<'a>])
    requires { bytes.now ≡ preamble ++ flat_map (λ p. p.whole) (map view sections.now) }
    ensures within { result.0 ≤ length bytes.now }
    ensures kept { take result.0 bytes.now ++ kept (map view result.1.now)
        ≡ preamble ++ kept (map view sections.now) }
{
    let mut prefix = PREAMBLE;
    for (index, section) in sections.iter().enumerate() {
        if section.record().is_some() {
            return (prefix, &sections[index..]);
        }
        prefix += section.whole.len();
    }
    (prefix, &[])
}

fn append_kept(out: &mut Vec<u8>, sections: &[Section<'_>]) -> Result<(), AllocError>
    ensures { OnOk result (out.new.items ≡ out.old.items ++ kept (map view sections.now)) }
{
    for section in sections {
        if section.record().is_none() {
            out.extend_from_slice(section.whole)?;
        }
    }
    Ok(())
}

fn texts_in<'a>(alloc: Global, sections: &[Section<'a>]) -> Result<Vec<&'a [u8]>, AllocError>
    ensures { IfOk result (λ v. map (λ x. x.now) v.items ≡ removed (map view sections.now)) }
{
    let mut texts = Vec::new(alloc);
    for section in sections {
        if let Some(text) = section.record() {
            texts.push(text)?;
        }
    }
    Ok(texts)
}

/// A module without its sections that describe a component, and what these hold, in order. What
/// precedes the first of them is not copied.
#[tactic(auto, unfolding(crate::specs::Sections::divided))]
pub(crate) fn divide(alloc: Global, bytes: &[u8]) -> Result<Divided<'_>, Failure>
    ensures { Gives (λ d. (take d.prefix bytes.now ++ d.rest.items, map (λ x. x.now) d.texts.items))
        result (divided bytes.now) }
{
    let sections = sections_of(alloc, bytes)?;
    let texts = texts_in(alloc, &sections)?;
    let (prefix, others) = split_at_text(bytes, &sections);
    let mut rest = Vec::with_capacity(alloc, bytes.len() - prefix)?;
    append_kept(&mut rest, others)?;
    Ok(Divided {
        prefix,
        rest,
        texts,
    })
}

// ---- equal sections

fn copied(alloc: Global, text: &[u8]) -> Result<Bytes, AllocError>
    ensures { IfOk result (λ b. b ≡ text.now) }
{
    let mut bytes = Vec::with_capacity(alloc, text.len())?;
    bytes.extend_from_slice(text)?;
    Ok(Seq::from_vec(bytes))
}

fn add_once(alloc: Global, table: &mut Keyed<Bytes, ()>, text: &[u8]) -> Result<(), AllocError>
    ensures { OnOk result (table.new ≡ with_first same_text table.old text.now tt) }
{
    let text = copied(alloc, text)?;
    table.insert_if_absent(text, ())
}

/// The texts, of which equal ones are once there.
pub(crate) fn once(alloc: Global, texts: &[&[u8]]) -> Result<Keyed<Bytes, ()>, AllocError>
    ensures { IfOk result (λ t. t ≡ once_after [] (map (λ x. x.now) texts.now)) }
{
    let mut table = Keyed::new(alloc);
    for text in texts {
        add_once(alloc, &mut table, text)?;
    }
    Ok(table)
}
