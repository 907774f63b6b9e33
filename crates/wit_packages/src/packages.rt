//! A package from its bytes.

ghost use Rattle.std.specs.Prelude.{◌≡◌, codes};
ghost use Rattle.std.specs.Str.{bytes_eq};
ghost use Rattle.package_syntax.specs.Sections.{package_at};
ghost use Rattle.wit_packages.specs.Worlds.{Gives};
ghost use Rattle.wit_packages.specs.Packages.{encoding_byte, encoding_of, encoding_part, custom_part, world_part, export_part, part_step, parts_from, no_parts, whole_by, whole_of, plain_name, copies_checked, said_by, syntax, package_of};

use crate::fault::{Lack, PackageFault, Wrong};
use crate::worlds::world_of;
use comp_bytes::ExternName;
use comp_lists::{Bytes, Seq, Text};
use package_copies::first_over;
use package_syntax::{Section, SyntaxFault, WorldType, read_sections};
use record_values::Wit;
use standard_kinds::StringEncoding;
use std::alloc::Global;

/// What a WIT package says.
#[derive(Drop)]
pub struct Package {
    /// The name of the world, under which the package exports its type.
    pub name: Text,
    /// The id of the world, with its namespace and its package.
    pub id: Text,
    /// How all functions of the world encode texts.
    pub encoding: StringEncoding,
    pub wit: Wit,
}

/// The sections of a package that say something, as far as they were seen.
#[derive(Drop)]
pub(crate) struct Parts {
    pub encoding: Option<StringEncoding>,
    pub world: Option<WorldType>,
    pub name: Option<ExternName>,
}

/// All sections of a package that say something.
#[derive(Drop)]
pub(crate) struct Whole {
    pub encoding: StringEncoding,
    pub world: WorldType,
    pub name: ExternName,
}

fn encoding_byte(byte: u8) -> Result<StringEncoding, PackageFault>
    ensures { Gives (λ e. e) result (encoding_byte byte) }
{
    match byte {
        0 => Ok(StringEncoding::UTF8),
        1 => Ok(StringEncoding::UTF16),
        2 => Ok(StringEncoding::CompactUTF16),
        _ => Err(PackageFault::Sections(Lack::EncodingForm)),
    }
}

fn encoding_of(contents: &[u8]) -> Result<StringEncoding, PackageFault>
    ensures { Gives (λ e. e) result (encoding_of contents.now) }
{
    match contents {
        [version, encoding] => {
            if *version == 4 {
                encoding_byte(*encoding)
            } else {
                Err(PackageFault::Sections(Lack::EncodingForm))
            }
        }
        _ => Err(PackageFault::Sections(Lack::EncodingForm)),
    }
}

fn encoding_part(parts: &mut Parts, contents: &[u8]) -> Result<(), PackageFault>
    ensures { Gives (λ _. parts.new) result (encoding_part parts.old contents.now) }
{
    if parts.encoding.is_some() {
        return Err(PackageFault::Sections(Lack::Encoding));
    }
    let encoding = encoding_of(contents)?;
    parts.encoding = Some(encoding);
    Ok(())
}

fn is_encoding_name(name: &Text) -> bool
    ensures { result ≡ bytes_eq name.now (codes "wit-component-encoding") }
{
    name.as_str() == "wit-component-encoding"
}

/// Notes a custom section.
fn custom_part(parts: &mut Parts, name: &Text, contents: &Bytes) -> Result<(), PackageFault>
    ensures { Gives (λ _. parts.new) result (custom_part parts.old name.now contents.now) }
{
    if is_encoding_name(name) {
        encoding_part(parts, contents.as_slice())
    } else {
        Ok(())
    }
}

/// Notes the world.
fn world_part(parts: &mut Parts, world: WorldType) -> Result<(), PackageFault>
    ensures { Gives (λ _. parts.new) result (world_part parts.old world) }
{
    if parts.world.is_some() || parts.name.is_some() {
        return Err(PackageFault::Sections(Lack::World));
    }
    parts.world = Some(world);
    Ok(())
}

/// Notes the export, which comes after the world.
fn export_part(parts: &mut Parts, name: ExternName) -> Result<(), PackageFault>
    ensures { Gives (λ _. parts.new) result (export_part parts.old name) }
{
    if parts.world.is_some() && !parts.name.is_some() {
        parts.name = Some(name);
        Ok(())
    } else {
        Err(PackageFault::Sections(Lack::World))
    }
}

fn part_step(parts: &mut Parts, section: Section) -> Result<(), PackageFault>
    ensures { Gives (λ _. parts.new) result (part_step parts.old section) }
{
    match section {
        Section::Custom { name, contents } => custom_part(parts, &name, &contents),
        Section::World(world) => world_part(parts, world),
        Section::Export(name) => export_part(parts, name),
    }
}

/// The parts of a package.
fn parts_of(sections: Seq<Section>) -> Result<Parts, PackageFault>
    ensures { Gives (λ p. p) result (parts_from sections no_parts) }
{
    let mut parts = Parts {
        encoding: None,
        world: None,
        name: None,
    };
    for section in sections.into_vec() {
        part_step(&mut parts, section)?;
    }
    Ok(parts)
}

fn whole_by(parts: Parts) -> Result<Whole, PackageFault>
    ensures { Gives (λ w. w) result (whole_by parts.encoding parts.world parts.name) }
{
    let Parts {
        encoding,
        world,
        name,
    } = parts;
    let Some(encoding) = encoding else {
        return Err(PackageFault::Sections(Lack::Encoding));
    };
    let Some(world) = world else {
        return Err(PackageFault::Sections(Lack::World));
    };
    let Some(name) = name else {
        return Err(PackageFault::Sections(Lack::World));
    };
    Ok(Whole {
        encoding,
        world,
        name,
    })
}

fn whole_of(sections: Seq<Section>) -> Result<Whole, PackageFault>
    ensures { Gives (λ w. w) result (whole_of sections) }
{
    let parts = parts_of(sections)?;
    whole_by(parts)
}

/// A name that has one part.
fn plain_name(alloc: Global, name: &ExternName) -> Result<Text, PackageFault>
    ensures { Gives (λ n. n) result (plain_name name.now) }
{
    match &name.version_suffix {
        None => Ok(name.name.clone(alloc)?),
        Some(_) => Err(PackageFault::Sections(Lack::Name)),
    }
}

fn put_together(name: Text, id: Text, encoding: StringEncoding, wit: Wit) -> Package
    ensures { result ≡ record { name = name; id = id; encoding = encoding; wit = wit } }
{
    Package {
        name,
        id,
        encoding,
        wit,
    }
}

/// Refuses a package that says too much for its length, in bytes.
fn check_copies(alloc: Global, length: usize, whole: &Whole) -> Result<(), PackageFault>
    ensures { Gives (λ _. tt) result (copies_checked length whole.now) }
{
    match first_over(alloc, length, whole.world.declarations.as_slice())? {
        Some(declaration) => Err(PackageFault::Declaration {
            declaration,
            wrong: Wrong::Copies,
        }),
        None => Ok(()),
    }
}

/// What all parts say.
#[tactic(auto, unfolding(crate::specs::Packages::said_by))]
fn said_by(alloc: Global, whole: &Whole) -> Result<Package, PackageFault>
    ensures { Gives (λ p. p) result (said_by whole.now) }
{
    let name = plain_name(alloc, &whole.name)?;
    let id = plain_name(alloc, &whole.world.id)?;
    let wit = world_of(alloc, whole.world.declarations.as_slice())?;
    Ok(put_together(name, id, whole.encoding, wit))
}

fn sections_of(alloc: Global, bytes: &[u8]) -> Result<Seq<Section>, PackageFault>
    ensures { Gives (λ ss. ss) result (syntax (package_at bytes.now)) }
{
    match read_sections(alloc, bytes) {
        Ok(sections) => Ok(sections),
        Err(SyntaxFault::Memory) => Err(PackageFault::Memory),
        Err(SyntaxFault::Refused(refusal)) => Err(PackageFault::Syntax(refusal)),
    }
}

/// What a WIT package in binary form says, the contents of a custom section whose name begins `component-type`.
///
/// The errors are out of memory and, in this order, the first place of the bytes that can't be
/// read, what the sections lack, the declaration of the world with which it says too much for its
/// length, and the first one that has no meaning.
#[tactic(auto, unfolding(crate::specs::Packages::package_of))]
pub fn read_package(alloc: Global, bytes: &[u8]) -> Result<Package, PackageFault>
    ensures { Gives (λ p. p) result (package_of bytes.now) }
{
    let sections = sections_of(alloc, bytes)?;
    let whole = whole_of(sections)?;
    check_copies(alloc, bytes.len(), &whole)?;
    said_by(alloc, &whole)
}
