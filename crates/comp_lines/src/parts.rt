//! The parts of a line.

ghost use Rattle.std.specs.Prelude.{◌≡◌, ◌++◌, OnOk, string_bytes, List, ℕ, codes};
ghost use Rattle.std.specs.List.{flat_map};
ghost use Rattle.std.specs.Fmt.{decimal};
ghost use Rattle.comp_lines.specs.Texts.{quoted};
ghost use Rattle.comp_lines.specs.Lines.{space_word, kind_word, core_argument, core_export, argument, option, extern};

use crate::texts::{put_number, put_quoted};
use comp_bytes::{Argument, CanonicalOption, CoreArgument, CoreInlineExport, ExternName, Space};
use comp_lists::Text;
use standard_kinds::ExportKind;
use std::alloc::AllocError;

/// The word of a space.
fn word_of_space(space: Space) -> &'static str
    ensures { result.now ≡ space_word space }
{
    match space {
        Space::CoreFunc => "core-func",
        Space::CoreTable => "core-table",
        Space::CoreMemory => "core-memory",
        Space::CoreGlobal => "core-global",
        Space::CoreModule => "core-module",
        Space::CoreInstance => "core-instance",
        Space::Func => "func",
        Space::Type => "type",
        Space::Component => "component",
        Space::Instance => "instance",
    }
}

/// The word of a kind of core item, among core items.
fn word_of_kind(kind: ExportKind) -> &'static str
    ensures { result.now ≡ kind_word kind }
{
    match kind {
        ExportKind::Func => "func",
        ExportKind::Table => "table",
        ExportKind::Memory => "memory",
        ExportKind::Global => "global",
    }
}

/// Writes a word, and a number after it.
pub(crate) fn put_numbered(out: &mut String, word: &str, number: u32) -> Result<(), AllocError>
    ensures { OnOk result
        (string_bytes out.new ≡ string_bytes out.old ++ (word.now ++ decimal number)) }
{
    out.push_str(word)?;
    put_number(out, u64::from(number))?;
    Ok(())
}

/// Writes the word of an item's space and its index there.
///
/// It refuses only when out of memory.
pub fn put_item(out: &mut String, space: Space, index: u64) -> Result<(), AllocError>
    ensures { OnOk result (string_bytes out.new
        ≡ string_bytes out.old ++ (space_word space ++ codes " " ++ decimal index)) }
{
    out.push_str(word_of_space(space))?;
    out.push_str(" ")?;
    put_number(out, index)?;
    Ok(())
}

/// Writes a space, a name in quotes and the sign after it.
fn put_given(out: &mut String, name: &Text) -> Result<(), AllocError>
    ensures { OnOk result (string_bytes out.new
        ≡ string_bytes out.old ++ (codes " " ++ quoted name.now ++ codes "=")) }
{
    out.push_str(" ")?;
    put_quoted(out, name.as_str())?;
    out.push_str("=")?;
    Ok(())
}

/// Writes the name of an import or an export, with its version suffix.
pub(crate) fn put_extern(out: &mut String, name: &ExternName) -> Result<(), AllocError>
    ensures { OnOk result (string_bytes out.new ≡ string_bytes out.old ++ extern name.now) }
{
    put_quoted(out, name.name.as_str())?;
    if let Some(suffix) = &name.version_suffix {
        out.push_str(" suffix ")?;
        put_quoted(out, suffix.as_str())?;
    }
    Ok(())
}

/// A value that has one printed form in a line.
pub(crate) trait Printable {
    ghost text: { Self → List ℕ };

    fn put(&self, out: &mut String) -> Result<(), AllocError>
        ensures { OnOk result (string_bytes out.new ≡ string_bytes out.old ++ text self.now) };
}

pub(crate) fn put_each<T: Printable>(out: &mut String, items: &[T]) -> Result<(), AllocError>
    ensures { OnOk result
        (string_bytes out.new ≡ string_bytes out.old ++ flat_map T.text items.now) }
{
    for item in items {
        item.put(out)?;
    }
    Ok(())
}

impl Printable for CoreArgument {
    ghost text = { core_argument };

    fn put(&self, out: &mut String) -> Result<(), AllocError> {
        put_given(out, &self.name)?;
        put_number(out, u64::from(self.instance))?;
        Ok(())
    }
}

impl Printable for CoreInlineExport {
    ghost text = { core_export };

    fn put(&self, out: &mut String) -> Result<(), AllocError> {
        put_given(out, &self.name)?;
        out.push_str(word_of_kind(self.kind))?;
        put_numbered(out, " ", self.index)?;
        Ok(())
    }
}

impl Printable for Argument {
    ghost text = { argument };

    fn put(&self, out: &mut String) -> Result<(), AllocError> {
        put_given(out, &self.name)?;
        put_item(out, self.sort.space(), u64::from(self.index))?;
        Ok(())
    }
}

impl Printable for CanonicalOption {
    ghost text = { option };

    fn put(&self, out: &mut String) -> Result<(), AllocError> {
        match *self {
            CanonicalOption::Utf8 => out.push_str(" utf8"),
            CanonicalOption::Utf16 => out.push_str(" utf16"),
            CanonicalOption::CompactUtf16 => out.push_str(" compact"),
            CanonicalOption::Memory(index) => put_numbered(out, " memory=", index),
            CanonicalOption::Realloc(index) => put_numbered(out, " realloc=", index),
            CanonicalOption::PostReturn(index) => put_numbered(out, " post-return=", index),
            CanonicalOption::Async => out.push_str(" async"),
            CanonicalOption::Callback(index) => put_numbered(out, " callback=", index),
        }
    }
}
