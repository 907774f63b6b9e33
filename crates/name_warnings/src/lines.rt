//! Warnings as text.

ghost use Rattle.std.specs.Prelude.{◌≡◌, ◌++◌, string_bytes, IfOk, OnOk};
ghost use Rattle.std.specs.List.{flat_map};
ghost use Rattle.name_warnings.specs.Lines.{code, place, line, shown};

use crate::warning::{Warning, WarningKind};
use comp_lines::put_quoted;
use comp_lists::Text;
use std::alloc::{AllocError, Global};

/// The code of a rule, and its name.
fn code(kind: WarningKind) -> &'static str
    ensures { result.now ≡ code kind }
{
    match kind {
        WarningKind::NotKebab => "L1 NotKebab",
        WarningKind::NameTwice => "L2 NameTwice",
        WarningKind::NameCase => "L3 NameCase",
        WarningKind::ResourceValue => "L4 ResourceValue",
        WarningKind::BorrowResult => "L5 BorrowResult",
        WarningKind::ConstructorResult => "L6 ConstructorResult",
        WarningKind::MethodSelf => "L7 MethodSelf",
        WarningKind::UnnamedType => "L8 UnnamedType",
        WarningKind::CharStream => "L9 CharStream",
        WarningKind::NoRecord => "L10 NoRecord",
        WarningKind::FieldMissing => "L11 FieldMissing",
        WarningKind::PostReturnAlone => "L12 PostReturnAlone",
    }
}

fn put_name(out: &mut String, name: &Text) -> Result<(), AllocError>
    ensures { OnOk result (string_bytes out.new ≡ string_bytes out.old ++ place name.now) }
{
    out.push_str(" ")?;
    put_quoted(out, name.as_str())?;
    Ok(())
}

fn put_path(out: &mut String, path: &[Text]) -> Result<(), AllocError>
    ensures { OnOk result
        (string_bytes out.new ≡ string_bytes out.old ++ flat_map place path.now) }
{
    for name in path {
        put_name(out, name)?;
    }
    Ok(())
}

fn put_line(out: &mut String, warning: &Warning) -> Result<(), AllocError>
    ensures { OnOk result (string_bytes out.new ≡ string_bytes out.old ++ line warning.now) }
{
    out.push_str(code(warning.kind))?;
    put_path(out, warning.path.as_slice())?;
    out.push_str("\n")?;
    Ok(())
}

fn put_lines(out: &mut String, warnings: &[Warning]) -> Result<(), AllocError>
    ensures { OnOk result
        (string_bytes out.new ≡ string_bytes out.old ++ flat_map line warnings.now) }
{
    for warning in warnings {
        put_line(out, warning)?;
    }
    Ok(())
}

/// The text of warnings, a line each. It takes time in their size, and refuses only when out of memory.
pub fn show_warnings(alloc: Global, warnings: &[Warning]) -> Result<String, AllocError>
    ensures { IfOk result (λ text. string_bytes text ≡ shown warnings.now) }
{
    let mut text = String::new(alloc);
    put_lines(&mut text, warnings)?;
    Ok(text)
}
