//! The byte of a kind of core item.

ghost use Rattle.std.specs.Prelude.{◌≡◌};
ghost use Rattle.standard_kinds.specs.Bytes.{kind_byte};

use crate::kinds::ExportKind;

/// The byte of a kind of core item. Core standard, binary format: `exportdesc`; component model,
/// binary format: `core:sort`.
pub fn byte_of_kind(kind: ExportKind) -> u8
    ensures { result ≡ kind_byte kind }
{
    match kind {
        ExportKind::Func => 0x00,
        ExportKind::Table => 0x01,
        ExportKind::Memory => 0x02,
        ExportKind::Global => 0x03,
    }
}
