//! Primitive types.

ghost use Rattle.std.specs.Prelude.{◌≡◌};
ghost use Rattle.record_types.specs.Primitives.{primitive_of};

use wit_data::Primitive;

/// A primitive type by its name (component model, WIT: `ty`).
pub(crate) fn primitive(name: &str) -> Option<Primitive>
    ensures { result ≡ primitive_of name.now }
{
    match name {
        "bool" => Some(Primitive::Bool),
        "s8" => Some(Primitive::S8),
        "u8" => Some(Primitive::U8),
        "s16" => Some(Primitive::S16),
        "u16" => Some(Primitive::U16),
        "s32" => Some(Primitive::S32),
        "u32" => Some(Primitive::U32),
        "s64" => Some(Primitive::S64),
        "u64" => Some(Primitive::U64),
        "f32" => Some(Primitive::F32),
        "f64" => Some(Primitive::F64),
        "char" => Some(Primitive::Char),
        "string" => Some(Primitive::String),
        "error-context" => Some(Primitive::ErrorContext),
        _ => None,
    }
}
