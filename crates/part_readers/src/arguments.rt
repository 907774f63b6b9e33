//! The arguments of instantiations, and options of canonical functions, each from the front of bytes.
//!
//! Component model, binary format: `core:instantiatearg`, `core:inlineexport`, `instantiatearg`, `canonopt`.

ghost use Rattle.part_readers.specs.ArgumentReaders.{core_argument_at, core_inline_export_at, argument_at, canonical_at};

use crate::fault::PartFault;
use crate::numbers::{Decode, byte, expect_byte, name, number};
use crate::values::{kind, sort};
use comp_bytes::{Argument, CanonicalOption, CoreArgument, CoreInlineExport};
use std::alloc::Global;

impl Decode for CoreArgument {
    ghost at = { core_argument_at };

    #[tactic(auto, unfolding(crate::specs::ArgumentReaders::core_argument_at))]
    fn decode(alloc: Global, bytes: &[u8]) -> Result<(CoreArgument, &[u8]), PartFault> {
        let (name, rest) = name(alloc, bytes)?;
        let rest = expect_byte(0x12, rest)?;
        let (instance, rest) = number(rest)?;
        Ok((CoreArgument { name, instance }, rest))
    }
}

impl Decode for CoreInlineExport {
    ghost at = { core_inline_export_at };

    #[tactic(auto, unfolding(crate::specs::ArgumentReaders::core_inline_export_at))]
    fn decode(alloc: Global, bytes: &[u8]) -> Result<(CoreInlineExport, &[u8]), PartFault> {
        let (name, rest) = name(alloc, bytes)?;
        let (kind, rest) = kind(rest)?;
        let (index, rest) = number(rest)?;
        Ok((CoreInlineExport { name, kind, index }, rest))
    }
}

impl Decode for Argument {
    ghost at = { argument_at };

    #[tactic(auto, unfolding(crate::specs::ArgumentReaders::argument_at))]
    fn decode(alloc: Global, bytes: &[u8]) -> Result<(Argument, &[u8]), PartFault> {
        let (name, rest) = name(alloc, bytes)?;
        let (sort, rest) = sort(rest)?;
        let (index, rest) = number(rest)?;
        Ok((Argument { name, sort, index }, rest))
    }
}

impl Decode for CanonicalOption {
    ghost at = { canonical_at };

    #[tactic(auto, unfolding(crate::specs::ArgumentReaders::canonical_at))]
    fn decode(_alloc: Global, bytes: &[u8]) -> Result<(CanonicalOption, &[u8]), PartFault> {
        let (tag, rest) = byte(bytes)?;
        match tag {
            0x00 => Ok((CanonicalOption::Utf8, rest)),
            0x01 => Ok((CanonicalOption::Utf16, rest)),
            0x02 => Ok((CanonicalOption::CompactUtf16, rest)),
            0x03 => {
                let (memory, rest) = number(rest)?;
                Ok((CanonicalOption::Memory(memory), rest))
            }
            0x04 => {
                let (func, rest) = number(rest)?;
                Ok((CanonicalOption::Realloc(func), rest))
            }
            0x05 => {
                let (func, rest) = number(rest)?;
                Ok((CanonicalOption::PostReturn(func), rest))
            }
            0x06 => Ok((CanonicalOption::Async, rest)),
            0x07 => {
                let (func, rest) = number(rest)?;
                Ok((CanonicalOption::Callback(func), rest))
            }
            _ => Err(PartFault::Malformed),
        }
    }
}
