//! A module with its record.

ghost use Rattle.std.specs.Prelude.{◌≡◌, ◌≢◌, ◌++◌, true, false, if◌then◌else◌, codes, IfOk, IfErr, IsOk};
ghost use Rattle.package_lower.specs.Causes.{DecodeCause};
ghost use Rattle.package_lower.specs.Layer.{decoded, is_memory};
ghost use Rattle.package_lower.specs.declared.fault.LowerFault.{LowerFault as DecodeFault};
ghost use Rattle.record_texts.specs.Records.{IsTextOf, record_data, encoding_of, encodings_of, has_one_encoding};
ghost use Rattle.recorded_modules.specs.declared.fault.RecordingFault.TheVariants as faults;
ghost use Rattle.recorded_modules.specs.Recorded.{build_fault, custom_section, IsRecordedFrom, IsRecorded, IsSizeFault, IsRecordFault, RecordingCause};

use crate::fault::RecordingFault;
use crate::sections::put_custom_section;
use byte_encoding::BuildFault;
use comp_lists::SharedBytes;
use comp_worlds::Lower;
use package_lower::{LowerFault, PackageLower};
use record_merge::Bindgen;
use record_texts::{RecordTextFault, record_text};
use std::alloc::Global;

/// The record of what a module said.
fn text_of(alloc: Global, said: &Bindgen) -> Result<Vec<u8>, RecordingFault>
    ensures ok { IfOk result (λ text. IsTextOf text.items
        (record_data said.now (encoding_of (encodings_of said.now.roles)))) }
    ensures cause { IfErr result (λ e. e ≢ faults.Memory → (e ≡ faults.SeveralEncodings)
        × (has_one_encoding said.now.roles ≡ false)) }
    ensures refused { IsOk result → has_one_encoding said.now.roles ≡ true }
{
    match record_text(alloc, said) {
        Ok(text) => Ok(text),
        Err(RecordTextFault::Memory) => Err(RecordingFault::Memory),
        Err(RecordTextFault::SeveralEncodings) => Err(RecordingFault::SeveralEncodings),
    }
}

/// The fault of a section that can't be written.
fn of_build(fault: BuildFault) -> RecordingFault
    ensures { result ≡ build_fault fault }
{
    match fault {
        BuildFault::Memory => RecordingFault::Memory,
        BuildFault::TooMany { excess } => RecordingFault::TooMany { excess },
    }
}

/// A module with a record behind it.
fn with_section(alloc: Global, rest: &[u8], text: &[u8]) -> Result<Vec<u8>, RecordingFault>
    ensures ok { IfOk result (λ m. m.items
        ≡ rest.now ++ (custom_section (codes "component-type") text.now).bytes) }
    ensures cause { IfErr result (λ e. IsSizeFault e) }
{
    let mut module = Vec::new(alloc);
    module.extend_from_slice(rest)?;
    match put_custom_section(&mut module, b"component-type", text) {
        Ok(()) => Ok(module),
        Err(fault) => Err(of_build(fault)),
    }
}

/// A module with the record of what it said.
fn recorded(alloc: Global, rest: SharedBytes, said: &Bindgen) -> Result<Vec<u8>, RecordingFault>
    ensures ok { IfOk result (λ m. IsRecordedFrom rest said.now m.items) }
    ensures cause { IfErr result (λ e. IsRecordFault said.now e) }
    ensures refused { IsOk result → has_one_encoding said.now.roles ≡ true }
{
    let text = text_of(alloc, said)?;
    with_section(alloc, rest.as_slice(), text.as_slice())
}

/// The fault of a module that can't be read.
fn decode_fault(lower: &PackageLower, fault: LowerFault) -> RecordingFault
    ensures { result ≡ (if is_memory fault then faults.Memory else faults.Decode fault) }
{
    if lower.is_memory(&fault) {
        RecordingFault::Memory
    } else {
        RecordingFault::Decode(fault)
    }
}

/// The module with a JSON record in the place of the sections that describe its component: WIT
/// packages, with the roles that names give, or other records.
///
/// It refuses with
/// - `Memory` when out of memory,
/// - `Decode` where these sections can't be read, or names can't,
/// - `SeveralEncodings` where the module's functions have more than one string encoding,
/// - `TooMany` where the record's size passes 2^32 - 1.
pub fn record_module(
    alloc: Global,
    lower: PackageLower,
    module: Vec<u8>,
) -> Result<Vec<u8>, RecordingFault>
    ensures ok { IfOk result (λ m. IsRecorded lower.reject_legacy_names module.items m.items) }
    ensures cause { IfErr result
        (λ e. RecordingCause lower.reject_legacy_names module.items e) }
    ensures refused { IsOk result → (f : DecodeFault)
        → ¬ DecodeCause lower.reject_legacy_names module.items f }
    ensures one_encoding { IsOk result
        → has_one_encoding (decoded lower.reject_legacy_names module.items).1.roles ≡ true }
{
    match lower.decode(alloc, module) {
        Ok((rest, said)) => recorded(alloc, rest, &said),
        Err(fault) => Err(decode_fault(&lower, fault)),
    }
}
