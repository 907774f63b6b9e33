//! Warnings of a module.

ghost use Rattle.std.specs.Prelude.{◌≡◌, ◌++◌, ◌∷◌, [], nat_lt, length, if◌then◌else◌, IfOk, IfErr, IsOk, OnOk};
ghost use Rattle.package_lower.specs.Layer.{is_memory};
ghost use Rattle.module_warnings.specs.declared.fault.LintFault.TheVariants as faults;
ghost use Rattle.module_warnings.specs.Modules.{is_bare, module_warnings, entries_of, warnings_in, of_core, IsCoreFault, IsRead, LintCause, NoRefusal};

use crate::fault::LintFault;
use crate::roles::add_roles;
use comp_lists::{Seq, SharedBytes, Text};
use comp_worlds::Lower;
use core_sections::{CoreModule, SectionFault, read_module};
use name_warnings::{Warning, WarningKind, note};
use package_lower::{LowerFault, PackageLower};
use record_faults::PlainFault;
use record_merge::Bindgen;
use std::alloc::{AllocError, Global};
use world_warnings::add_world_warnings;

// ---- what is found

/// Whether nothing describes the component of a module, which imports nothing.
fn is_bare(described: bool, core: &CoreModule) -> bool
    ensures { result ≡ is_bare described core.now }
{
    !described && core.imports.is_empty()
}

/// Adds the warnings of a module, behind this path.
fn add_all(
    alloc: Global,
    warnings: &mut Seq<Warning>,
    path: &Seq<Text>,
    described: bool,
    said: &Bindgen,
    core: &CoreModule,
) -> Result<(), AllocError>
    ensures { OnOk result (warnings.new
        ≡ warnings.old ++ module_warnings path.now described said.now core.now) }
{
    let bare = is_bare(described, core);
    note(alloc, warnings, bare, WarningKind::NoRecord, path)?;
    add_world_warnings(alloc, warnings, path, &said.wit)?;
    add_roles(alloc, warnings, core, path, &said.roles)?;
    Ok(())
}

/// The path of a module: its name alone.
fn path_of(alloc: Global, name: &str) -> Result<Seq<Text>, AllocError>
    ensures { IfOk result (λ p. p ≡ name.now ∷ []) }
{
    let text = Text::from_str(alloc, name)?;
    let mut path = Seq::new(alloc);
    path.push(text)?;
    Ok(path)
}

fn found(
    alloc: Global,
    name: &str,
    described: bool,
    said: &Bindgen,
    core: &CoreModule,
) -> Result<Seq<Warning>, AllocError>
    ensures { IfOk result
        (λ ws. ws ≡ module_warnings (name.now ∷ []) described said.now core.now) }
{
    let path = path_of(alloc, name)?;
    let mut warnings = Seq::new(alloc);
    add_all(alloc, &mut warnings, &path, described, said, core)?;
    Ok(warnings)
}

// ---- what a module says

/// The fault of a module whose imports and exports can't be read.
fn core_fault(fault: SectionFault) -> LintFault
    ensures { result ≡ of_core fault }
{
    match fault {
        SectionFault::Memory => LintFault::Memory,
        SectionFault::NotModule => LintFault::Core(PlainFault::NotModule),
        SectionFault::Section { place } => LintFault::Core(PlainFault::Section { place }),
        SectionFault::PackageBinary => LintFault::Core(PlainFault::PackageBinary),
    }
}

#[tactic(auto, using(crate::proofs::Reading::core_unread, crate::proofs::Reading::entries_read, crate::proofs::Reading::never_unread))]
fn read_core(alloc: Global, bytes: &[u8]) -> Result<CoreModule, LintFault>
    ensures ok { IfOk result (λ m. m ≡ entries_of bytes.now) }
    ensures cause { IfErr result (λ e. IsCoreFault bytes.now e) }
    ensures read { IsOk result → IsRead bytes.now }
{
    match read_module(alloc, bytes) {
        Ok(core) => Ok(core),
        Err(fault) => Err(core_fault(fault)),
    }
}

/// The warnings of what a module said, and of what is left of it. `size` is that of the whole module.
fn linted(
    alloc: Global,
    name: &str,
    size: usize,
    rest: SharedBytes,
    said: &Bindgen,
) -> Result<Seq<Warning>, LintFault>
    ensures ok { IfOk result (λ ws. ws
        ≡ module_warnings (name.now ∷ []) (nat_lt (length rest) size) said.now (entries_of rest)) }
    ensures cause { IfErr result (λ e. IsCoreFault rest e) }
    ensures read { IsOk result → IsRead rest }
{
    let described = rest.len() < size;
    let core = read_core(alloc, rest.as_slice())?;
    match found(alloc, name, described, said, &core) {
        Ok(warnings) => Ok(warnings),
        Err(_) => Err(LintFault::Memory),
    }
}

/// The fault of a module that can't be read.
fn decode_fault(lower: &PackageLower, fault: LowerFault) -> LintFault
    ensures { result ≡ (if is_memory fault then faults.Memory else faults.Decode fault) }
{
    if lower.is_memory(&fault) {
        LintFault::Memory
    } else {
        LintFault::Decode(fault)
    }
}

/// The warnings of a module, each behind the module's name.
///
/// It refuses with
/// - `Memory` when out of memory,
/// - `Decode` where the sections that describe its component can't be read, or names can't,
/// - `Core` where its core imports and core exports can't be read.
#[tactic(auto, using(crate::proofs::Reading::none_refused))]
pub fn lint_module(
    alloc: Global,
    lower: PackageLower,
    name: &str,
    module: Vec<u8>,
) -> Result<Seq<Warning>, LintFault>
    ensures ok { IfOk result
        (λ ws. ws ≡ warnings_in lower.reject_legacy_names name.now module.items) }
    ensures cause { IfErr result (λ e. LintCause lower.reject_legacy_names module.items e) }
    ensures refused { IsOk result → NoRefusal lower.reject_legacy_names module.items }
{
    let size = module.len();
    match lower.decode(alloc, module) {
        Ok((rest, said)) => linted(alloc, name, size, rest, &said),
        Err(fault) => Err(decode_fault(&lower, fault)),
    }
}
