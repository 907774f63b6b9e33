//! Warnings of a main module and its adapters.

ghost use Rattle.std.specs.Prelude.{◌≡◌, IfOk, IfErr, IsOk, string_bytes};
ghost use Rattle.name_warnings.specs.Lines.{shown};
ghost use Rattle.module_warnings.specs.Linting.{listed, FindsOne, LintsOne, LintsEach, all_warnings, IsCaused, AreRead};

use crate::fault::LintFault;
use crate::modules::lint_module;
use comp_lists::{Seq, Text};
use fitted_modules::{Modules, NamedModule};
use name_warnings::{Warning, show_warnings};
use package_lower::PackageLower;
use std::alloc::{AllocError, Global};

/// A main module under this name, and its adapters.
fn listed(alloc: Global, modules: Modules) -> Result<Seq<NamedModule>, AllocError>
    ensures { IfOk result (λ ms. ms ≡ listed modules) }
{
    let Modules { main, adapters } = modules;
    let name = Text::from_str(alloc, "main")?;
    let mut all = Seq::new(alloc);
    all.push(NamedModule { name, bytes: main })?;
    all.append(adapters)?;
    Ok(all)
}

/// The warnings of a module.
fn lint_named(alloc: Global, given: NamedModule) -> Result<Seq<Warning>, LintFault>
    ensures { FindsOne given result }
{
    let NamedModule { name, bytes } = given;
    match lint_module(alloc, PackageLower::new(), name.as_str(), bytes.into_vec()) {
        Ok(found) => Ok(found),
        Err(fault) => Err(fault),
    }
}

/// Adds the warnings of a module.
#[tactic(auto, using(crate::proofs::Several::one_added, crate::proofs::Several::one_lacks))]
fn add_module(
    alloc: Global,
    warnings: &mut Seq<Warning>,
    given: NamedModule,
) -> Result<(), LintFault>
    ensures { LintsOne warnings.old warnings.new given result }
{
    let found = lint_named(alloc, given)?;
    match warnings.append(found) {
        Ok(()) => Ok(()),
        Err(_) => Err(LintFault::Memory),
    }
}

/// Adds the warnings of modules, one after the other.
fn add_modules(
    alloc: Global,
    warnings: &mut Seq<Warning>,
    modules: Seq<NamedModule>,
) -> Result<(), LintFault>
    ensures { LintsEach warnings.old warnings.new modules result }
{
    for one in modules.into_vec() {
        add_module(alloc, warnings, one)?;
    }
    Ok(())
}

/// The warnings of a main module and of its adapters, each behind the module's name, which is `main` for the main module. The
/// fault is that of the first module that has one.
#[tactic(auto, using(crate::proofs::Several::all_found, crate::proofs::Several::all_read, crate::proofs::Several::all_caused))]
pub fn lint_modules(alloc: Global, modules: Modules) -> Result<Seq<Warning>, LintFault>
    ensures ok { IfOk result (λ ws. ws ≡ all_warnings modules) }
    ensures cause { IfErr result (λ e. IsCaused (listed modules) e) }
    ensures refused { IsOk result → AreRead (listed modules) }
{
    let all = listed(alloc, modules)?;
    let mut warnings = Seq::new(alloc);
    match add_modules(alloc, &mut warnings, all) {
        Ok(()) => Ok(warnings),
        Err(fault) => Err(fault),
    }
}

/// The text of these warnings, a line each.
pub fn warnings_text(alloc: Global, modules: Modules) -> Result<String, LintFault>
    ensures ok { IfOk result (λ text. string_bytes text ≡ shown (all_warnings modules)) }
    ensures cause { IfErr result (λ e. IsCaused (listed modules) e) }
    ensures refused { IsOk result → AreRead (listed modules) }
{
    let found = lint_modules(alloc, modules)?;
    match show_warnings(alloc, found.as_slice()) {
        Ok(text) => Ok(text),
        Err(_) => Err(LintFault::Memory),
    }
}
