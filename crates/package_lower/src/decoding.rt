//! What a module says of its component: its records and packages, and the names of its imports and exports.

ghost use Rattle.std.specs.Prelude.{◌≡◌, ◌≢◌, [], map, IfErr, IsOk};
ghost use Rattle.std.specs.List.{list_any};
ghost use Rattle.package_lower.specs.declared.fault.Failure.TheVariants as failures;
ghost use Rattle.package_lower.specs.declared.fault.LowerFault.{LowerFault};
ghost use Rattle.package_lower.specs.Causes.{SaidCause, AreApart, SaidOfCause, DecodeCause};
ghost use Rattle.package_lower.specs.Faults.{Gives, flat};
ghost use Rattle.record_merge.specs.Said.{no_wit};
ghost use Rattle.package_lower.specs.Reading.{is_binary};
ghost use Rattle.package_lower.specs.Decoding.{said_in, names_count, with_named, named, with_names, said_of, decoding};
ghost use Rattle.package_lower.specs.Sections.{once_after};

use crate::fault::Failure;
use crate::reading::{is_binary, records_of};
use crate::roles::{add_exports, add_imports};
use crate::sections::{Divided, divide, once};
use comp_lists::{Bytes, Keyed, SharedBytes};
use core_sections::{CoreModule, read_module};
use record_merge::{Bindgen, Roles, bindgen_of};
use record_values::Wit;
use std::alloc::Global;
use std::mem::replace;
use world_names::WorldNames;

/// What the texts of sections say together.
#[tactic(auto, unfolding(crate::specs::Decoding::said_in))]
fn said_in(alloc: Global, texts: &Keyed<Bytes, ()>) -> Result<Bindgen, Failure>
    ensures exact { Gives (λ b. b) result (said_in texts.now) }
    ensures cause { IfErr result (λ e. e ≢ failures.Memory → SaidCause texts.now e) }
    ensures apart { IsOk result → AreApart texts.now }
{
    let records = records_of(alloc, texts)?;
    Ok(bindgen_of(alloc, records)?)
}

fn is_any_binary(texts: &[&[u8]]) -> bool
    ensures { result ≡ list_any is_binary (map (λ x. x.now) texts.now) }
{
    for text in texts {
        if is_binary(text) {
            return true;
        }
    }
    false
}

/// Whether names give roles: where a package describes the component, or nothing does.
fn names_count(texts: &[&[u8]]) -> bool
    ensures { result ≡ names_count (map (λ x. x.now) texts.now) }
{
    texts.is_empty() || is_any_binary(texts)
}

/// Roles, and those that names give beside them.
#[tactic(auto, unfolding(crate::specs::Decoding::with_named))]
fn with_named(
    alloc: Global,
    names: &WorldNames,
    rejects_older: bool,
    core: &CoreModule,
    roles: &mut Roles,
) -> Result<(), Failure>
    ensures { Gives (λ _. roles.new) result
        (with_named names.now rejects_older core.now roles.old) }
{
    let imports = core.imports.as_slice();
    add_imports(
        alloc,
        names,
        rejects_older,
        &mut roles.import_roles,
        imports,
    )?;
    add_exports(
        alloc,
        names,
        rejects_older,
        &mut roles.export_roles,
        &core.exports,
    )
}

/// A world that says nothing.
fn no_wit(alloc: Global) -> Wit
    ensures { result ≡ no_wit }
{
    Wit {
        interfaces: Keyed::new(alloc),
        imports: Keyed::new(alloc),
        exports: Keyed::new(alloc),
    }
}

/// What was said, with the roles that names give.
fn named(
    alloc: Global,
    rejects_older: bool,
    core: &CoreModule,
    said: Bindgen,
) -> Result<Bindgen, Failure>
    ensures { Gives (λ b. b) result (named rejects_older core.now said) }
{
    let mut said = said;
    let wit = replace(&mut said.wit, no_wit(alloc));
    let names = WorldNames::of(alloc, wit)?;
    with_named(alloc, &names, rejects_older, core, &mut said.roles)?;
    said.wit = names.into_wit();
    Ok(said)
}

/// What was said, with the roles that the names of a module give.
#[tactic(auto, unfolding(crate::specs::Decoding::with_names))]
fn with_names(
    alloc: Global,
    rejects_older: bool,
    bytes: &[u8],
    said: Bindgen,
) -> Result<Bindgen, Failure>
    ensures { Gives (λ b. b) result (with_names rejects_older bytes.now said) }
{
    match read_module(alloc, bytes) {
        Ok(core) => named(alloc, rejects_older, &core, said),
        Err(fault) => {
            drop(said);
            Err(Failure::from(fault))
        }
    }
}

/// What a module says whose sections hold these texts.
#[tactic(auto, unfolding(crate::specs::Decoding::said_of))]
fn said_of(
    alloc: Global,
    rejects_older: bool,
    bytes: &[u8],
    texts: &[&[u8]],
) -> Result<Bindgen, Failure>
    ensures exact { Gives (λ b. b) result
        (said_of rejects_older bytes.now (map (λ x. x.now) texts.now)) }
    ensures cause { IfErr result (λ e. e ≢ failures.Memory →
        SaidOfCause rejects_older bytes.now (map (λ x. x.now) texts.now) e) }
    ensures apart { IsOk result → AreApart (once_after [] (map (λ x. x.now) texts.now)) }
{
    let distinct = once(alloc, texts)?;
    let said = said_in(alloc, &distinct)?;
    if names_count(texts) {
        return with_names(alloc, rejects_older, bytes, said);
    }
    Ok(said)
}

/// A module without the sections that describe its component, and what it says of that. What is
/// kept before the first of these stays where it is.
#[tactic(auto, unfolding(crate::specs::Decoding::decoding))]
pub(crate) fn decode(
    alloc: Global,
    rejects_older: bool,
    mut bytes: Vec<u8>,
) -> Result<(SharedBytes, Bindgen), Failure>
    ensures exact { Gives (λ d. d) result (decoding rejects_older bytes.items) }
    ensures cause { IfErr result (λ e. e ≢ failures.Memory →
        DecodeCause rejects_older bytes.items (flat e)) }
    ensures refused { IsOk result → (f : LowerFault) → ¬ DecodeCause rejects_older bytes.items f }
{
    let Divided {
        prefix,
        rest,
        texts,
    } = divide(alloc, &bytes)?;
    let said = said_of(alloc, rejects_older, &bytes, &texts)?;
    drop(texts);
    bytes.truncate(prefix);
    bytes.extend_from_slice(&rest)?;
    Ok((SharedBytes::from_vec(bytes)?, said))
}
