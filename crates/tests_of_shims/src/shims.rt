//! Questions about shims.
//!
//! A question is one of these, with the words of a world (`modules`, `worlds`). Its answer is the
//! list of shims, each by its name and its debug name; where the call is refused, the fault is
//! before the list, which is as it was.
//!
//! - `plan`: the shims of main;
//! - `both`: those of main and of the library `ad`;
//! - `twice`: those of main, which are appended twice;
//! - `after`: those of main, after shims of `waitable-set.wait` and `waitable-set.poll`, which are pushed twice;
//! - `unknown`: those of an adapter that isn't there;
//! - `site`: whether a realloc needs a shim before the instantiation, and after it;
//! - `get` and a kind (`wait`, `new`, `main:E` or `ad:E` for a realloc): the name of its shim in the list of `after`.

ghost use Rattle.std.specs.Prelude.{◌≡◌};

use crate::returns::is_sound;
use crate::worlds::world;
use bitflags::Flags;
use comp_lists::{Seq, Text};
use comp_options::RequiredOptions;
use comp_roles::MainOrAdapter;
use comp_worlds::{ComponentWorld, CustomModule};
use shim_plan::{ReallocSite, Shim, ShimFault, ShimKind, Shims, realloc_needs_shim};
use standard_kinds::StringEncoding;
use std::alloc::{AllocError, Global};
use test_cases::word_and_rest;
use wit_data::WasmSignature;

// ---- printing

fn add_shim(text: &mut String, shim: &Shim) -> Result<(), AllocError> {
    if !text.is_empty() {
        text.push_str(", ")?;
    }
    text.push_str(shim.name.as_str())?;
    text.push_str(" ")?;
    text.push_str(shim.debug_name.as_str())
}

fn listed(alloc: Global, shims: &Shims) -> Result<String, AllocError> {
    if shims.is_empty() {
        return String::from_str(alloc, "none");
    }
    let mut text = String::new(alloc);
    for shim in shims.iter() {
        add_shim(&mut text, shim)?;
    }
    Ok(text)
}

/// A refusal, and what it left.
fn refused(alloc: Global, fault: &ShimFault, shims: &Shims) -> Result<String, AllocError> {
    let left = listed(alloc, shims)?;
    format!(in alloc; "{fault}; {left}")
}

// ---- lists of shims

fn shim(alloc: Global, name: Text, debug_name: Text, kind: ShimKind) -> Shim
    ensures { result.name ≡ name }
{
    Shim {
        options: RequiredOptions::empty(),
        name,
        debug_name,
        kind,
        sig: WasmSignature {
            params: Seq::new(alloc),
            results: Seq::new(alloc),
            indirect_params: false,
            retptr: false,
        },
    }
}

/// Appends a shim of a kind, unless there is one.
fn push(
    alloc: Global,
    shims: &mut Shims,
    kind: ShimKind,
    debug_name: &str,
) -> Result<(), AllocError> {
    let debug_name = Text::from_str(alloc, debug_name)?;
    let place = shims.len();
    let name = Text::from_string(format!(in alloc; "{place}")?);
    shims.push(shim(alloc, name, debug_name, kind))
}

fn push_waits(alloc: Global, shims: &mut Shims) -> Result<(), AllocError> {
    push(alloc, shims, ShimKind::WaitableSetWait, "waitable-set.wait")?;
    push(alloc, shims, ShimKind::WaitableSetPoll, "waitable-set.poll")
}

/// Appends the shims of a module: nothing is answered where they are there, and the refusal where
/// they are not. Where memory is refused, that is the answer, unless the list was changed.
fn append(
    alloc: Global,
    shims: &mut Shims,
    world: &ComponentWorld,
    which: CustomModule<'_>,
) -> Result<Option<String>, AllocError> {
    if !is_sound(alloc, world)? {
        return Ok(Some(String::from_str(alloc, "not a world")?));
    }
    let before = shims.len();
    match shims.append_indirect(world, which) {
        Ok(()) => Ok(None),
        Err(ShimFault::Memory) if shims.len() == before => Err(AllocError),
        Err(fault) => Ok(Some(refused(alloc, &fault, shims)?)),
    }
}

/// Appends the shims of some modules, and prints the list, or the first refusal.
fn plan_in(
    alloc: Global,
    shims: &mut Shims,
    world: &ComponentWorld,
    modules: &[CustomModule<'_>],
) -> Result<String, AllocError> {
    for which in modules {
        if let Some(refusal) = append(alloc, shims, world, *which)? {
            return Ok(refusal);
        }
    }
    listed(alloc, shims)
}

fn plan(
    alloc: Global,
    world: &ComponentWorld,
    modules: &[CustomModule<'_>],
) -> Result<String, AllocError> {
    let mut shims = Shims::new(alloc);
    let printed = plan_in(alloc, &mut shims, world, modules);
    drop(shims);
    printed
}

fn plan_after(alloc: Global, shims: &mut Shims, world: &ComponentWorld) -> Result<(), AllocError> {
    push_waits(alloc, shims)?;
    push_waits(alloc, shims)?;
    drop(append(alloc, shims, world, CustomModule::Main)?);
    Ok(())
}

fn after(alloc: Global, world: &ComponentWorld) -> Result<String, AllocError> {
    let mut shims = Shims::new(alloc);
    push_waits(alloc, &mut shims)?;
    push_waits(alloc, &mut shims)?;
    let printed = plan_in(alloc, &mut shims, world, &[CustomModule::Main]);
    drop(shims);
    printed
}

// ---- look-ups

/// A kind by its word.
fn kind_of(alloc: Global, word: &str) -> Result<ShimKind, AllocError> {
    let (owner, export) = word.split_once(":").unwrap_or((word, ""));
    match owner {
        "wait" => Ok(ShimKind::WaitableSetWait),
        "main" => Ok(ShimKind::Realloc {
            module: MainOrAdapter::Main,
            export: Text::from_str(alloc, export)?,
        }),
        "ad" => realloc_of_library(alloc, export),
        _ => Ok(ShimKind::ErrorContextNew {
            encoding: StringEncoding::UTF8,
        }),
    }
}

fn realloc_of_library(alloc: Global, export: &str) -> Result<ShimKind, AllocError> {
    let name = Text::from_str(alloc, "ad")?;
    let export = Text::from_str(alloc, export)?;
    Ok(ShimKind::Realloc {
        module: MainOrAdapter::Adapter(name),
        export,
    })
}

fn name_of(alloc: Global, shims: &Shims, kind: &ShimKind) -> Result<String, AllocError> {
    match shims.get(kind) {
        Some(shim) => String::from_str(alloc, shim.name.as_str()),
        None => String::from_str(alloc, "none"),
    }
}

fn get(alloc: Global, world: &ComponentWorld, word: &str) -> Result<String, AllocError> {
    let kind = kind_of(alloc, word)?;
    let mut shims = Shims::new(alloc);
    plan_after(alloc, &mut shims, world)?;
    name_of(alloc, &shims, &kind)
}

fn sites(alloc: Global, world: &ComponentWorld) -> Result<String, AllocError> {
    let before = realloc_needs_shim(world, ReallocSite::BeforeInstantiation);
    let after = realloc_needs_shim(world, ReallocSite::AfterInstantiation);
    format!(in alloc; "{before} {after}")
}

// ---- questions

/// The answer to a question about a world.
fn answer_of(
    alloc: Global,
    question: &str,
    word: &str,
    world: &ComponentWorld,
) -> Result<String, AllocError> {
    let main = CustomModule::Main;
    match question {
        "plan" => plan(alloc, world, &[main]),
        "both" => plan(alloc, world, &[main, CustomModule::Adapter("ad")]),
        "twice" => plan(alloc, world, &[main, main]),
        "unknown" => plan(alloc, world, &[CustomModule::Adapter("zz")]),
        "after" => after(alloc, world),
        "site" => sites(alloc, world),
        "get" => get(alloc, world, word),
        _ => String::from_str(alloc, "no question"),
    }
}

pub(crate) fn answer(alloc: Global, asked: &str) -> Result<String, AllocError> {
    let (question, words) = word_and_rest(asked);
    let (word, _) = word_and_rest(words);
    let world = world(alloc, words)?;
    let answer = answer_of(alloc, question, word, &world);
    drop(world);
    answer
}
