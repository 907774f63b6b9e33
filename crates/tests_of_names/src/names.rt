//! What names mean in a world.
//!
//! Given is a world. An input is `main import KIND MODULE FIELD`, with `adapter` in place of `main`
//! for an adapter, or `main export KIND NAME`; `standard` in place of `main` rejects the older
//! form. The answer is the role, `nothing`, or why the name is refused.

use crate::roles::{print_export, print_import};
use crate::worlds::world_of;
use core_export_names::export_role;
use core_import_names::{ModuleKind, import_role};
use name_parts::{Reading, Refusal};
use record_values::{ExportRole, ImportRole, Wit};
use standard_kinds::ExportKind;
use std::alloc::{AllocError, Global};
use test_cases::word_and_rest;
use world_names::WorldNames;

fn kind(word: &str) -> ExportKind {
    match word {
        "table" => ExportKind::Table,
        "memory" => ExportKind::Memory,
        "global" => ExportKind::Global,
        _ => ExportKind::Func,
    }
}

fn refusal(refusal: Refusal) -> &'static str {
    match refusal {
        Refusal::SeveralMeanings => "refused: several meanings",
        Refusal::NotEncoded => "refused: not encoded",
        Refusal::WideMemory => "refused: wide memory",
    }
}

fn print_import_reading(alloc: Global, reading: Reading<ImportRole>) -> Result<String, AllocError> {
    match reading {
        Reading::Nothing => String::from_str(alloc, "nothing"),
        Reading::Means(role) => print_import(alloc, &role),
        Reading::Refused(why) => String::from_str(alloc, refusal(why)),
    }
}

fn print_export_reading(alloc: Global, reading: Reading<ExportRole>) -> Result<String, AllocError> {
    match reading {
        Reading::Nothing => String::from_str(alloc, "nothing"),
        Reading::Means(role) => print_export(alloc, &role),
        Reading::Refused(why) => String::from_str(alloc, refusal(why)),
    }
}

fn import_answer(
    alloc: Global,
    names: &WorldNames,
    word: &str,
    name: &str,
) -> Result<String, AllocError> {
    let module_kind = match word {
        "adapter" => ModuleKind::Adapter,
        _ => ModuleKind::Main,
    };
    let (sort, name) = word_and_rest(name);
    let (module, field) = word_and_rest(name);
    let rejects_older = word == "standard";
    let reading = import_role(
        alloc,
        names,
        module_kind,
        rejects_older,
        kind(sort),
        module,
        field,
    )?;
    print_import_reading(alloc, reading)
}

fn export_answer(
    alloc: Global,
    names: &WorldNames,
    word: &str,
    name: &str,
) -> Result<String, AllocError> {
    let (sort, name) = word_and_rest(name);
    let rejects_older = word == "standard";
    let reading = export_role(alloc, names, rejects_older, kind(sort), name)?;
    print_export_reading(alloc, reading)
}

fn name_answer(alloc: Global, wit: Wit, input: &str) -> Result<String, AllocError> {
    let names = WorldNames::of(alloc, wit)?;
    let (word, rest) = word_and_rest(input);
    let (what, name) = word_and_rest(rest);
    match what {
        "import" => import_answer(alloc, &names, word, name),
        _ => export_answer(alloc, &names, word, name),
    }
}

pub(crate) fn answer(alloc: Global, given: &str, input: &str) -> Result<String, AllocError> {
    let wit = world_of(alloc, given)?;
    name_answer(alloc, wit, input)
}
