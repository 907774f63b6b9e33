//! The results of a lower layer for records, for a module, and for two modules, as text.

ghost use Rattle.std.specs.Prelude.{IsSome};

use comp_lists::{Keyed, Seq, SharedBytes, Text};
use comp_worlds::{LibraryInfo, Lower};
use std::alloc::{AllocError, Global};
use std::fmt;
use world_values::{EncoderOptions, ExportKey, Gathered, GatheredAdapter, Merged, Part};

/// The call that refuses a module, with its fault, or that none does.
#[derive(Drop)]
enum Answer<F> {
    Prepared,
    Decode(F),
    Merge(F),
    Prepare(F),
}

impl<F: fmt::Display> fmt::Display for Answer<F> {
    fn fmt<W: fmt::Write>(&self, f: &mut fmt::Formatter<W>) -> fmt::Result {
        match self {
            Answer::Prepared => write!(f, "prepared"),
            Answer::Decode(fault) => write!(f, "decode: {fault}"),
            Answer::Merge(fault) => write!(f, "merge: {fault}"),
            Answer::Prepare(fault) => write!(f, "prepare: {fault}"),
        }
    }
}

const EMPTY_MODULE: [u8; 8] = [0x00, 0x61, 0x73, 0x6d, 0x01, 0x00, 0x00, 0x00];

/// The options of an encoder that was asked for nothing.
const OPTIONS: EncoderOptions = EncoderOptions {
    validate: false,
    debug_names: false,
    shim_return_call_ref: false,
    merge_imports_based_on_semver: true,
    emit_canonical_names: false,
    reject_legacy_names: false,
    realloc_via_memory_grow: false,
};

/// The result of a layer for the world of what was gathered.
fn prepare_answer<L: Lower>(
    lower: &L,
    alloc: Global,
    gathered: &Gathered<L::Bindgen>,
) -> Answer<L::Fault>
    requires { IsSome gathered.now.main }
{
    match lower.prepare(alloc, gathered) {
        Ok(world) => {
            drop(world);
            Answer::Prepared
        }
        Err(fault) => Answer::Prepare(fault),
    }
}

/// A module without its records, what it says, and what it says merged with those before it.
type Given<B> = (SharedBytes, B, Merged<B>);

/// A module that is given after others, whose merged records are these.
fn given_after<L: Lower>(
    lower: &L,
    alloc: Global,
    combined: &L::Bindgen,
    bytes: Vec<u8>,
) -> Result<Given<L::Bindgen>, Answer<L::Fault>> {
    match lower.decode(alloc, bytes) {
        Ok((bytes, own)) => match lower.merge(alloc, combined, &own) {
            Ok(merged) => Ok((bytes, own, merged)),
            Err(fault) => Err(Answer::Merge(fault)),
        },
        Err(fault) => Err(Answer::Decode(fault)),
    }
}

/// A module that is given first.
fn given_first<L: Lower>(
    lower: &L,
    alloc: Global,
    bytes: Vec<u8>,
) -> Result<Given<L::Bindgen>, Answer<L::Fault>> {
    let empty = lower.empty(alloc);
    let given = given_after(lower, alloc, &empty, bytes);
    drop(empty);
    given
}

/// Main as it was given last, which has to export this.
fn gathered_with<B>(
    alloc: Global,
    bytes: SharedBytes,
    own: B,
    combined: B,
    required: Seq<ExportKey>,
) -> Gathered<B>
    ensures { IsSome result.main }
{
    Gathered {
        main: Some(Part {
            bytes,
            own,
            required,
        }),
        adapters: Keyed::new(alloc),
        combined,
        options: OPTIONS,
    }
}

/// The world of what was given.
fn prepare_given<L: Lower>(lower: &L, alloc: Global, given: Given<L::Bindgen>) -> Answer<L::Fault> {
    let (bytes, own, merged) = given;
    let gathered = gathered_with(alloc, bytes, own, merged.combined, merged.exports);
    let answer = prepare_answer(lower, alloc, &gathered);
    drop(gathered);
    answer
}

/// The result of a layer for a module as main.
fn answer_for<L: Lower>(lower: &L, alloc: Global, bytes: Vec<u8>) -> Answer<L::Fault> {
    match given_first(lower, alloc, bytes) {
        Ok(given) => prepare_given(lower, alloc, given),
        Err(answer) => answer,
    }
}

/// All keys that two modules have to export.
fn with_keys<B: Drop>(keys: Seq<ExportKey>, given: Given<B>) -> Result<Given<B>, AllocError> {
    let (bytes, own, merged) = given;
    let Merged { combined, exports } = merged;
    let mut all = keys;
    match all.append(exports) {
        Ok(()) => Ok((
            bytes,
            own,
            Merged {
                combined,
                exports: all,
            },
        )),
        Err(refused) => Err(AllocError::from(refused)),
    }
}

/// The result of a layer for two modules that are given as main, one after the other.
fn answer_for_both<L: Lower>(
    lower: &L,
    alloc: Global,
    first: Vec<u8>,
    second: Vec<u8>,
) -> Result<Answer<L::Fault>, AllocError> {
    match given_first(lower, alloc, first) {
        Ok((_, _, merged)) => {
            let Merged { combined, exports } = merged;
            let given = given_after(lower, alloc, &combined, second);
            drop(combined);
            answer_after(lower, alloc, exports, given)
        }
        Err(answer) => Ok(answer),
    }
}

/// The result of a layer for the second, where the first has to export these keys.
fn answer_after<L: Lower>(
    lower: &L,
    alloc: Global,
    keys: Seq<ExportKey>,
    given: Result<Given<L::Bindgen>, Answer<L::Fault>>,
) -> Result<Answer<L::Fault>, AllocError> {
    match given {
        Ok(given) => match with_keys(keys, given) {
            Ok(given) => Ok(prepare_given(lower, alloc, given)),
            Err(refused) => Err(refused),
        },
        Err(answer) => Ok(answer),
    }
}

/// Adapters by their names, and what they say together with main.
#[derive(Drop)]
struct Beside<B> {
    adapters: Keyed<Text, GatheredAdapter<B>>,
    combined: B,
}

/// An adapter that was given, and what is said with it.
fn adapter_of<B>(given: Given<B>, library_info: Option<LibraryInfo>) -> (GatheredAdapter<B>, B) {
    let (bytes, own, merged) = given;
    let Merged { combined, exports } = merged;
    let part = Part {
        bytes,
        own,
        required: exports,
    };
    (GatheredAdapter { part, library_info }, combined)
}

/// The adapters with one more.
fn with_adapter<B: Drop>(
    beside: Beside<B>,
    name: Text,
    adapter: GatheredAdapter<B>,
    combined: B,
) -> Result<Beside<B>, AllocError> {
    let Beside {
        mut adapters,
        combined: _,
    } = beside;
    adapters.insert_if_absent(name, adapter)?;
    Ok(Beside { adapters, combined })
}

/// The adapters with a further module, which is a library or not.
fn one_more<L: Lower>(
    lower: &L,
    alloc: Global,
    beside: Beside<L::Bindgen>,
    name: Text,
    library_info: Option<LibraryInfo>,
    bytes: Vec<u8>,
) -> Result<Result<Beside<L::Bindgen>, Answer<L::Fault>>, AllocError> {
    match given_after(lower, alloc, &beside.combined, bytes) {
        Ok(given) => {
            let (adapter, combined) = adapter_of(given, library_info);
            let beside = with_adapter(beside, name, adapter, combined)?;
            Ok(Ok(beside))
        }
        Err(answer) => {
            drop(beside);
            drop(name);
            drop(library_info);
            Ok(Err(answer))
        }
    }
}

/// What was gathered of main and these adapters.
fn gathered_beside<B>(
    bytes: SharedBytes,
    own: B,
    required: Seq<ExportKey>,
    beside: Beside<B>,
) -> Gathered<B>
    ensures { IsSome result.main }
{
    let Beside { adapters, combined } = beside;
    Gathered {
        main: Some(Part {
            bytes,
            own,
            required,
        }),
        adapters,
        combined,
        options: OPTIONS,
    }
}

/// A further module, as a case has it: its name, its arguments where it is a library, and its bytes.
#[derive(Drop)]
pub(crate) struct Further {
    pub name: Text,
    pub library_info: Option<LibraryInfo>,
    pub bytes: Vec<u8>,
}

/// The adapters with all of these.
fn all_beside<L: Lower>(
    lower: &L,
    alloc: Global,
    first: Beside<L::Bindgen>,
    modules: Vec<Further>,
) -> Result<Result<Beside<L::Bindgen>, Answer<L::Fault>>, AllocError> {
    let mut beside = first;
    for further in modules {
        let Further {
            name,
            library_info,
            bytes,
        } = further;
        match one_more(lower, alloc, beside, name, library_info, bytes)? {
            Ok(more) => beside = more,
            Err(answer) => return Ok(Err(answer)),
        }
    }
    Ok(Ok(beside))
}

/// The result of a layer for a module as main, and these beside it.
fn answer_for_all<L: Lower>(
    lower: &L,
    alloc: Global,
    main: Vec<u8>,
    modules: Vec<Further>,
) -> Result<Answer<L::Fault>, AllocError> {
    match given_first(lower, alloc, main) {
        Ok((bytes, own, merged)) => {
            let Merged { combined, exports } = merged;
            let first = Beside {
                adapters: Keyed::new(alloc),
                combined,
            };
            match all_beside(lower, alloc, first, modules)? {
                Ok(beside) => {
                    let gathered = gathered_beside(bytes, own, exports, beside);
                    let answer = prepare_answer(lower, alloc, &gathered);
                    drop(gathered);
                    Ok(answer)
                }
                Err(answer) => Ok(answer),
            }
        }
        Err(answer) => Ok(answer),
    }
}

/// The result for the records of a module: that they are read, or the fault.
fn read_by<L: Lower>(lower: &L, alloc: Global, bytes: Vec<u8>) -> Result<String, AllocError> {
    match lower.decode(alloc, bytes) {
        Ok(_) => String::from_str(alloc, "read"),
        Err(fault) => format!(in alloc; "{fault}"),
    }
}

/// Adds a size of less than 2^14, in two bytes.
fn push_size(bytes: &mut Vec<u8>, size: usize) -> Result<(), AllocError> {
    bytes.extend_from_slice(&[(size % 128) as u8 + 128, (size / 128 % 128) as u8])
}

/// Adds a custom section of this name of fourteen bytes.
fn push_section(bytes: &mut Vec<u8>, record: &str) -> Result<(), AllocError> {
    bytes.push(0)?;
    push_size(bytes, record.len().saturating_add(15))?;
    bytes.push(14)?;
    bytes.extend_from_slice(b"component-type")?;
    bytes.extend_from_slice(record.as_bytes())
}

/// The empty module with these records, each in a section of its own.
fn with_records(alloc: Global, records: &str) -> Result<Vec<u8>, AllocError> {
    let mut bytes = Vec::from_slice(alloc, &EMPTY_MODULE)?;
    for record in records.split(" & ") {
        push_section(&mut bytes, record)?;
    }
    Ok(bytes)
}

/// The result of a layer for these records, which are in the sections of one module: that they are read, or the
/// fault.
pub fn records_answer<L: Lower>(
    lower: &L,
    alloc: Global,
    records: &str,
) -> Result<String, AllocError> {
    let bytes = with_records(alloc, records)?;
    read_by(lower, alloc, bytes)
}

/// The result of a layer for a module as main: that its world is prepared, or the call that refuses it, with the fault.
pub fn module_answer<L: Lower>(
    lower: &L,
    alloc: Global,
    bytes: &[u8],
) -> Result<String, AllocError> {
    let answer = answer_for(lower, alloc, Vec::from_slice(alloc, bytes)?);
    format!(in alloc; "{answer}")
}

/// The result of a layer for two modules as main, one after the other.
pub fn modules_answer<L: Lower>(
    lower: &L,
    alloc: Global,
    first: &[u8],
    second: &[u8],
) -> Result<String, AllocError> {
    let (first, second) = (
        Vec::from_slice(alloc, first)?,
        Vec::from_slice(alloc, second)?,
    );
    let answer = answer_for_both(lower, alloc, first, second)?;
    format!(in alloc; "{answer}")
}

/// The result of a layer for a module as main, with adapters and libraries beside it.
pub(crate) fn group_answer<L: Lower>(
    lower: &L,
    alloc: Global,
    main: &[u8],
    modules: Vec<Further>,
) -> Result<String, AllocError> {
    let main = Vec::from_slice(alloc, main)?;
    let answer = answer_for_all(lower, alloc, main, modules)?;
    format!(in alloc; "{answer}")
}
