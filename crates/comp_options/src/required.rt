//! Which options a canonical function needs, and the list of the options.
//!
//! Component model, binary format: `canonopt`; Canonical ABI: lifting and lowering, `realloc`,
//! `string-encoding`.

ghost use Rattle.std.specs.Prelude.{⊤, ◌≡◌, ◌↔◌, ◌&&◌, [], ◌∷◌, codes, not, Some, IfOk, IsErrOf, IsTrue};
ghost use Rattle.std.specs.Iterator.{YieldsFirst, item_count};
ghost use Rattle.std.specs.List.{AllByRecursion};
ghost use Rattle.wit_data.specs.Contents.{contents_bits};
ghost use Rattle.wit_data.specs.Sound.{IsSound, HasFunction, HasType};
ghost use Rattle.comp_options.specs.Options.{lifted, lowered, passed, pass_all, param_contents, passes_memory, is_async_export, import_set, export_set, task_return_set, wait_set, error_new_set, error_message_set};
ghost use Rattle.comp_options.specs.OptionLists.{options_of, encoding_option, lacks_memory, lacks_realloc};
ghost use Rattle.comp_options.specs.Payloads.{way_of, carried, payload_set};
ghost use Rattle.comp_options.specs.Known.{HasPayload};
ghost use Rattle.comp_options.specs.declared.required.OptionFault.TheVariants.{NoMemory, NoRealloc};

use bitflags::{Flag, Flags, bitflag_items};
use comp_bytes::CanonicalOption;
use comp_roles::{PayloadFuncKind, PayloadInfo, PayloadType};
use standard_kinds::StringEncoding;
use std::iter::ExactSizeIterator;
use std::marker::Model;
use thiserror::Error;
use wit_data::{AbiVariant, Function, Param, Resolve, TypeContents};

/// Which options a canonical function needs.
#[derive(Clone, Copy, Debug)]
pub struct RequiredOptions(u8);

bitflag_items! {
    impl RequiredOptions: u8 {
        const MEMORY = 1;
        const REALLOC = 2;
        const STRING_ENCODING = 4;
        const ASYNC = 8;
    }
}

impl Flags for RequiredOptions {
    type Bits = u8;

    ghost exact = { ⊤ };

    ghost table = { (codes "MEMORY", 1) ∷ (codes "REALLOC", 2) ∷ (codes "STRING_ENCODING", 4) ∷ (codes "ASYNC", 8) ∷ [] };

    ghost set_of = { λ o. o.0 };

    fn flags<'a>() -> &'a [Flag<RequiredOptions>] {
        RequiredOptions::FLAGS
    }

    fn bits(&self) -> u8 {
        self.0
    }

    fn from_bits_retain(bits: u8) -> RequiredOptions {
        RequiredOptions(bits)
    }
}

/// Why options can't be listed.
#[derive(Clone, Copy, Debug, PartialEq, Eq, Error)]
pub enum OptionFault {
    /// A memory is needed and missing.
    #[error("O1 NoMemory")]
    NoMemory,
    /// A realloc is needed and missing.
    #[error("O2 NoRealloc")]
    NoRealloc,
}

impl RequiredOptions {
    /// Adds the options for lifting a value of these contents from memory.
    pub fn add_lift(&mut self, contents: TypeContents)
        ensures { self.new.0 ≡ lifted contents.0 self.old.0 }
    {
        if contents.contains(TypeContents::NEEDS_MEMORY) {
            self.insert(RequiredOptions::MEMORY);
        }
        if contents.contains(TypeContents::STRING) {
            self.insert(RequiredOptions::MEMORY);
            self.insert(RequiredOptions::STRING_ENCODING);
        }
    }

    /// Adds the options for lowering a value of these contents into memory.
    pub fn add_lower(&mut self, contents: TypeContents)
        ensures { self.new.0 ≡ lowered contents.0 self.old.0 }
    {
        self.add_lift(contents);
        if contents.contains(TypeContents::NEEDS_MEMORY)
            || contents.contains(TypeContents::STRING)
        {
            self.insert(RequiredOptions::REALLOC);
        }
    }

    /// The options of a call of an imported function. It allocates nothing.
    pub fn for_import(resolve: &Resolve, function: &Function, abi: AbiVariant) -> RequiredOptions
        requires sound { IsSound resolve.now }
        requires present { HasFunction resolve.now function.now }
        ensures { result.0 ≡ import_set abi resolve.now.types function.now }
    {
        let mut set = pass_params(resolve, function.params.as_slice(), Direction::Lift);
        set.add_lower(resolve.contents_of(function.result));
        if passes_memory(resolve, function, abi) {
            set.insert(RequiredOptions::MEMORY);
        }
        if abi == AbiVariant::GuestImportAsync {
            set.insert(RequiredOptions::ASYNC);
        }
        set
    }

    /// The options of a call of an exported function, with those of its `task.return` where it is
    /// asynchronous. It allocates nothing.
    pub fn for_export(resolve: &Resolve, function: &Function, abi: AbiVariant) -> RequiredOptions
        requires sound { IsSound resolve.now }
        requires present { HasFunction resolve.now function.now }
        ensures { result.0 ≡ export_set abi resolve.now.types function.now }
    {
        let mut set = pass_params(resolve, function.params.as_slice(), Direction::Lower);
        set.add_lift(resolve.contents_of(function.result));
        if passes_memory(resolve, function, abi) {
            set.insert(RequiredOptions::MEMORY);
        }
        if resolve.is_indirect(abi, function) {
            set.insert(RequiredOptions::REALLOC);
        }
        if is_async_export(abi) {
            set.insert(RequiredOptions::ASYNC);
            set.insert(RequiredOptions::for_task_return(resolve, function));
        }
        set
    }

    /// The options of `task.return` of a function. It allocates nothing.
    pub fn for_task_return(resolve: &Resolve, function: &Function) -> RequiredOptions
        requires sound { IsSound resolve.now }
        requires present { HasFunction resolve.now function.now }
        ensures { result.0 ≡ task_return_set resolve.now.types function.now }
    {
        let set = RequiredOptions::for_import(resolve, function, AbiVariant::GuestImport);
        RequiredOptions(set.0 & 13)
    }

    /// The options of waiting on a set of waitables, and of polling it.
    pub fn for_wait() -> RequiredOptions
        ensures { result.0 ≡ wait_set }
    {
        RequiredOptions::MEMORY
    }

    /// The options of making an error context, whose debug message is lifted.
    pub fn for_error_new() -> RequiredOptions
        ensures { result.0 ≡ error_new_set }
    {
        let mut set = RequiredOptions::empty();
        set.add_lift(TypeContents::STRING);
        set
    }

    /// The options of reading the debug message of an error context, which is lowered.
    pub fn for_error_message() -> RequiredOptions
        ensures { result.0 ≡ error_message_set }
    {
        let mut set = RequiredOptions::empty();
        set.add_lower(TypeContents::STRING);
        set
    }

    /// The options of reading from a stream or a future, or of writing to it. It allocates nothing.
    pub fn for_payload(
        resolve: &Resolve,
        info: &PayloadInfo,
        kind: &PayloadFuncKind,
        async_: bool,
    ) -> RequiredOptions
        requires sound { IsSound resolve.now }
        requires present { HasPayload resolve.now info.now.ty }
        ensures { result.0 ≡ payload_set resolve.now.types info.now.ty kind.now async_ }
    {
        let mut set = RequiredOptions::empty();
        let contents = payload_contents(resolve, &info.ty);
        set.pass(direction_of(*kind), contents);
        set.insert(RequiredOptions::MEMORY);
        if async_ {
            set.insert(RequiredOptions::ASYNC);
        }
        set
    }

    /// The options in the order memory, realloc, encoding, asynchronous, each where it is needed.
    ///
    /// `NoMemory` where a memory is needed and missing; `NoRealloc` where no memory is missing, and a
    /// realloc is needed and missing.
    pub fn into_iter(
        self,
        encoding: StringEncoding,
        memory: Option<u32>,
        realloc: Option<u32>,
    ) -> Result<Options, OptionFault>
        ensures ok { IfOk result (λ options. options ≡ options_of self.0 encoding memory realloc) }
        ensures no_memory { IsErrOf result NoMemory ↔ IsTrue (lacks_memory self.0 memory) }
        ensures no_realloc { IsErrOf result NoRealloc
            ↔ IsTrue (not (lacks_memory self.0 memory) && lacks_realloc self.0 realloc) }
    {
        let memory = if self.contains(RequiredOptions::MEMORY) {
            Some(memory.ok_or(OptionFault::NoMemory)?)
        } else {
            None
        };
        let realloc = if self.contains(RequiredOptions::REALLOC) {
            Some(realloc.ok_or(OptionFault::NoRealloc)?)
        } else {
            None
        };
        let encoding = if self.contains(RequiredOptions::STRING_ENCODING) {
            Some(encoding)
        } else {
            None
        };
        Ok(Options {
            memory,
            realloc,
            encoding,
            async_: self.contains(RequiredOptions::ASYNC),
        })
    }

    fn pass(&mut self, way: Direction, contents: TypeContents)
        ensures { self.new.0 ≡ passed way contents.0 self.old.0 }
    {
        match way {
            Direction::Lift => self.add_lift(contents),
            Direction::Lower => self.add_lower(contents),
        }
    }
}

/// The direction in which a value is passed: from memory, or into it.
#[derive(Clone, Copy, Debug, PartialEq, Eq)]
enum Direction {
    Lift,
    Lower,
}

/// The options for passing parameters in one direction.
fn pass_params(resolve: &Resolve, params: &[Param], way: Direction) -> RequiredOptions
    requires sound { IsSound resolve.now }
    requires all_present { AllByRecursion (λ p. HasType resolve.now (Some p.ty)) params.now }
    ensures { result.0 ≡ pass_all way (param_contents resolve.now.types params.now) 0 }
{
    let mut set = RequiredOptions::empty();
    for param_index in 0..params.len() {
        set.pass(way, resolve.type_contents(&params[param_index].ty));
    }
    set
}

fn passes_memory(resolve: &Resolve, function: &Function, abi: AbiVariant) -> bool
    requires sound { IsSound resolve.now }
    requires present { HasFunction resolve.now function.now }
    ensures { result ≡ passes_memory abi resolve.now.types function.now }
{
    resolve.is_indirect(abi, function) || resolve.is_returned_in_memory(abi, function)
}

fn is_async_export(abi: AbiVariant) -> bool
    ensures { result ≡ is_async_export abi }
{
    matches!(
        abi,
        AbiVariant::GuestExportAsync | AbiVariant::GuestExportAsyncStackful
    )
}

fn direction_of(kind: PayloadFuncKind) -> Direction
    ensures { result ≡ way_of kind }
{
    match kind {
        PayloadFuncKind::FutureWrite | PayloadFuncKind::StreamWrite => Direction::Lift,
        PayloadFuncKind::FutureRead | PayloadFuncKind::StreamRead => Direction::Lower,
    }
}

/// The contents of the element type of a stream or a future.
fn payload_contents(resolve: &Resolve, payload: &PayloadType) -> TypeContents
    requires sound { IsSound resolve.now }
    requires present { HasPayload resolve.now payload.now }
    ensures { result.0 ≡ contents_bits resolve.now.types (carried resolve.now.types payload.now) }
{
    match payload {
        PayloadType::Typed { id, .. } => resolve.contents_of(resolve.carried_by(*id)),
        PayloadType::UnitFuture | PayloadType::UnitStream => resolve.contents_of(None),
    }
}

/// The options of a canonical function: at most four, in the order memory, realloc, encoding,
/// asynchronous.
#[derive(Drop)]
pub struct Options {
    memory: Option<u32>,
    realloc: Option<u32>,
    encoding: Option<StringEncoding>,
    async_: bool,
}

impl Model for Options {
    ghost use Rattle.std.specs.Prelude.{List};
    ghost use Rattle.comp_bytes.specs.declared.canon.CanonicalOption.{CanonicalOption};
    ghost use Rattle.comp_options.specs.OptionLists.{in_order};

    ghost Value = { List CanonicalOption };

    ghost view = { λ o. in_order o.memory o.realloc o.encoding o.async_ };
}

fn encoding_option(encoding: StringEncoding) -> CanonicalOption
    ensures { result ≡ encoding_option encoding }
{
    match encoding {
        StringEncoding::UTF8 => CanonicalOption::Utf8,
        StringEncoding::UTF16 => CanonicalOption::Utf16,
        StringEncoding::CompactUTF16 => CanonicalOption::CompactUtf16,
    }
}

impl Iterator for Options {
    type Item = CanonicalOption;

    ghost next_gives = { YieldsFirst (λ options. options) };

    ghost remaining = { item_count (λ options. options) };

    fn next(&mut self) -> Option<CanonicalOption> {
        if let Some(memory) = self.memory.take() {
            return Some(CanonicalOption::Memory(memory));
        }
        if let Some(realloc) = self.realloc.take() {
            return Some(CanonicalOption::Realloc(realloc));
        }
        if let Some(encoding) = self.encoding.take() {
            return Some(encoding_option(encoding));
        }
        if self.async_ {
            self.async_ = false;
            return Some(CanonicalOption::Async);
        }
        None
    }

    fn size_hint(&self) -> (usize, Option<usize>) {
        let left = self.len();
        (left, Some(left))
    }
}

impl ExactSizeIterator for Options {
    fn len(&self) -> usize {
        usize::from(self.memory.is_some())
            + usize::from(self.realloc.is_some())
            + usize::from(self.encoding.is_some())
            + usize::from(self.async_)
    }
}
