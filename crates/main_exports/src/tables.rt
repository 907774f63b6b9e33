//! The core exports of a user module by the functions that they belong to, looked up once for all functions.
//!
//! Canonical ABI: `canon lift`, with its options `post-return` and `callback`.

ghost use Rattle.std.specs.Prelude.{◌≡◌, IfOk, unwrap_or};
ghost use Rattle.std.specs.Map.{lookup};
ghost use Rattle.std.specs.Option.{option_copied};
ghost use Rattle.comp_roles.specs.Functions.{is_same_function};
ghost use Rattle.main_exports.specs.Tables.{AreEntriesOf, AreFollowersOf, AreTablesOf, follower_in};

use comp_lists::{Keyed, Text};
use comp_worlds::{Export, FunctionKey};
use std::alloc::{AllocError, Global};
use wit_data::AbiVariant;
use world_values::{callbacks, implementations, lifted_functions, post_returns};

/// The exports of a module that implement functions, and the forms in which these are called.
#[derive(Drop)]
pub(crate) struct EntryTables {
    implementations: Keyed<FunctionKey, Text>,
    forms: Keyed<FunctionKey, AbiVariant>,
}

impl EntryTables {
    #[tactic(auto, using(crate::proofs::Tabled::entries_are))]
    fn of(alloc: Global, exports: &Keyed<Text, Export>) -> Result<EntryTables, AllocError>
        ensures { IfOk result (AreEntriesOf exports.now) }
    {
        let implementations = implementations(alloc, exports)?;
        let forms = lifted_functions(alloc, exports)?;
        Ok(EntryTables {
            implementations,
            forms,
        })
    }
}

/// The exports of a module that are called behind these: post-returns and callbacks.
#[derive(Drop)]
pub(crate) struct FollowerTables {
    post_returns: Keyed<FunctionKey, Text>,
    callbacks: Keyed<FunctionKey, Text>,
}

impl FollowerTables {
    #[tactic(auto, using(crate::proofs::Tabled::followers_are))]
    fn of(alloc: Global, exports: &Keyed<Text, Export>) -> Result<FollowerTables, AllocError>
        ensures { IfOk result (AreFollowersOf exports.now) }
    {
        let post_returns = post_returns(alloc, exports)?;
        let callbacks = callbacks(alloc, exports)?;
        Ok(FollowerTables {
            post_returns,
            callbacks,
        })
    }
}

/// The names of a module's exports, by the functions that they implement, and by those whose
/// post-return or callback they are: the first, where there are several for one function.
#[derive(Drop)]
pub(crate) struct ExportTables {
    entries: EntryTables,
    followers: FollowerTables,
}

impl ExportTables {
    #[tactic(auto, using(crate::proofs::Tabled::tables_are))]
    pub(crate) fn of(
        alloc: Global,
        exports: &Keyed<Text, Export>,
    ) -> Result<ExportTables, AllocError>
        ensures { IfOk result (AreTablesOf exports.now) }
    {
        let entries = EntryTables::of(alloc, exports)?;
        let followers = FollowerTables::of(alloc, exports)?;
        Ok(ExportTables { entries, followers })
    }

    /// The core export that implements a function.
    pub(crate) fn implementation(&self, function: &FunctionKey) -> Option<&Text>
        ensures { option_copied result
            ≡ lookup (is_same_function function.now) self.now.entries.implementations }
    {
        self.entries.implementations.get(function)
    }

    /// The form in which some export implements a function.
    fn form_if(&self, function: &FunctionKey) -> Option<AbiVariant>
        ensures { result ≡ lookup (is_same_function function.now) self.now.entries.forms }
    {
        self.entries.forms.get(function).copied()
    }

    /// The form in which a function is implemented; one that no export implements counts as
    /// synchronous.
    pub(crate) fn form(&self, function: &FunctionKey) -> AbiVariant
        ensures { result
            ≡ unwrap_or (lookup (is_same_function function.now) self.now.entries.forms)
            AbiVariant.GuestExport }
    {
        match self.form_if(function) {
            Some(form) => form,
            None => AbiVariant::GuestExport,
        }
    }

    /// The post-return of a function, if it has one.
    fn post_return(&self, function: &FunctionKey) -> Option<&Text>
        ensures { option_copied result
            ≡ lookup (is_same_function function.now) self.now.followers.post_returns }
    {
        self.followers.post_returns.get(function)
    }

    /// The callback of a function, if it has one.
    fn callback(&self, function: &FunctionKey) -> Option<&Text>
        ensures { option_copied result
            ≡ lookup (is_same_function function.now) self.now.followers.callbacks }
    {
        self.followers.callbacks.get(function)
    }

    /// What is called behind a function of this form, if anything is: the post-return of a
    /// synchronous one, and the callback of one that has a callback.
    pub(crate) fn follower(&self, form: AbiVariant, function: &FunctionKey) -> Option<&Text>
        ensures { option_copied result
            ≡ follower_in form
            (lookup (is_same_function function.now) self.now.followers.post_returns)
            (lookup (is_same_function function.now) self.now.followers.callbacks) }
    {
        match form {
            AbiVariant::GuestExport => self.post_return(function),
            AbiVariant::GuestExportAsync => self.callback(function),
            _ => None,
        }
    }
}
